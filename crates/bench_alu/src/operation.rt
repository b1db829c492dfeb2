//! The operations by name.

use crate::sweep::swept;
use avr_alu::*;

/// An operation, or `Plain` for none.
#[derive(Clone, Copy)]
pub enum Operation {
    Plain,
    Add,
    Adc,
    Sub,
    Sbc,
    And,
    Or,
    Eor,
    Com,
    Neg,
    Inc,
    Dec,
    Asr,
    Lsr,
    Ror,
    Adiw,
    Sbiw,
    Mul,
    Muls,
    Mulsu,
    Fmul,
    Fmuls,
    Fmulsu,
}

impl Operation {
    pub const ALL: [Operation; 23] = [
        Operation::Plain,
        Operation::Add,
        Operation::Adc,
        Operation::Sub,
        Operation::Sbc,
        Operation::And,
        Operation::Or,
        Operation::Eor,
        Operation::Com,
        Operation::Neg,
        Operation::Inc,
        Operation::Dec,
        Operation::Asr,
        Operation::Lsr,
        Operation::Ror,
        Operation::Adiw,
        Operation::Sbiw,
        Operation::Mul,
        Operation::Muls,
        Operation::Mulsu,
        Operation::Fmul,
        Operation::Fmuls,
        Operation::Fmulsu,
    ];

    /// The name in the words of the manual.
    pub fn name(self) -> &'static str {
        match self {
            Operation::Plain => "plain",
            Operation::Add => "add",
            Operation::Adc => "adc",
            Operation::Sub => "sub",
            Operation::Sbc => "sbc",
            Operation::And => "and",
            Operation::Or => "or",
            Operation::Eor => "eor",
            Operation::Com => "com",
            Operation::Neg => "neg",
            Operation::Inc => "inc",
            Operation::Dec => "dec",
            Operation::Asr => "asr",
            Operation::Lsr => "lsr",
            Operation::Ror => "ror",
            Operation::Adiw => "adiw",
            Operation::Sbiw => "sbiw",
            Operation::Mul => "mul",
            Operation::Muls => "muls",
            Operation::Mulsu => "mulsu",
            Operation::Fmul => "fmul",
            Operation::Fmuls => "fmuls",
            Operation::Fmulsu => "fmulsu",
        }
    }

    /// The checksum over all pairs of bytes. An operation with a single operand takes the second byte of the pair, one over
    /// words the pair as a word and the low six bits of its second byte.
    pub fn checksum(self, rounds: u32) -> u32 {
        match self {
            Operation::Plain => swept(rounds, |a, b, sreg| (word(a, b), sreg)),
            Operation::Add => swept(rounds, |a, b, sreg| wide(add(a, b, sreg))),
            Operation::Adc => swept(rounds, |a, b, sreg| wide(adc(a, b, sreg))),
            Operation::Sub => swept(rounds, |a, b, sreg| wide(sub(a, b, sreg))),
            Operation::Sbc => swept(rounds, |a, b, sreg| wide(sbc(a, b, sreg))),
            Operation::And => swept(rounds, |a, b, sreg| wide(and(a, b, sreg))),
            Operation::Or => swept(rounds, |a, b, sreg| wide(or(a, b, sreg))),
            Operation::Eor => swept(rounds, |a, b, sreg| wide(eor(a, b, sreg))),
            Operation::Com => swept(rounds, |_a, b, sreg| wide(com(b, sreg))),
            Operation::Neg => swept(rounds, |_a, b, sreg| wide(neg(b, sreg))),
            Operation::Inc => swept(rounds, |_a, b, sreg| wide(inc(b, sreg))),
            Operation::Dec => swept(rounds, |_a, b, sreg| wide(dec(b, sreg))),
            Operation::Asr => swept(rounds, |_a, b, sreg| wide(asr(b, sreg))),
            Operation::Lsr => swept(rounds, |_a, b, sreg| wide(lsr(b, sreg))),
            Operation::Ror => swept(rounds, |_a, b, sreg| wide(ror(b, sreg))),
            Operation::Adiw => swept(rounds, |a, b, sreg| adiw(word(a, b), b % 64, sreg)),
            Operation::Sbiw => swept(rounds, |a, b, sreg| sbiw(word(a, b), b % 64, sreg)),
            Operation::Mul => swept(rounds, |a, b, sreg| mul(a, b, sreg)),
            Operation::Muls => swept(rounds, |a, b, sreg| muls(a, b, sreg)),
            Operation::Mulsu => swept(rounds, |a, b, sreg| mulsu(a, b, sreg)),
            Operation::Fmul => swept(rounds, |a, b, sreg| fmul(a, b, sreg)),
            Operation::Fmuls => swept(rounds, |a, b, sreg| fmuls(a, b, sreg)),
            Operation::Fmulsu => swept(rounds, |a, b, sreg| fmulsu(a, b, sreg)),
        }
    }
}

#[inline]
fn wide((value, sreg): (u8, u8)) -> (u16, u8) {
    (value as u16, sreg)
}

#[inline]
fn word(high: u8, low: u8) -> u16 {
    high as u16 * 256 + low as u16
}
