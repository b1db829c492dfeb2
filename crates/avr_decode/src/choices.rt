//! The tests that tell an instruction by its first word, a group of bits at a time. The comment of a function is the bits that
//! its callers have seen already. Each is inlined, so that one who decodes a word and does what it says goes straight there, and
//! no value of the instruction is made.

ghost use Rattle.std.specs.Prelude.{◌≡◌};
ghost use Rattle.avr_decode.specs.Choices as choice;

use crate::first_word::{
    destination, displacement, far_address, immediate, io_address, long_distance, low_io_address,
    lower_nibble, lower_octal, pair, short_distance, source, upper_nibble, upper_octal,
    word_immediate,
};
use avr_spec::Instr;

/// Any word, by its first six bits. Some rows leave one or two of these to a field, so they stand here twice or four times: one test
/// leads to each.
#[inline(always)]
pub fn by_six_bits(first: u16, second: u16) -> Instr
    ensures { result ≡ choice.by_six_bits first second }
{
    // Each takes the fields for itself: taken ahead of the test, they would be taken for every word.
    match first / 1024 {
        0 => moves_and_products(first),
        1 => Instr::Cpc(destination(first), source(first)),
        2 => Instr::Sbc(destination(first), source(first)),
        3 => Instr::Add(destination(first), source(first)),
        4 => Instr::Cpse(destination(first), source(first)),
        5 => Instr::Cp(destination(first), source(first)),
        6 => Instr::Sub(destination(first), source(first)),
        7 => Instr::Adc(destination(first), source(first)),
        8 => Instr::And(destination(first), source(first)),
        9 => Instr::Eor(destination(first), source(first)),
        10 => Instr::Or(destination(first), source(first)),
        11 => Instr::Mov(destination(first), source(first)),
        12 => Instr::Cpi(upper_nibble(first), immediate(first)),
        13 => Instr::Cpi(upper_nibble(first), immediate(first)),
        14 => Instr::Cpi(upper_nibble(first), immediate(first)),
        15 => Instr::Cpi(upper_nibble(first), immediate(first)),
        16 => Instr::Sbci(upper_nibble(first), immediate(first)),
        17 => Instr::Sbci(upper_nibble(first), immediate(first)),
        18 => Instr::Sbci(upper_nibble(first), immediate(first)),
        19 => Instr::Sbci(upper_nibble(first), immediate(first)),
        20 => Instr::Subi(upper_nibble(first), immediate(first)),
        21 => Instr::Subi(upper_nibble(first), immediate(first)),
        22 => Instr::Subi(upper_nibble(first), immediate(first)),
        23 => Instr::Subi(upper_nibble(first), immediate(first)),
        24 => Instr::Ori(upper_nibble(first), immediate(first)),
        25 => Instr::Ori(upper_nibble(first), immediate(first)),
        26 => Instr::Ori(upper_nibble(first), immediate(first)),
        27 => Instr::Ori(upper_nibble(first), immediate(first)),
        28 => Instr::Andi(upper_nibble(first), immediate(first)),
        29 => Instr::Andi(upper_nibble(first), immediate(first)),
        30 => Instr::Andi(upper_nibble(first), immediate(first)),
        31 => Instr::Andi(upper_nibble(first), immediate(first)),
        32 => displaced(first),
        33 => displaced(first),
        34 => displaced(first),
        35 => displaced(first),
        36 => loads_and_stores(first, second),
        37 => registers_and_words(first, second),
        38 => io_bits(first),
        39 => Instr::Mul(destination(first), source(first)),
        40 => displaced(first),
        41 => displaced(first),
        42 => displaced(first),
        43 => displaced(first),
        44 => Instr::In(destination(first), io_address(first)),
        45 => Instr::In(destination(first), io_address(first)),
        46 => Instr::Out(destination(first), io_address(first)),
        47 => Instr::Out(destination(first), io_address(first)),
        48 => Instr::Rjmp(long_distance(first)),
        49 => Instr::Rjmp(long_distance(first)),
        50 => Instr::Rjmp(long_distance(first)),
        51 => Instr::Rjmp(long_distance(first)),
        52 => Instr::Rcall(long_distance(first)),
        53 => Instr::Rcall(long_distance(first)),
        54 => Instr::Rcall(long_distance(first)),
        55 => Instr::Rcall(long_distance(first)),
        56 => Instr::Ldi(upper_nibble(first), immediate(first)),
        57 => Instr::Ldi(upper_nibble(first), immediate(first)),
        58 => Instr::Ldi(upper_nibble(first), immediate(first)),
        59 => Instr::Ldi(upper_nibble(first), immediate(first)),
        60 => Instr::Brbs(lower_octal(first), short_distance(first)),
        61 => Instr::Brbc(lower_octal(first), short_distance(first)),
        62 => transfers(first),
        _ => bit_skips(first),
    }
}

/// 0000 00. MOVW is met far more often than the others, so it is told first.
#[inline(always)]
fn moves_and_products(first: u16) -> Instr
    ensures { result ≡ choice.moves_and_products first }
{
    if first / 256 == 1 {
        return Instr::Movw(upper_nibble(first), lower_nibble(first));
    }
    match first / 256 % 4 {
        0 => if first % 256 == 0 {
            Instr::Nop
        } else {
            Instr::Undefined(first)
        },
        2 => Instr::Muls(upper_nibble(first), lower_nibble(first)),
        _ => products(first),
    }
}

/// 0000 0011
#[inline(always)]
fn products(first: u16) -> Instr
    ensures { result ≡ choice.products first }
{
    let d = upper_octal(first);
    let r = lower_octal(first);
    match first / 128 % 2 * 2 + first / 8 % 2 {
        0 => Instr::Mulsu(d, r),
        1 => Instr::Fmul(d, r),
        2 => Instr::Fmuls(d, r),
        _ => Instr::Fmulsu(d, r),
    }
}

/// 10.0
#[inline(always)]
fn displaced(first: u16) -> Instr
    ensures { result ≡ choice.displaced first }
{
    let d = destination(first);
    let q = displacement(first);
    match first / 512 % 2 * 2 + first / 8 % 2 {
        0 => Instr::LddZ(d, q),
        1 => Instr::LddY(d, q),
        2 => Instr::StdZ(d, q),
        _ => Instr::StdY(d, q),
    }
}

/// 1001 00
#[inline(always)]
fn loads_and_stores(first: u16, second: u16) -> Instr
    ensures { result ≡ choice.loads_and_stores first second }
{
    if first / 512 % 2 == 0 {
        loads(first, second)
    } else {
        stores(first, second)
    }
}

/// 1001 01
#[inline(always)]
fn registers_and_words(first: u16, second: u16) -> Instr
    ensures { result ≡ choice.registers_and_words first second }
{
    if first / 512 % 2 == 0 {
        one_register(first, second)
    } else {
        word_sums(first)
    }
}

/// 1001 000
#[inline(always)]
fn loads(first: u16, second: u16) -> Instr
    ensures { result ≡ choice.loads first second }
{
    let d = destination(first);
    match first % 16 {
        0 => Instr::Lds(d, second),
        1 => Instr::LdZInc(d),
        2 => Instr::LdZDec(d),
        4 => Instr::LpmZ(d),
        5 => Instr::LpmZInc(d),
        9 => Instr::LdYInc(d),
        10 => Instr::LdYDec(d),
        12 => Instr::LdX(d),
        13 => Instr::LdXInc(d),
        14 => Instr::LdXDec(d),
        15 => Instr::Pop(d),
        3 => Instr::Undefined(first),
        6 => Instr::Undefined(first),
        7 => Instr::Undefined(first),
        8 => Instr::Undefined(first),
        11 => Instr::Undefined(first),
        _ => Instr::Undefined(first),
    }
}

/// 1001 001
#[inline(always)]
fn stores(first: u16, second: u16) -> Instr
    ensures { result ≡ choice.stores first second }
{
    let r = destination(first);
    match first % 16 {
        0 => Instr::Sts(r, second),
        1 => Instr::StZInc(r),
        2 => Instr::StZDec(r),
        9 => Instr::StYInc(r),
        10 => Instr::StYDec(r),
        12 => Instr::StX(r),
        13 => Instr::StXInc(r),
        14 => Instr::StXDec(r),
        15 => Instr::Push(r),
        3 => Instr::Undefined(first),
        4 => Instr::Undefined(first),
        5 => Instr::Undefined(first),
        6 => Instr::Undefined(first),
        7 => Instr::Undefined(first),
        8 => Instr::Undefined(first),
        11 => Instr::Undefined(first),
        _ => Instr::Undefined(first),
    }
}

/// 1001 010
#[inline(always)]
fn one_register(first: u16, second: u16) -> Instr
    ensures { result ≡ choice.one_register first second }
{
    let d = destination(first);
    match first % 16 {
        0 => Instr::Com(d),
        1 => Instr::Neg(d),
        2 => Instr::Swap(d),
        3 => Instr::Inc(d),
        5 => Instr::Asr(d),
        6 => Instr::Lsr(d),
        7 => Instr::Ror(d),
        8 => flags_and_controls(first),
        9 => indirect_jumps(first),
        10 => Instr::Dec(d),
        12 => Instr::Jmp(far_address(first, second)),
        13 => Instr::Jmp(far_address(first, second)),
        14 => Instr::Call(far_address(first, second)),
        15 => Instr::Call(far_address(first, second)),
        4 => Instr::Undefined(first),
        11 => Instr::Undefined(first),
        _ => Instr::Undefined(first),
    }
}

/// 1001 010. .... 1000
#[inline(always)]
fn flags_and_controls(first: u16) -> Instr
    ensures { result ≡ choice.flags_and_controls first }
{
    let s = upper_octal(first);
    match first / 128 % 4 {
        0 => Instr::Bset(s),
        1 => Instr::Bclr(s),
        _ => returns_and_controls(first),
    }
}

/// 1001 0101 .... 1000
#[inline(always)]
fn returns_and_controls(first: u16) -> Instr
    ensures { result ≡ choice.returns_and_controls first }
{
    match first / 16 % 16 {
        0 => Instr::Ret,
        1 => Instr::Reti,
        8 => Instr::Sleep,
        9 => Instr::Break,
        10 => Instr::Wdr,
        12 => Instr::LpmR0,
        14 => Instr::Spm,
        _ => Instr::Undefined(first),
    }
}

/// 1001 010. .... 1001
#[inline(always)]
fn indirect_jumps(first: u16) -> Instr
    ensures { result ≡ choice.indirect_jumps first }
{
    match first / 16 % 32 {
        0 => Instr::Ijmp,
        16 => Instr::Icall,
        _ => Instr::Undefined(first),
    }
}

/// 1001 011
#[inline(always)]
fn word_sums(first: u16) -> Instr
    ensures { result ≡ choice.word_sums first }
{
    let d = pair(first);
    let k = word_immediate(first);
    if first / 256 % 2 == 0 {
        Instr::Adiw(d, k)
    } else {
        Instr::Sbiw(d, k)
    }
}

/// 1001 10
#[inline(always)]
fn io_bits(first: u16) -> Instr
    ensures { result ≡ choice.io_bits first }
{
    let a = low_io_address(first);
    let b = lower_octal(first);
    match first / 256 % 4 {
        0 => Instr::Cbi(a, b),
        1 => Instr::Sbic(a, b),
        2 => Instr::Sbi(a, b),
        _ => Instr::Sbis(a, b),
    }
}

/// 1111 10
#[inline(always)]
fn transfers(first: u16) -> Instr
    ensures { result ≡ choice.transfers first }
{
    let d = destination(first);
    let b = lower_octal(first);
    if first / 8 % 2 == 1 {
        return Instr::Undefined(first);
    }
    if first / 512 % 2 == 0 {
        Instr::Bld(d, b)
    } else {
        Instr::Bst(d, b)
    }
}

/// 1111 11
#[inline(always)]
fn bit_skips(first: u16) -> Instr
    ensures { result ≡ choice.bit_skips first }
{
    let d = destination(first);
    let b = lower_octal(first);
    if first / 8 % 2 == 1 {
        return Instr::Undefined(first);
    }
    if first / 512 % 2 == 0 {
        Instr::Sbrc(d, b)
    } else {
        Instr::Sbrs(d, b)
    }
}
