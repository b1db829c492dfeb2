//! What the words of flash are.

ghost use Rattle.std.specs.Prelude.{◌≡◌, ◌↔◌};
ghost use Rattle.avr_spec.specs.Decode as spec;
ghost use Rattle.avr_spec.specs.Fields.{FieldsFit};
ghost use Rattle.avr_decode.specs.Rows.{IsSaidByRows, HasNoRow};

use crate::choices::by_six_bits;
use avr_spec::Instr;

/// The instruction that a first word and the word behind it are. `second` matters only for LDS, STS, JMP and CALL. A word that
/// has no row in the instruction table is `Undefined`, with that word.
#[inline(always)]
pub fn decode(first: u16, second: u16) -> Instr
    ensures value { result ≡ spec.decode first second }
    ensures row { IsSaidByRows first second result }
    ensures undefined { (result ≡ Instr.Undefined first) ↔ HasNoRow first }
    ensures fields { FieldsFit result }
{
    by_six_bits(first, second)
}

/// How many words an instruction takes: 2 for LDS, STS, JMP and CALL, else 1.
#[inline(always)]
pub fn words(i: &Instr) -> u8
    ensures { result ≡ spec.words i.now }
{
    match i {
        Instr::Lds(_, _) => 2,
        Instr::Sts(_, _) => 2,
        Instr::Jmp(_) => 2,
        Instr::Call(_) => 2,
        _ => 1,
    }
}

/// Whether a first word is that of an instruction of two words.
pub fn two_word(first: u16) -> bool
    ensures { result ≡ spec.two_word first }
{
    words(&decode(first, 0)) == 2
}

/// Whether a first word is that of an instruction that may skip the next one: CPSE, SBRC, SBRS, SBIC or SBIS.
pub fn is_skip(first: u16) -> bool
    ensures { result ≡ spec.is_skip first }
{
    match decode(first, 0) {
        Instr::Cpse(_, _) => true,
        Instr::Sbic(_, _) => true,
        Instr::Sbis(_, _) => true,
        Instr::Sbrc(_, _) => true,
        Instr::Sbrs(_, _) => true,
        _ => false,
    }
}
