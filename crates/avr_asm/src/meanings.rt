//! What bytes mean as an operand.
ghost use Rattle.std.specs.Prelude.{◌≡◌, ◌≤◌, ◌<◌, ◌^◌, ◌*◌, ◌∷◌, if◌then◌else◌, None, Some, codes, drop, eqb, length, option_map, ℕ, MatchOption};
ghost use Rattle.std.specs.List.{starts_with};
ghost use Rattle.std.specs.Str.{bytes_eq};
ghost use Rattle.part_spec.specs.Chip.{chip_of};
ghost use Rattle.asm_spec.specs.Reading.{ahead, behind, limit_of, limited, meaning, naming, number_or_name, prefixed, value};
ghost use Rattle.asm_spec.specs.Tokens.{number, register_number};
ghost use Rattle.avr_asm.specs.Meanings.{ahead_of_blanks, meaning_told, named_told, operand_told};

use crate::forms::{Named, Operand};
use crate::numbers::{number_in, register_number};
use crate::tokens::{ahead_of_blanks, is_name};
use part_spec::Part;

/// Addresses of data.
const ADDRESSES: u32 = 0x10000;

/// What an operand means.
#[derive(Clone, Copy, Debug, PartialEq, Eq)]
pub(crate) enum Meaning<'a> {
    /// A value of its field.
    Value(u32),
    /// A number outside its field.
    Outside,
    /// The place of a label.
    Label(&'a [u8]),
}

/// What bytes mean as an operand, if they are one of its kind.
pub(crate) fn meaning_of<'a>(
    part: Part,
    letters: &[u8],
    operand: Operand,
    bytes: &'a [u8],
) -> Option<Meaning<'a>>
    requires { length letters.now ≤ 19 }
    ensures { option_map meaning_told result ≡ meaning (chip_of part) letters.now (operand_told operand) bytes.now }
{
    match operand {
        Operand::Register(named, letter) => register(named, limit_of(letters, letter), bytes),
        Operand::Byte(letter) => below(limit_of(letters, letter), bytes),
        Operand::Bit(letter) => below(limit_of(letters, letter), bytes),
        Operand::Exact(shown) => exactly(shown, bytes),
        Operand::Displacement(pointer, letter) => {
            displaced(pointer, limit_of(letters, letter), bytes)
        }
        Operand::Distance(values, _) => distance(values, bytes),
        Operand::Address => address(ADDRESSES, bytes),
        Operand::Target(_) => address(u32::from(part.words()), bytes),
    }
}

/// How many values a field has, by the letters of a row.
fn limit_of(letters: &[u8], letter: u8) -> u32
    requires { length letters.now ≤ 19 }
    ensures value { result ≡ limit_of letters.now letter }
    ensures few { result ≤ 2 ^ 19 }
{
    let mut limit = 1;
    'letters: for other in letters {
        limit = doubled_if(*other == letter, limit);
    }
    limit
}

/// A value doubled where it is to be.
fn doubled_if(now: bool, value: u32) -> u32
    requires { value < 2 ^ 31 }
    ensures { result ≡ (if now then 2 * value else value) }
{
    if now {
        return 2 * value;
    }
    value
}

/// A register, by the number that a value of its field names.
fn register(named: Named, limit: u32, bytes: &[u8]) -> Option<Meaning<'_>>
    requires { limit ≤ 2 ^ 19 }
    ensures { option_map meaning_told result ≡ option_map (naming (named_told named) limit) (register_number bytes.now) }
{
    match register_number(bytes) {
        Some(number) => Some(naming(named, limit, number)),
        None => None,
    }
}

/// The value of a field that names a register.
fn naming(named: Named, limit: u32, number: u32) -> Meaning<'static>
    ensures { meaning_told result ≡ naming (named_told named) limit number }
{
    match value_naming(named, number) {
        Some(value) => limited(limit, value),
        None => Meaning::Outside,
    }
}

/// The value, of a field however wide, that names a register.
fn value_naming(named: Named, number: u32) -> Option<u32>
    ensures { MatchOption result ((n : ℕ) → named_told named n ≡ number → ⊥) (λ n. named_told named n ≡ number) }
{
    match named {
        Named::Any => Some(number),
        Named::Even => {
            if number % 2 == 1 {
                return None;
            }
            Some(number / 2)
        }
        Named::Upper => {
            if number < 16 {
                return None;
            }
            Some(number - 16)
        }
        Named::Double => {
            if number < 24 {
                return None;
            }
            if number % 2 == 1 {
                return None;
            }
            Some((number - 24) / 2)
        }
    }
}

/// A number, where it is below a limit.
fn limited(limit: u32, number: u32) -> Meaning<'static>
    ensures { meaning_told result ≡ limited limit number }
{
    if number < limit {
        return Meaning::Value(number);
    }
    Meaning::Outside
}

/// A number, with its meaning below a limit.
fn below(limit: u32, bytes: &[u8]) -> Option<Meaning<'_>>
    ensures { option_map meaning_told result ≡ option_map (limited limit) (number bytes.now) }
{
    match number_in(bytes) {
        Some(number) => Some(limited(limit, number)),
        None => None,
    }
}

/// A fixed text.
fn exactly(shown: [u8; 2], bytes: &[u8]) -> Option<Meaning<'static>>
    ensures { option_map meaning_told result ≡ (if bytes_eq (ahead_of_blanks shown) bytes.now then Some (value 0) else None) }
{
    if ahead_of_blanks(&shown) == bytes {
        return Some(Meaning::Value(0));
    }
    None
}

/// A displacement behind a pointer register and a `+`.
fn displaced(pointer: u8, limit: u32, bytes: &[u8]) -> Option<Meaning<'_>>
    ensures { option_map meaning_told result
        ≡ prefixed (pointer ∷ codes "+") (λ more. option_map (limited limit) (number more)) bytes.now }
{
    if bytes.starts_with(&[pointer, b'+']) {
        return below(limit, &bytes[2..]);
    }
    None
}

/// A distance of so many values, or the name of a label.
fn distance(values: u32, bytes: &[u8]) -> Option<Meaning<'_>>
    ensures { option_map meaning_told result ≡ (if starts_with eqb bytes.now (codes ".+") then option_map (ahead values) (number (drop 2 bytes.now))
        else if starts_with eqb bytes.now (codes ".-") then option_map (behind values) (number (drop 2 bytes.now))
        else number_or_name None bytes.now) }
{
    if bytes.starts_with(b".+") {
        return below(values / 2, &bytes[2..]);
    }
    if bytes.starts_with(b".-") {
        return far_behind(values, &bytes[2..]);
    }
    named(bytes)
}

/// A number, as so many words behind.
fn far_behind(values: u32, bytes: &[u8]) -> Option<Meaning<'_>>
    ensures { option_map meaning_told result ≡ option_map (behind values) (number bytes.now) }
{
    match number_in(bytes) {
        Some(number) => Some(behind(values, number)),
        None => None,
    }
}

/// So many words behind, as a two's complement distance of so many values.
fn behind(values: u32, number: u32) -> Meaning<'static>
    ensures { meaning_told result ≡ behind values number }
{
    if number > values / 2 {
        return Meaning::Outside;
    }
    if number == 0 {
        return Meaning::Value(0);
    }
    Meaning::Value(values - number)
}

/// A number with its meaning below a limit, or a name.
fn address(limit: u32, bytes: &[u8]) -> Option<Meaning<'_>>
    ensures { option_map meaning_told result ≡ number_or_name (option_map (limited limit) (number bytes.now)) bytes.now }
{
    match below(limit, bytes) {
        Some(meaning) => Some(meaning),
        None => named(bytes),
    }
}

/// A name.
fn named(bytes: &[u8]) -> Option<Meaning<'_>>
    ensures { option_map meaning_told result ≡ number_or_name None bytes.now }
{
    if is_name(bytes) {
        return Some(Meaning::Label(bytes));
    }
    None
}
