//! What a word is as an operand, or as the first word.
ghost use Rattle.std.specs.Prelude.{◌≡◌, ◌<◌, ◌≤◌, length, find, is_some, IfSome, Some};
ghost use Rattle.std.specs.List.{list_all};
ghost use Rattle.std.specs.Str.{bytes_eq};
ghost use Rattle.hex.specs.Hex.{hex_digit_value, is_hex_digit};
ghost use Rattle.shell_spec.specs.Operands.{digits_of, kind_of, name_of_space, number_of, number_on, readable, space_of, writable};
ghost use Rattle.shell_spec.specs.Table.{name_of, verb_of};

use shell_spec::{Space, Verb};

/// The memories that a line may read.
pub(crate) const READABLE: [Space; 7] = [
    Space::Sram,
    Space::Io,
    Space::Flash,
    Space::Page,
    Space::Fuse,
    Space::Lock,
    Space::Sig,
];

/// The memories that a line may write.
pub(crate) const WRITABLE: [Space; 2] = [Space::Sram, Space::Io];

/// What a line may begin with.
const VERBS: [Verb; 20] = [
    Verb::Sign,
    Verb::Sync,
    Verb::Get,
    Verb::Set,
    Verb::Read,
    Verb::Write,
    Verb::Pc,
    Verb::Break,
    Verb::Clear,
    Verb::Go,
    Verb::To,
    Verb::Step,
    Verb::Stop,
    Verb::Reset,
    Verb::Wait,
    Verb::Quit,
    Verb::Prog,
    Verb::Leave,
    Verb::Erase,
    Verb::Page,
];

/// The most digits of a number.
const NUMBER_DIGITS: usize = 8;

/// What the word begins, if it begins a line.
pub(crate) fn verb_of(word: &[u8]) -> Option<Verb>
    ensures { result ≡ verb_of word.now }
{
    VERBS.iter().copied().find(|verb| name_of(*verb) == word)
}

/// The first word of a line.
fn name_of(verb: Verb) -> &'static [u8]
    ensures { result.now ≡ name_of verb }
{
    match verb {
        Verb::Sign => b"sign",
        Verb::Sync => b"sync",
        Verb::Get => b"get",
        Verb::Set => b"set",
        Verb::Read => b"read",
        Verb::Write => b"write",
        Verb::Pc => b"pc",
        Verb::Break => b"break",
        Verb::Clear => b"clear",
        Verb::Go => b"go",
        Verb::To => b"to",
        Verb::Step => b"step",
        Verb::Stop => b"stop",
        Verb::Reset => b"reset",
        Verb::Wait => b"wait",
        Verb::Quit => b"quit",
        Verb::Prog => b"prog",
        Verb::Leave => b"leave",
        Verb::Erase => b"erase",
        Verb::Page => b"page",
    }
}

/// The memory, among these, that the word names.
pub(crate) fn space_of(spaces: &[Space], word: &[u8]) -> Option<Space>
    ensures { result ≡ space_of spaces.now word.now }
{
    spaces
        .iter()
        .copied()
        .find(|space| name_of_space(*space) == word)
}

/// The word for a memory.
fn name_of_space(space: Space) -> &'static [u8]
    ensures { result.now ≡ name_of_space space }
{
    match space {
        Space::Sram => b"sram",
        Space::Io => b"io",
        Space::Flash => b"flash",
        Space::Page => b"page",
        Space::Fuse => b"fuse",
        Space::Lock => b"lock",
        Space::Sig => b"sig",
    }
}

/// The memory's type on the line.
pub(crate) fn kind_of(space: Space) -> u8
    ensures { result ≡ kind_of space }
{
    match space {
        Space::Sram => 0x20,
        Space::Io => 0x30,
        Space::Flash => 0xA0,
        Space::Page => 0xB0,
        Space::Fuse => 0xB2,
        Space::Lock => 0xB3,
        Space::Sig => 0xB4,
    }
}

/// The number that the word is, of at most so much.
pub(crate) fn number_of(word: &[u8], most: u32) -> Option<u32>
    ensures { result ≡ number_of most word.now }
{
    if word.is_empty() || word.len() > NUMBER_DIGITS {
        return None;
    }
    match value_of(word) {
        Some(number) if number <= most => Some(number),
        _ => None,
    }
}

/// The value of hexadecimal digits, None where one of the bytes is none.
fn value_of(word: &[u8]) -> Option<u32>
    requires { length word.now ≤ 8 }
    ensures { result ≡ number_on (Some 0) word.now }
{
    let mut number: u32 = 0;
    'digits: for digit in word {
        match digit_of(*digit) {
            Some(value) => number = 16 * number + value,
            None => return None,
        }
    }
    Some(number)
}

/// The value of a hexadecimal digit, of either case.
fn digit_of(digit: u8) -> Option<u32>
    ensures value { result ≡ hex_digit_value digit }
    ensures limit { IfSome result (λ value. value < 16) }
{
    match digit {
        b'0'..=b'9' => Some(u32::from(digit - b'0')),
        b'a'..=b'f' => Some(u32::from(digit - b'a' + 10)),
        b'A'..=b'F' => Some(u32::from(digit - b'A' + 10)),
        _ => None,
    }
}

/// Whether the word is the digits of bytes, at least and at most so many.
pub(crate) fn are_digits(word: &[u8], least: usize, most: usize) -> bool
    ensures { result ≡ is_some (digits_of least most word.now) }
{
    if word.len() < least {
        return false;
    }
    if word.len() > most {
        return false;
    }
    if word.len() % 2 == 1 {
        return false;
    }
    all_digits(word)
}

/// Whether each byte is a hexadecimal digit.
fn all_digits(word: &[u8]) -> bool
    ensures { result ≡ list_all is_hex_digit word.now }
{
    word.iter().all(|digit| digit_of(*digit).is_some())
}
