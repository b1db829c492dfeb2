//! The words of an instruction, by the letters of its row and the fields that its operands set.
ghost use Rattle.std.specs.Prelude.{◌≡◌, ◌≤◌, ◌/◌, ◌^◌, ◌==◌, ◌∷◌, true, None, Some, count_by, if◌then◌else◌, unwrap_or};
ghost use Rattle.asm_spec.specs.Words.{Fields, bit_of, bits_in, with_value, word_of};
ghost use Rattle.avr_asm.specs.Meanings.{operand_told};
ghost use Rattle.avr_asm.specs.Encodings.{FitsSecond, IsMade, fields_told, is_row, set_by};

use crate::forms::Operand;

/// What an operand sets.
#[derive(Clone, Copy, Debug, PartialEq, Eq)]
pub(crate) enum Setting {
    /// Nothing.
    Nothing,
    /// The field of a letter.
    Field(u8, u32),
    /// The second word.
    Second(u16),
    /// The field of a letter, and the second word.
    Both(u8, u32, u16),
}

/// What the operands of an instruction set, the left one first.
#[derive(Clone, Copy, Debug, PartialEq, Eq)]
pub(crate) struct Settings {
    /// What the left one sets.
    pub left: Setting,
    /// What the right one sets.
    pub right: Setting,
}

/// What an operand sets to its value; the address of a jump is a field and the second word.
pub(crate) fn setting_of(operand: Operand, value: u32) -> Setting
    requires { FitsSecond (operand_told operand) value }
    ensures { (fields : Fields) → set_by result fields ≡ with_value (operand_told operand) value fields }
{
    match operand {
        Operand::Register(_, letter) => Setting::Field(letter, value),
        Operand::Byte(letter) => Setting::Field(letter, value),
        Operand::Bit(letter) => Setting::Field(letter, value),
        Operand::Exact(_) => Setting::Nothing,
        Operand::Displacement(_, letter) => Setting::Field(letter, value),
        Operand::Distance(_, letter) => Setting::Field(letter, value),
        Operand::Address => Setting::Second(value as u16),
        Operand::Target(letter) => {
            Setting::Both(letter, value / 0x10000, (value % 0x10000) as u16)
        }
    }
}

/// The value of a letter's field, 0 where no operand sets it.
fn field(settings: &Settings, letter: u8) -> u32
    ensures { result ≡ (fields_told settings.now).field letter }
{
    match field_in(settings.left, letter) {
        Some(value) => value,
        None => field_in(settings.right, letter).unwrap_or(0),
    }
}

/// The value of a letter's field, if this sets it.
fn field_in(setting: Setting, letter: u8) -> Option<u32>
    ensures { (fields : Fields) → (set_by setting fields).field letter ≡ unwrap_or result (fields.field letter) }
{
    match setting {
        Setting::Nothing => None,
        Setting::Field(other, value) => value_at(letter, other, value),
        Setting::Second(_) => None,
        Setting::Both(other, value, _) => value_at(letter, other, value),
    }
}

/// A value, if the letters are one.
fn value_at(letter: u8, other: u8, value: u32) -> Option<u32>
    ensures { result ≡ (if letter == other then Some value else None) }
{
    if letter == other {
        return Some(value);
    }
    None
}

/// The second word, 0 where no operand sets it.
pub(crate) fn second_word(settings: &Settings) -> u16
    ensures { result ≡ (fields_told settings.now).second }
{
    match second_in(settings.left) {
        Some(word) => word,
        None => second_in(settings.right).unwrap_or(0),
    }
}

/// The second word, if this sets it.
fn second_in(setting: Setting) -> Option<u16>
    ensures { (fields : Fields) → (set_by setting fields).second ≡ unwrap_or result fields.second }
{
    match setting {
        Setting::Nothing => None,
        Setting::Field(_, _) => None,
        Setting::Second(word) => Some(word),
        Setting::Both(_, _, word) => Some(word),
    }
}

/// The word that letters make, and the weight of the bit of the next letter in front of them.
#[derive(Clone, Copy, Debug, PartialEq, Eq)]
struct Made {
    /// The word.
    word: u32,
    /// The weight.
    weight: u32,
}

/// The word that the letters of a row and the fields make.
pub(crate) fn word_of(letters: &[u8], settings: &Settings) -> u16
    requires { is_row letters.now ≡ true }
    ensures { result ≡ word_of letters.now (fields_told settings.now).field }
{
    let mut made = Made { word: 0, weight: 1 };
    let mut start = letters.len();
    'letters: while start > 0 {
        start -= 1;
        made = with_letter(letters[start], &letters[start + 1..], settings, made);
    }
    made.word as u16
}

/// With a letter in front of those behind it.
fn with_letter(letter: u8, behind: &[u8], settings: &Settings, made: Made) -> Made
    requires made { IsMade (fields_told settings.now).field behind.now made }
    requires bits { bits_in (letter ∷ behind.now) ≤ 16 }
    requires shown { 0x20 ≤ letter }
    ensures { IsMade (fields_told settings.now).field (letter ∷ behind.now) result }
{
    if letter == b' ' {
        return made;
    }
    Made {
        word: bit_of(letter, behind, settings) * made.weight + made.word,
        weight: 2 * made.weight,
    }
}

/// The bit under a letter: as it is fixed, or of its field, whose bits stand in order.
fn bit_of(letter: u8, behind: &[u8], settings: &Settings) -> u32
    ensures bit { result ≡ bit_of letter behind.now (fields_told settings.now).field }
    ensures small { result ≤ 1 }
{
    match letter {
        b'0' => 0,
        b'1' => 1,
        _ => halved(field(settings, letter), letter, behind) % 2,
    }
}

/// A value halved for each time that a letter stands among those behind it.
fn halved(value: u32, letter: u8, behind: &[u8]) -> u32
    ensures { result ≡ value / 2 ^ count_by (λ other. other == letter) behind.now }
{
    let mut half = value;
    'letters: for other in behind {
        half = halved_if(*other == letter, half);
    }
    half
}

/// A value halved where it is to be.
fn halved_if(now: bool, value: u32) -> u32
    ensures { result ≡ (if now then value / 2 else value) }
{
    if now {
        return value / 2;
    }
    value
}
