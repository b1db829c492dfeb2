//! The words of what was laid out, once all labels are known.
ghost use Rattle.std.specs.Prelude.{◌≡◌, ◌≤◌, ◌+◌, List, [], ◌∷◌, true, length, take, IfOk};
ghost use Rattle.part_spec.specs.Chip.{chip_of, words_of};
ghost use Rattle.asm_spec.specs.Words.{Label, at_label, distance_to, fields_of, item_words, pieces_of, size_of, value_of, word_of, words_from};
ghost use Rattle.avr_asm.specs.Meanings.{operand_told};
ghost use Rattle.avr_asm.specs.Orders.{item_told, meant_told, meants_told};
ghost use Rattle.avr_asm.specs.Sheets.{HasPlaces, entries_told};
ghost use Rattle.avr_asm.specs.Encodings.{FitEntries, FitMeanings, FitsItem, FitsMeaning, FitsSecond, fields_told, is_row};
ghost use Rattle.avr_asm.specs.Settled.{Fills, SetsAs, fields_answer, piece_answer, piece_told, with_piece};

use crate::error::AsmError;
use crate::fields::{Setting, Settings, second_word, setting_of, word_of};
use crate::forms::Operand;
use crate::meanings::Meaning;
use crate::orders::{Item, Meant, Meants};
use crate::sheet::{Entry, Labels, size_of};
use asm_spec::AsmKind;
use part_spec::Part;

/// The words of an item.
#[derive(Clone, Copy, Debug, PartialEq, Eq)]
pub(crate) enum Piece {
    /// One.
    One(u16),
    /// Two.
    Two(u16, u16),
}

/// Puts the words of what was laid out, and answers one more than the highest place with a word, or 0.
///
/// # Errors
///
/// The first line in which a label is missing or too far.
pub(crate) fn put_entries(
    part: Part,
    labels: &Labels<'_>,
    entries: &[Entry<'_>],
    words: &mut [u16],
) -> Result<u16, AsmError>
    requires fit { FitEntries (chip_of part) (entries_told entries.now) }
    requires size { length words.old ≡ words_of (chip_of part) }
    requires erased { words.old ≡ words_from [] 0 (words_of (chip_of part)) }
    ensures { (names : List Label) → HasPlaces labels.now names →
        Fills (chip_of part) result words.new (pieces_of (chip_of part) names (entries_told entries.now)) }
{
    let mut used: u16 = 0;
    'entries: for entry in entries {
        match item_words(part, labels, entry.place, &entry.item) {
            Ok(piece) => {
                used = put_piece(entry.place, piece, words).max(used);
            }
            Err(kind) => {
                return Err(AsmError::At {
                    line: entry.line,
                    kind,
                });
            }
        }
    }
    Ok(used)
}

/// Puts words at a place, and answers the place behind them.
fn put_piece(place: u16, piece: Piece, words: &mut [u16]) -> u16
    requires room { place + length (piece_told piece) ≤ length words.old }
    requires small { length words.old ≤ 16384 }
    ensures words { words.new ≡ with_piece place (piece_told piece) words.old }
    ensures behind { result ≡ place + length (piece_told piece) }
{
    match piece {
        Piece::One(word) => {
            words[usize::from(place)] = word;
            place + 1
        }
        Piece::Two(first, second) => {
            words[usize::from(place)] = first;
            words[usize::from(place) + 1] = second;
            place + 2
        }
    }
}

/// The words of an item at a place.
fn item_words(
    part: Part,
    labels: &Labels<'_>,
    place: u16,
    item: &Item<'_>,
) -> Result<Piece, AsmKind>
    requires fit { FitsItem (item_told item.now) }
    requires within { place + size_of (item_told item.now) ≤ words_of (chip_of part) }
    ensures words { (names : List Label) → HasPlaces labels.now names →
        piece_answer result ≡ item_words (chip_of part) names place (item_told item.now) }
    ensures within { IfOk result (λ piece. length (piece_told piece) ≤ size_of (item_told item.now)) }
{
    let next = place + size_of(item);
    match item {
        Item::Plain(word) => Ok(Piece::One(*word)),
        Item::Coded(letters, meants) => match fields_of(part, labels, next, meants) {
            Ok(settings) => Ok(piece_of(next - place, letters, &settings)),
            Err(kind) => Err(kind),
        },
    }
}

/// The first words of an instruction, as many as it has.
fn piece_of(size: u16, letters: &[u8], settings: &Settings) -> Piece
    requires letters { is_row letters.now ≡ true }
    requires size { 1 ≤ size }
    ensures { piece_told result
        ≡ take size (word_of letters.now (fields_told settings.now).field ∷ (fields_told settings.now).second ∷ []) }
{
    let first = word_of(letters, settings);
    if size == 1 {
        return Piece::One(first);
    }
    Piece::Two(first, second_word(settings))
}

/// What operands set, by the labels.
fn fields_of(
    part: Part,
    labels: &Labels<'_>,
    next: u16,
    meants: &Meants<'_>,
) -> Result<Settings, AsmKind>
    requires { FitMeanings (meants_told meants.now) }
    ensures { (names : List Label) → HasPlaces labels.now names →
        fields_answer result ≡ fields_of (chip_of part) names next (meants_told meants.now) }
{
    match meants {
        Meants::None => Ok(Settings {
            left: Setting::Nothing,
            right: Setting::Nothing,
        }),
        Meants::One(meant) => match setting(part, labels, next, meant) {
            Ok(left) => Ok(Settings {
                left,
                right: Setting::Nothing,
            }),
            Err(kind) => Err(kind),
        },
        Meants::Two(one, other) => match setting(part, labels, next, one) {
            Ok(left) => match setting(part, labels, next, other) {
                Ok(right) => Ok(Settings { left, right }),
                Err(kind) => Err(kind),
            },
            Err(kind) => Err(kind),
        },
    }
}

/// What an operand sets, by the labels.
fn setting(
    part: Part,
    labels: &Labels<'_>,
    next: u16,
    meant: &Meant<'_>,
) -> Result<Setting, AsmKind>
    requires { FitsMeaning (meant_told meant.now).operand (meant_told meant.now).meaning }
    ensures { (names : List Label) → HasPlaces labels.now names →
        SetsAs (meant_told meant.now).operand result (value_of (chip_of part) names next (meant_told meant.now).operand (meant_told meant.now).meaning) }
{
    match value_of(part, labels, next, meant) {
        Ok(value) => Ok(setting_of(meant.operand, value)),
        Err(kind) => Err(kind),
    }
}

/// The value of an operand, by the labels.
fn value_of(part: Part, labels: &Labels<'_>, next: u16, meant: &Meant<'_>) -> Result<u32, AsmKind>
    requires { FitsMeaning (meant_told meant.now).operand (meant_told meant.now).meaning }
    ensures value { (names : List Label) → HasPlaces labels.now names →
        result ≡ value_of (chip_of part) names next (meant_told meant.now).operand (meant_told meant.now).meaning }
    ensures fits { IfOk result (λ value. FitsSecond (meant_told meant.now).operand value) }
{
    match meant.meaning {
        Meaning::Value(value) => Ok(value),
        Meaning::Outside => Ok(0),
        Meaning::Label(name) => at_label(part, next, meant.operand, labels.get(name).copied()),
    }
}

/// The value of an operand that is the place of a label.
fn at_label(part: Part, next: u16, operand: Operand, place: Option<u16>) -> Result<u32, AsmKind>
    ensures value { result ≡ at_label (chip_of part) next (operand_told operand) place }
    ensures fits { IfOk result (λ value. FitsSecond (operand_told operand) value) }
{
    let Some(place) = place else {
        return Err(AsmKind::Name);
    };
    match operand {
        Operand::Distance(values, _) => distance_to(values, next, place),
        Operand::Target(_) => {
            if place < part.words() {
                return Ok(u32::from(place));
            }
            Err(AsmKind::Far)
        }
        Operand::Register(_, _) => Ok(u32::from(place)),
        Operand::Byte(_) => Ok(u32::from(place)),
        Operand::Bit(_) => Ok(u32::from(place)),
        Operand::Exact(_) => Ok(u32::from(place)),
        Operand::Displacement(_, _) => Ok(u32::from(place)),
        Operand::Address => Ok(u32::from(place)),
    }
}

/// The distance to a place from the word behind an instruction, as two's complement of so many values.
fn distance_to(values: u32, next: u16, place: u16) -> Result<u32, AsmKind>
    ensures { result ≡ distance_to values next place }
{
    if next <= place {
        let ahead = u32::from(place - next);
        if ahead < values / 2 {
            return Ok(ahead);
        }
        return Err(AsmKind::Far);
    }
    let behind = u32::from(next - place);
    if behind <= values / 2 {
        return Ok(values - behind);
    }
    Err(AsmKind::Far)
}
