//! What the lines of a text lay out: the places of the labels, and what is put at which place.
ghost use Rattle.std.specs.Prelude.{◌≡◌, ◌≤◌, ◌<◌, ◌&&◌, ◌||◌, ℕ, true, false, length, slice_index_or, nat_le, nat_lt, count_by, if◌then◌else◌, IfOk, MatchBool};
ghost use Rattle.part_spec.specs.Chip.{Chip, chip_of};
ghost use Rattle.asm_spec.specs.Reading.{put};
ghost use Rattle.asm_spec.specs.Words.{Laid, is_second, size_of, start, with_label, with_order};
ghost use Rattle.avr_asm.specs.Orders.{item_told, meant_told, meants_told, order_told};
ghost use Rattle.avr_asm.specs.Readings.{label_told};
ghost use Rattle.avr_asm.specs.Encodings.{FitsItem, FitsOrder};
ghost use Rattle.avr_asm.specs.Sheets.{Follows, Keeps, said_by};

use crate::forms::Operand;
use crate::orders::{Item, Meant, Meants, Order};
use crate::readings::read_line;
use asm_spec::AsmKind;
use part_spec::Part;
use std::alloc::{AllocError, Global};
use std::collections::BTreeMap;

/// The places of labels.
pub(crate) type Labels<'a> = BTreeMap<&'a [u8], u16>;

/// What a line puts at a place.
#[derive(Clone, Copy, Debug, PartialEq, Eq)]
pub(crate) struct Entry<'a> {
    /// The line's number.
    pub line: u32,
    /// The place.
    pub place: u16,
    /// What is put there.
    pub item: Item<'a>,
}

/// Why a line is not laid out.
#[derive(Clone, Copy, Debug, PartialEq, Eq)]
pub(crate) enum Stop {
    /// It is wrong.
    Wrong(AsmKind),
    /// Memory ran out.
    Memory,
}

/// What lines have laid out.
#[derive(Debug, Drop)]
pub(crate) struct Sheet<'a> {
    /// The place reached.
    pub place: u16,
    /// The labels and their places.
    pub labels: Labels<'a>,
    /// What was put, in the order of the lines.
    pub entries: Vec<Entry<'a>>,
    /// Whether each place of the flash was given.
    pub taken: Vec<bool>,
}

/// The sheet before the first line.
///
/// # Errors
///
/// Memory ran out.
pub(crate) fn blank_sheet<'a>(alloc: Global, part: Part) -> Result<Sheet<'a>, AllocError>
    ensures { IfOk result (λ sheet. Keeps (chip_of part) sheet start) }
{
    let taken = vec![in alloc; false; usize::from(part.words())]?;
    Ok(Sheet {
        place: 0,
        labels: BTreeMap::new(alloc),
        entries: Vec::new(alloc),
        taken,
    })
}

/// Lays out what a line says.
///
/// # Errors
///
/// The line is wrong, or memory ran out; the sheet is of no use then.
pub(crate) fn lay_line<'a>(
    part: Part,
    number: u32,
    line: &'a [u8],
    sheet: &mut Sheet<'a>,
) -> Result<(), Stop>
    requires { (laid : Laid) × Keeps (chip_of part) sheet.old laid }
    ensures { (laid : Laid) → Keeps (chip_of part) sheet.old laid →
        Follows (chip_of part) result sheet.new (said_by (chip_of part) number line.now laid) }
{
    match read_line(part, line) {
        Ok(said) => {
            match lay_label(said.label, sheet) {
                Ok(()) => lay_order(part, number, said.order, sheet),
                Err(stop) => Err(stop),
            }
        }
        Err(kind) => Err(Stop::Wrong(kind)),
    }
}

/// Lays out a label, which no earlier line has.
fn lay_label<'a>(label: Option<&'a [u8]>, sheet: &mut Sheet<'a>) -> Result<(), Stop>
    ensures { (part : Chip) (laid : Laid) → Keeps part sheet.old laid →
        Follows part result sheet.new (with_label (label_told label.entry) laid) }
{
    let Some(name) = label else {
        return Ok(());
    };
    if sheet.labels.contains_key(name) {
        return Err(Stop::Wrong(AsmKind::Twice));
    }
    match sheet.labels.insert(name, sheet.place) {
        Ok(_) => Ok(()),
        Err(_) => Err(Stop::Memory),
    }
}

/// Lays out what a statement does.
fn lay_order<'a>(
    part: Part,
    number: u32,
    order: Order<'a>,
    sheet: &mut Sheet<'a>,
) -> Result<(), Stop>
    requires { (laid : Laid) × Keeps (chip_of part) sheet.old laid }
    ensures { (laid : Laid) → Keeps (chip_of part) sheet.old laid → FitsOrder (order_told order.entry) →
        Follows (chip_of part) result sheet.new (with_order (chip_of part) number (order_told order.entry) laid) }
{
    match order {
        Order::Nothing => Ok(()),
        Order::Origin(place) => {
            if place < u32::from(part.words()) {
                sheet.place = place as u16;
                return Ok(());
            }
            Err(Stop::Wrong(AsmKind::Place))
        }
        Order::Put(item) => put_item(part, number, item, sheet),
    }
}

/// Puts an item at the place, if all its words are inside of the flash and none was given before.
fn put_item<'a>(part: Part, number: u32, item: Item<'a>, sheet: &mut Sheet<'a>) -> Result<(), Stop>
    requires { (laid : Laid) × Keeps (chip_of part) sheet.old laid }
    ensures { (laid : Laid) → Keeps (chip_of part) sheet.old laid → FitsItem (item_told item.entry) →
        Follows (chip_of part) result sheet.new (with_order (chip_of part) number (put (item_told item.entry)) laid) }
{
    let size = size_of(&item);
    let behind = sheet.place + size;
    if part.words() < behind {
        return Err(Stop::Wrong(AsmKind::Place));
    }
    if is_taken(&sheet.taken, sheet.place, behind) {
        return Err(Stop::Wrong(AsmKind::Overlap));
    }
    let entry = Entry {
        line: number,
        place: sheet.place,
        item,
    };
    match sheet.entries.push(entry) {
        Ok(()) => {}
        Err(_) => return Err(Stop::Memory),
    }
    take(&mut sheet.taken, sheet.place, behind);
    sheet.place = behind;
    Ok(())
}

/// How many words an item has.
pub(crate) fn size_of(item: &Item<'_>) -> u16
    ensures size { result ≡ size_of (item_told item.now) }
    ensures some { 1 ≤ result }
    ensures few { result ≤ 3 }
{
    match item {
        Item::Plain(_) => 1,
        Item::Coded(_, meants) => 1 + seconds_in(meants),
    }
}

/// How many operands are the second word, or a part of it.
fn seconds_in(meants: &Meants<'_>) -> u16
    ensures count { result ≡ count_by is_second (meants_told meants.now) }
    ensures few { result ≤ 2 }
{
    match meants {
        Meants::None => 0,
        Meants::One(meant) => seconds(meant),
        Meants::Two(one, other) => seconds(one) + seconds(other),
    }
}

/// 1 where an operand is the second word, or a part of it.
fn seconds(meant: &Meant<'_>) -> u16
    ensures { result ≡ (if is_second (meant_told meant.now) then 1 else 0) }
{
    match meant.operand {
        Operand::Register(_, _) => 0,
        Operand::Byte(_) => 0,
        Operand::Bit(_) => 0,
        Operand::Exact(_) => 0,
        Operand::Displacement(_, _) => 0,
        Operand::Distance(_, _) => 0,
        Operand::Address => 1,
        Operand::Target(_) => 1,
    }
}

/// Whether a place from one on, and before another, was given.
fn is_taken(taken: &[bool], place: u16, behind: u16) -> bool
    requires { behind ≤ length taken.now }
    ensures { MatchBool result ((k : ℕ) × (place ≤ k) × (k < behind) × (slice_index_or taken.now k false ≡ true))
        ((k : ℕ) → place ≤ k → k < behind → slice_index_or taken.now k false ≡ false) }
{
    'places: for k in place..behind {
        if taken[usize::from(k)] {
            return true;
        }
    }
    false
}

/// Marks the places from one on, and before another, as given.
fn take(taken: &mut [bool], place: u16, behind: u16)
    requires room { behind ≤ length taken.old }
    requires order { place ≤ behind }
    ensures { (k : ℕ) → k < length taken.old →
        slice_index_or taken.new k false ≡ (nat_le place k && nat_lt k behind) || slice_index_or taken.old k false }
{
    'places: for k in place..behind {
        taken[usize::from(k)] = true;
    }
}
