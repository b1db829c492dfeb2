//! The checks of the bytes held, place by place: what a frame's check is follows from two of them, wherever it begins and ends.
ghost use Rattle.std.specs.Prelude.{◌≡◌, ℕ, ◌+◌, ◌≤◌, ◌<◌, List, [], ◌∷◌, ◌++◌, length, drop, take, slice_index};
ghost use Rattle.line_spec.specs.Check.{check};
ghost use Rattle.ice_recv.specs.Marks.{AreMarks};

use crate::held::byte_at;
use circular_buffer::HeapCircularBuffer;
use ice_frame::{crc_behind, crc_with};

/// Marks every place, up to the one behind the last byte.
pub(crate) fn mark_all(marks: &mut HeapCircularBuffer<u16>, held: &HeapCircularBuffer<u8>)
    requires room { length held.now.items < marks.old.capacity }
    requires marks { AreMarks marks.old.items held.now.items }
    ensures marks { AreMarks marks.new.items held.now.items }
    ensures all { length marks.new.items ≡ length held.now.items + 1 }
    ensures capacity { marks.new.capacity ≡ marks.old.capacity }
{
    if marks.is_empty() {
        push_mark(marks, 0xFFFF);
    }
    'places: while marks.len() <= held.len() {
        let place = marks.len() - 1;
        let next = crc_with(mark_at(marks, place), byte_at(held, place));
        push_mark(marks, next);
    }
}

/// The check of so many bytes from the front on, where the place behind them is marked.
pub(crate) fn check_of_front(marks: &HeapCircularBuffer<u16>, count: usize) -> u16
    requires { count < length marks.now.items }
    ensures { (held : List ℕ) → AreMarks marks.now.items held → result ≡ check (take count held) }
{
    crc_behind(mark_at(marks, 0), mark_at(marks, count), count)
}

/// Drops so many marks, as far as there are any.
pub(crate) fn drop_marks(marks: &mut HeapCircularBuffer<u16>, count: usize)
    ensures items { marks.new.items ≡ drop count marks.old.items }
    ensures capacity { marks.new.capacity ≡ marks.old.capacity }
{
    let left = marks.len().saturating_sub(count);
    marks.truncate_front(left);
}

/// Adds a mark, for which there is room.
fn push_mark(marks: &mut HeapCircularBuffer<u16>, mark: u16)
    requires { length marks.old.items < marks.old.capacity }
    ensures items { marks.new.items ≡ marks.old.items ++ mark ∷ [] }
    ensures capacity { marks.new.capacity ≡ marks.old.capacity }
{
    let _ = marks.push_back(mark);
}

/// The mark of the place, 0 where there is none.
fn mark_at(marks: &HeapCircularBuffer<u16>, place: usize) -> u16
    ensures { result ≡ slice_index marks.now.items place }
{
    match marks.get(place) {
        Some(mark) => *mark,
        None => 0,
    }
}
