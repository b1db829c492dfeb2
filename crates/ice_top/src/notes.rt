//! The lines in the notes.
ghost use Rattle.std.specs.Prelude.{◌≡◌, ◌≤◌};
ghost use Rattle.ice_line.specs.Lines.{Writes};
ghost use Rattle.ice_top.specs.Notes.{totals};
ghost use Rattle.ice_top.specs.Outside.{Noted};

use crate::Status;
use arrayvec::ArrayVec;
use ice_base::Sink;
use ice_text::{push_decimal, push_text};

/// The most bytes of a line: four numbers of at most 20 digits, and 32 bytes of text.
pub(crate) const LINE: usize = 112;

/// The totals of a session: cycles, steps, output writes and dropped bytes.
pub(crate) fn totals_line(cycles: u64, steps: u64, writes: u64, dropped: u64) -> ArrayVec<u8, LINE>
    ensures { result.items ≡ totals cycles steps writes dropped }
{
    let mut line = ArrayVec::new();
    push_text(&mut line, b"cycles ");
    push_decimal(&mut line, cycles);
    push_text(&mut line, b" steps ");
    push_decimal(&mut line, steps);
    push_text(&mut line, b" writes ");
    push_decimal(&mut line, writes);
    push_text(&mut line, b" dropped ");
    push_decimal(&mut line, dropped);
    line.push(b'\n');
    line
}

/// Notes a line, and hands the status on.
pub(crate) fn refused<E: Sink>(status: Status, line: &[u8], notes: &mut E) -> Status
    ensures same { result ≡ status }
    ensures noted { Noted (E.written notes.old) (E.written notes.new) (E.faults notes.old) (E.faults notes.new) line.now }
    ensures counts { E.faults notes.old ≤ E.faults notes.new }
{
    note(line, notes);
    status
}

/// Notes a line, and says whether it was written.
pub(crate) fn note<E: Sink>(line: &[u8], notes: &mut E) -> bool
    ensures written { Writes result (E.written notes.old) (E.written notes.new) (E.faults notes.old) (E.faults notes.new) line.now }
    ensures counts { E.faults notes.old ≤ E.faults notes.new }
{
    notes.put(line).is_ok()
}
