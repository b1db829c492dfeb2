//! The listing of the program of an image.
ghost use Rattle.std.specs.Prelude.{◌≡◌, ◌≤◌, ℕ, List, Option, length};
ghost use Rattle.part_spec.specs.Chip.{chip_of, words_of};
ghost use Rattle.ice_line.specs.Lines.{line_at};
ghost use Rattle.ice_top.specs.Endings.{EndsOnImage};
ghost use Rattle.ice_top.specs.Outside.{ends_at, outside};
ghost use Rattle.ice_top.specs.Programs.{ProgramListed, status_by};
ghost use Rattle.ice_top.specs.Unopened.{IsUnopened};

use crate::Status;
use crate::opening::{Opening, load, refuse};
use avr_asm::list_program;
use ice_base::{Loader, Sink};
use part_spec::Part;

/// Loads an image, and lists its program.
pub(crate) fn list_image<L: Loader, K: Sink, E: Sink>(
    opening: Opening<'_>,
    loader: &mut L,
    sink: &mut K,
    notes: &mut E,
) -> Status
    ensures ends { (left : Option (List ℕ)) (source_faults : ℕ) → EndsOnImage result opening.entry.part opening.entry.image.now
        (outside (L.contents loader.old) (L.faults loader.old)
        (ends_at (line_at left source_faults (K.written sink.old) (K.faults sink.old)) (E.written notes.old) (E.faults notes.old)))
        (outside (L.contents loader.new) (L.faults loader.new)
        (ends_at (line_at left source_faults (K.written sink.new) (K.faults sink.new)) (E.written notes.new) (E.faults notes.new)))
        (Unit {0})
        (λ status program. ProgramListed status (chip_of opening.entry.part) program
        (ends_at (line_at left source_faults (K.written sink.old) (K.faults sink.old)) (E.written notes.old) (E.faults notes.old))
        (ends_at (line_at left source_faults (K.written sink.new) (K.faults sink.new)) (E.written notes.new) (E.faults notes.new))) }
    ensures untouched { IsUnopened result → sink.new ≡ sink.old }
    ensures contents { L.contents loader.new ≡ L.contents loader.old }
    ensures loader_counts { L.faults loader.old ≤ L.faults loader.new }
    ensures sink_counts { K.faults sink.old ≤ K.faults sink.new }
    ensures notes_counts { E.faults notes.old ≤ E.faults notes.new }
{
    let Opening { alloc, part, image } = opening;
    match load(alloc, part, image, loader) {
        Ok(program) => status_of(list_program(part, program.as_slice(), sink)),
        Err(why) => refuse(why, notes),
    }
}

/// The status of a listing that was written or not.
fn status_of(written: bool) -> Status
    ensures { result ≡ status_by written }
{
    if written {
        return Status::Okay;
    }
    Status::Write
}
