//! The check of a session record of the program of an image.
ghost use Rattle.std.specs.Prelude.{◌≡◌, ◌≤◌};
ghost use Rattle.part_spec.specs.Chip.{chip_of};
ghost use Rattle.ice_line.specs.Lines.{line_at};
ghost use Rattle.ice_top.specs.Endings.{EndsOnImage};
ghost use Rattle.ice_top.specs.Outside.{ends_at, outside};
ghost use Rattle.ice_top.specs.Unopened.{IsUnopened};
ghost use Rattle.ice_top.specs.Verifications.{Verified, status_by};

use crate::Status;
use crate::notes::refused;
use crate::opening::{Opening, load, refuse};
use ice_base::{Loader, Sink, Source};
use ice_verify::Verifier;
use record_check::{CheckEnd, check_record};

/// Loads an image, and checks the record that the source gives of a session over its program.
pub(crate) fn verify_image<L: Loader, S: Source, K: Sink, E: Sink>(
    opening: Opening<'_>,
    loader: &mut L,
    source: &mut S,
    sink: &mut K,
    notes: &mut E,
) -> Status
    ensures ends { EndsOnImage result opening.entry.part opening.entry.image.now
        (outside (L.contents loader.old) (L.faults loader.old)
        (ends_at (line_at (S.left source.old) (S.faults source.old) (K.written sink.old) (K.faults sink.old))
        (E.written notes.old) (E.faults notes.old)))
        (outside (L.contents loader.new) (L.faults loader.new)
        (ends_at (line_at (S.left source.new) (S.faults source.new) (K.written sink.new) (K.faults sink.new))
        (E.written notes.new) (E.faults notes.new)))
        (Unit {0})
        (λ status program. Verified status (chip_of opening.entry.part) program
        (ends_at (line_at (S.left source.old) (S.faults source.old) (K.written sink.old) (K.faults sink.old))
        (E.written notes.old) (E.faults notes.old))
        (ends_at (line_at (S.left source.new) (S.faults source.new) (K.written sink.new) (K.faults sink.new))
        (E.written notes.new) (E.faults notes.new))) }
    ensures untouched { IsUnopened result → (source.new ≡ source.old) × (sink.new ≡ sink.old) }
    ensures contents { L.contents loader.new ≡ L.contents loader.old }
    ensures loader_counts { L.faults loader.old ≤ L.faults loader.new }
    ensures source_counts { S.faults source.old ≤ S.faults source.new }
    ensures sink_counts { K.faults sink.old ≤ K.faults sink.new }
    ensures notes_counts { E.faults notes.old ≤ E.faults notes.new }
{
    let Opening { alloc, part, image } = opening;
    let program = match load(alloc, part, image, loader) {
        Ok(program) => program,
        Err(why) => return refuse(why, notes),
    };
    match Verifier::begin(alloc, part, program.as_slice()) {
        Ok(verifier) => status_of(check_record(verifier, source, sink)),
        Err(_) => refused(Status::Memory, b"memory\n", notes),
    }
}

/// The status of a check that ended so.
fn status_of(end: CheckEnd) -> Status
    ensures { result ≡ status_by end }
{
    match end {
        CheckEnd::Okay => Status::Okay,
        CheckEnd::Refuted => Status::Refuted,
        CheckEnd::Read => Status::Read,
        CheckEnd::Write => Status::Write,
        CheckEnd::TooLong => Status::TooLong,
    }
}
