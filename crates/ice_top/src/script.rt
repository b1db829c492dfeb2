//! A script of the shell on the program of an image.
ghost use Rattle.std.specs.Prelude.{◌≡◌, ◌≤◌, ℕ, List, [], length};
ghost use Rattle.part_spec.specs.Chip.{chip_of, words_of};
ghost use Rattle.flash_patch.specs.Asking.{seen};
ghost use Rattle.run_control.specs.Ends.{AreStops};
ghost use Rattle.ice_script.specs.Scripts.{IsFresh, Opens};
ghost use Rattle.ice_line.specs.Lines.{line_at};
ghost use Rattle.ice_top.specs.Endings.{EndsAs};
ghost use Rattle.ice_top.specs.Outside.{ends_at, outside};
ghost use Rattle.ice_top.specs.Scripts.{Scripted as EndsScripted, script_status, status_behind as behind};
ghost use Rattle.ice_top.specs.Unopened.{IsUnopened};
ghost use Rattle.ice_top.specs.Words.{script};

use crate::notes::{note, totals_line};
use crate::opening::{Opening, Ready, give_back, load, refuse};
use crate::stops::STOPS;
use crate::{Ended, Status};
use arrayvec::ArrayVec;
use debug_shell::ScriptEnd;
use host_session::Host;
use ice_base::{Flash, Loader, Sink, Source};
use ice_script::{Scripted, Wire, open, run_session};
use std::alloc::Global;

/// Loads an image, and runs the script of the source on its program.
pub(crate) fn script_image<L: Loader, S: Source, K: Sink, E: Sink, F: Flash>(
    opening: Opening<'_>,
    stops: ArrayVec<u32, STOPS>,
    loader: &mut L,
    source: &mut S,
    sink: &mut K,
    notes: &mut E,
    flash: F,
) -> Ended<F>
    requires part { opening.part ≡ F.part flash }
    requires stops { AreStops stops.items }
    ensures ends { EndsAs (seen F.words F.journal F.faults F.writes) result.status (script opening.entry.image.now stops.items) opening.entry.part
        (outside (L.contents loader.old) (L.faults loader.old)
        (ends_at (line_at (S.left source.old) (S.faults source.old) (K.written sink.old) (K.faults sink.old))
        (E.written notes.old) (E.faults notes.old)))
        (outside (L.contents loader.new) (L.faults loader.new)
        (ends_at (line_at (S.left source.new) (S.faults source.new) (K.written sink.new) (K.faults sink.new))
        (E.written notes.new) (E.faults notes.new)))
        flash result.flash }
    ensures untouched { IsUnopened result.status → (source.new ≡ source.old) × (sink.new ≡ sink.old) }
    ensures contents { L.contents loader.new ≡ L.contents loader.old }
    ensures loader_counts { L.faults loader.old ≤ L.faults loader.new }
    ensures source_counts { S.faults source.old ≤ S.faults source.new }
    ensures sink_counts { K.faults sink.old ≤ K.faults sink.new }
    ensures notes_counts { E.faults notes.old ≤ E.faults notes.new }
{
    let Opening { alloc, part, image } = opening;
    match load(alloc, part, image, loader) {
        Ok(program) => {
            let ready = Ready {
                part,
                program,
                stops,
            };
            begin(alloc, ready, source, sink, notes, flash)
        }
        Err(why) => Ended {
            status: refuse(why, notes),
            flash,
        },
    }
}

/// Opens the host of a script, and runs it.
fn begin<S: Source, K: Sink, E: Sink, F: Flash>(
    alloc: Global,
    ready: Ready,
    source: &mut S,
    sink: &mut K,
    notes: &mut E,
    flash: F,
) -> Ended<F>
    requires part { ready.part ≡ F.part flash }
    requires size { length ready.program.items ≡ words_of (chip_of ready.part) }
    requires stops { AreStops ready.stops.items }
    ensures ran { EndsScripted (seen F.words F.journal F.faults F.writes) result.status (chip_of ready.part) ready.program.items ready.stops.items
        (ends_at (line_at (S.left source.old) (S.faults source.old) (K.written sink.old) (K.faults sink.old))
        (E.written notes.old) (E.faults notes.old))
        (ends_at (line_at (S.left source.new) (S.faults source.new) (K.written sink.new) (K.faults sink.new))
        (E.written notes.new) (E.faults notes.new))
        flash result.flash }
    ensures untouched { IsUnopened result.status → (source.new ≡ source.old) × (sink.new ≡ sink.old) }
    ensures source_counts { S.faults source.old ≤ S.faults source.new }
    ensures sink_counts { K.faults sink.old ≤ K.faults sink.new }
    ensures notes_counts { E.faults notes.old ≤ E.faults notes.new }
{
    let Ready {
        part: _,
        program,
        stops,
    } = ready;
    // A flash that tells one of its words has all of them.
    flash.word(0);
    match open(alloc, program.as_slice(), flash, stops) {
        Ok(host) => run(host, source, sink, notes),
        Err(failed) => give_back(failed, notes),
    }
}

/// Runs a script whose host has opened, and notes its totals.
fn run<S: Source, K: Sink, E: Sink, F: Flash>(
    host: Host<Wire<F>>,
    source: &mut S,
    sink: &mut K,
    notes: &mut E,
) -> Ended<F>
    ensures ran { (program stops : List ℕ) (from : F) → Opens (seen F.words F.journal F.faults F.writes) F.part program stops from host →
        length program ≡ words_of (chip_of (F.part from)) → length (F.words from) ≡ words_of (chip_of (F.part from)) →
        EndsScripted (seen F.words F.journal F.faults F.writes) result.status (chip_of (F.part from)) program stops
        (ends_at (line_at (S.left source.old) (S.faults source.old) (K.written sink.old) (K.faults sink.old))
        (E.written notes.old) (E.faults notes.old))
        (ends_at (line_at (S.left source.new) (S.faults source.new) (K.written sink.new) (K.faults sink.new))
        (E.written notes.new) (E.faults notes.new))
        from result.flash }
    ensures opened { IsUnopened result.status → ⊥ }
    ensures source_counts { S.faults source.old ≤ S.faults source.new }
    ensures sink_counts { K.faults sink.old ≤ K.faults sink.new }
    ensures notes_counts { E.faults notes.old ≤ E.faults notes.new }
{
    let Scripted {
        end,
        signed,
        restored,
        flash,
        totals,
    } = run_session(host, source, sink);
    let line = totals_line(totals.cycles, totals.steps, totals.writes, totals.dropped);
    let noted = note(line.as_slice(), notes);
    Ended {
        status: status_at(end, signed, restored, noted),
        flash,
    }
}

/// The status of a script that ended for this, whose session a line closed or not, whose flash is the program again or not, and whose
/// totals were noted or not.
fn status_at(end: ScriptEnd, signed: bool, restored: bool, noted: bool) -> Status
    ensures { result ≡ script_status end signed restored noted }
{
    if !restored && (signed || matches!(end, ScriptEnd::Done)) {
        return Status::Flash;
    }
    status_behind(end, noted)
}

/// The status of a script that ended for this, and whose totals were noted or not.
pub(crate) fn status_behind(end: ScriptEnd, noted: bool) -> Status
    ensures { result ≡ behind end noted }
{
    match end {
        ScriptEnd::Done => {
            if noted {
                return Status::Okay;
            }
            Status::Write
        }
        ScriptEnd::Read => Status::Read,
        ScriptEnd::Write => Status::Write,
        ScriptEnd::Link => Status::Link,
        ScriptEnd::TooLong => Status::TooLong,
    }
}
