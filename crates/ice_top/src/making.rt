//! A session that is made from a seed, and its summary.
ghost use Rattle.std.specs.Prelude.{◌≡◌, ◌≤◌, ℕ, List, [], Option, length};
ghost use Rattle.part_spec.specs.Chip.{chip_of, words_of};
ghost use Rattle.debug_spec.specs.Debugger.{stopped};
ghost use Rattle.flash_patch.specs.Asking.{seen};
ghost use Rattle.shell_spec.specs.Generator.{made_program};
ghost use Rattle.ice_emul.specs.Session.{Begins};
ghost use Rattle.ice_emul.specs.Standing.{IsSoundEmulator};
ghost use Rattle.ice_line.specs.Lines.{line_at};
ghost use Rattle.ice_top.specs.Makings.{MadeBy, status_by};
ghost use Rattle.ice_top.specs.Outside.{ends_at};
ghost use Rattle.ice_top.specs.Unopened.{IsUnopened};

use crate::notes::{note, refused, totals_line};
use crate::opening::give_back;
use crate::{Ended, Status};
use ice_base::{Flash, Sink};
use ice_emul::Emulator;
use ice_line::write_some;
use made_session::{COUNT_LIMIT, Made, made_program, make_session};
use part_spec::Part;
use std::alloc::Global;

/// What a session is made from.
#[derive(Clone, Copy, Debug, PartialEq, Eq)]
pub(crate) struct Making {
    /// The part that the target is.
    pub part: Part,
    /// The seed.
    pub seed: u32,
    /// How many commands come ahead of the sign-off.
    pub count: u32,
}

/// Makes a session, and puts its summary.
pub(crate) fn make<K: Sink, E: Sink, F: Flash>(
    alloc: Global,
    making: Making,
    sink: &mut K,
    notes: &mut E,
    flash: F,
) -> Ended<F>
    requires part { making.part ≡ F.part flash }
    requires few { making.count ≤ COUNT_LIMIT }
    ensures made { (left : Option (List ℕ)) (source_faults : ℕ) →
        MadeBy (seen F.words F.journal F.faults F.writes) result.status (chip_of making.part) making.seed making.count
        (ends_at (line_at left source_faults (K.written sink.old) (K.faults sink.old)) (E.written notes.old) (E.faults notes.old))
        (ends_at (line_at left source_faults (K.written sink.new) (K.faults sink.new)) (E.written notes.new) (E.faults notes.new))
        flash result.flash }
    ensures untouched { IsUnopened result.status → sink.new ≡ sink.old }
    ensures sink_counts { K.faults sink.old ≤ K.faults sink.new }
    ensures notes_counts { E.faults notes.old ≤ E.faults notes.new }
{
    let Ok(program) = made_program(alloc, making.part) else {
        return Ended {
            status: refused(Status::Memory, b"memory\n", notes),
            flash,
        };
    };
    // A flash that tells one of its words has all of them.
    flash.word(0);
    match Emulator::begin(alloc, program.as_slice(), flash) {
        Ok(emulator) => finish(emulator, making, sink, notes),
        Err(failed) => give_back(failed, notes),
    }
}

/// Makes the session that has begun, puts its summary, and notes its totals.
fn finish<K: Sink, E: Sink, F: Flash>(
    emulator: Emulator<F>,
    making: Making,
    sink: &mut K,
    notes: &mut E,
) -> Ended<F>
    requires sound { IsSoundEmulator F.part emulator }
    requires begun { emulator.tool.mode ≡ stopped }
    requires fresh { emulator.receiver ≡ record { held = []; dropped = 0 } }
    requires few { making.count ≤ COUNT_LIMIT }
    ensures made { (from : F) (left : Option (List ℕ)) (source_faults : ℕ) →
        Begins (seen F.words F.journal F.faults F.writes) F.part (made_program (chip_of (F.part from))) from emulator →
        length (made_program (chip_of (F.part from))) ≡ words_of (chip_of (F.part from)) →
        length (F.words from) ≡ words_of (chip_of (F.part from)) →
        MadeBy (seen F.words F.journal F.faults F.writes) result.status (chip_of (F.part from)) making.seed making.count
        (ends_at (line_at left source_faults (K.written sink.old) (K.faults sink.old)) (E.written notes.old) (E.faults notes.old))
        (ends_at (line_at left source_faults (K.written sink.new) (K.faults sink.new)) (E.written notes.new) (E.faults notes.new))
        from result.flash }
    ensures opened { IsUnopened result.status → ⊥ }
    ensures sink_counts { K.faults sink.old ≤ K.faults sink.new }
    ensures notes_counts { E.faults notes.old ≤ E.faults notes.new }
{
    let Made {
        summary,
        restored,
        flash,
        totals,
    } = make_session(emulator, making.seed, making.count);
    let summed = write_some(summary.as_slice(), sink);
    let line = totals_line(totals.cycles, totals.steps, totals.writes, totals.dropped);
    let noted = note(line.as_slice(), notes);
    Ended {
        status: status_at(restored, summed, noted),
        flash,
    }
}

/// The status of a made session whose closing restore worked or not, and whose summary and totals were written or not.
fn status_at(restored: bool, summed: bool, noted: bool) -> Status
    ensures { result ≡ status_by restored summed noted }
{
    if !restored {
        return Status::Flash;
    }
    if summed && noted {
        return Status::Okay;
    }
    Status::Write
}
