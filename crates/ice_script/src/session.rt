//! A script over an emulator: its lines are read and run, and then the line ends.
ghost use Rattle.std.specs.Prelude.{◌≡◌, ◌≤◌, ℕ, List, Some, IfErr, IfOk, length};
ghost use Rattle.flash_patch.specs.Asking.{seen};
ghost use Rattle.ice_emul.specs.Beginning.{FailsToBegin};
ghost use Rattle.ice_line.specs.Lines.{line_at};
ghost use Rattle.ice_script.specs.Scripts.{IsFresh, Opens, Scripts};
ghost use Rattle.part_spec.specs.Chip.{chip_of, words_of};
ghost use Rattle.run_control.specs.Ends.{AreStops};
ghost use Rattle.run_control.specs.declared.job.Job.{Job as Run};

use crate::queue::Queue;
use crate::wire::{Left, Wire};
use arrayvec::ArrayVec;
use debug_shell::{ScriptEnd, run_script};
use host_session::{Host, Room};
use ice_base::{Flash, Sink, Source};
use ice_emul::{BeginError, Emulator, Totals};
use std::alloc::Global;

/// What is left of a script.
#[derive(Drop)]
pub struct Scripted<F: Flash> {
    /// Why it ended.
    pub end: ScriptEnd,
    /// Whether one of its lines closed the session, and not the line's end.
    pub signed: bool,
    /// Whether the flash is the program again.
    pub restored: bool,
    /// The flash of its target.
    pub flash: F,
    /// Its cycles, steps, output writes and dropped bytes, each modulo 2^64.
    pub totals: Totals,
}

/// A host over a wire to an emulator of this program, with the flash made the program. All memory of a session is taken first; where there
/// is none the flash is given back as it was.
pub fn open<F: Flash>(
    alloc: Global,
    program: &[u16],
    flash: F,
    stops: ArrayVec<u32, 64>,
) -> Result<Host<Wire<F>>, BeginError<F>>
    requires size { length program.now ≡ words_of (chip_of (F.part flash)) }
    requires stops { AreStops stops.items }
    ensures opens { IfOk result (λ host. Opens (seen F.words F.journal F.faults F.writes) F.part program.now stops.items flash host) }
    ensures fails { IfErr result (λ failed. FailsToBegin (seen F.words F.journal F.faults F.writes) F.part program.now flash failed) }
{
    let Ok(queue) = Queue::new(alloc) else {
        return Err(BeginError::Memory(flash));
    };
    let Ok(room) = Room::new(alloc) else {
        return Err(BeginError::Memory(flash));
    };
    match Emulator::begin(alloc, program, flash) {
        Ok(emulator) => Ok(Host::over(room, Wire::of(emulator, queue, stops))),
        Err(failed) => Err(failed),
    }
}

/// Runs the lines of the source over the host's emulator, puts the texts of their answers, and ends the line where the session is not
/// closed by then. It takes no memory.
pub fn run_session<F: Flash, S: Source, K: Sink>(
    host: Host<Wire<F>>,
    source: &mut S,
    sink: &mut K,
) -> Scripted<F>
    ensures scripts { (stops : List ℕ) (own : Run F) → IsFresh F.part stops host → host.standing.link.side.emulator.target ≡ Some own →
        Scripts (seen F.words F.journal F.faults F.writes) host.standing.link.side.emulator own stops result
        (line_at (S.left source.old) (S.faults source.old) (K.written sink.old) (K.faults sink.old))
        (line_at (S.left source.new) (S.faults source.new) (K.written sink.new) (K.faults sink.new)) }
    ensures source_counts { S.faults source.old ≤ S.faults source.new }
    ensures sink_counts { K.faults sink.old ≤ K.faults sink.new }
{
    let mut host = host;
    let end = run_script(&mut host, source, sink);
    let Left {
        signed,
        restored,
        flash,
        totals,
    } = host.finish().finish();
    Scripted {
        end,
        signed,
        restored,
        flash,
        totals,
    }
}
