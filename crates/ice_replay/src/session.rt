//! A replay: the line is read to its end, to an answered sign-off, or to a fault, and every run is made at its launch.
ghost use Rattle.std.specs.Prelude.{◌≡◌, ◌<◌, ◌≤◌, ℕ, List, [], true, Some, is_ok};
ghost use Rattle.debug_spec.specs.Device.{Asked};
ghost use Rattle.debug_spec.specs.Debugger.{closed, listens, stopped};
ghost use Rattle.flash_patch.specs.Asking.{seen};
ghost use Rattle.run_control.specs.Ends.{AreStops};
ghost use Rattle.run_control.specs.declared.job.Job.{Job as Run};
ghost use Rattle.ice_emul.specs.Standing.{IsSoundEmulator};
ghost use Rattle.ice_replay.specs.Keeping.{IsKept, place};
ghost use Rattle.ice_line.specs.Lines.{line_at};
ghost use Rattle.ice_replay.specs.Steps.{IsPlaced};
ghost use Rattle.ice_line.specs.Reads.{TakesNext};
ghost use Rattle.ice_replay.specs.Endings.{EndsRun, EndsWith, LineEnds, Replays, is_closed};

use crate::chunk::{Chunk, take_chunk};
use crate::settle::Came;
use crate::step::stop;
use arrayvec::ArrayVec;
use flash_patch::FlashFault;
use ice_base::{Flash, Sink, Source};
use ice_emul::{Emulator, Input, Next, Out, Totals};
use ice_line::{CHUNK, Coming, INPUT_LIMIT, next_bytes};
use run_control::Inline;

/// Why a replay ended.
#[derive(Clone, Copy, Debug, PartialEq, Eq)]
pub enum End {
    /// The line was read to its end, or a sign-off was answered, and the flash is the program again.
    Okay,
    /// So it was, but a page could not be written.
    Flash,
    /// The source failed.
    Read,
    /// A reply could not be written.
    Write,
    /// The line has more bytes than a session takes.
    TooLong,
}

/// What is left of a replay.
#[derive(Drop)]
pub struct Replayed<F: Flash> {
    /// Why it ended.
    pub end: End,
    /// The flash of its target.
    pub flash: F,
    /// Its cycles, steps, output writes and dropped bytes, each modulo 2^64.
    pub totals: Totals,
}

/// Replays a line of JTAGICE mkII frames (AVR067) on an emulator that has begun. The line is read at most 512 bytes at a time, and no memory
/// is taken. A forced stop of the k-th launch, counted from 1, is seen behind the k-th number of steps, and of a launch behind the list
/// behind the last number. Of a line of more than 67,108,864 bytes these are taken, and then the session is closed as at the line's end.
pub fn replay<F: Flash, S: Source, K: Sink>(
    emulator: Emulator<F>,
    stops: ArrayVec<u32, 64>,
    source: &mut S,
    sink: &mut K,
) -> Replayed<F>
    requires sound { IsSoundEmulator F.part emulator }
    requires begun { emulator.tool.mode ≡ stopped }
    requires fresh { emulator.receiver ≡ record { held = []; dropped = 0 } }
    requires stops { AreStops stops.items }
    ensures replays { (own : Run F) → emulator.target ≡ Some own →
        Replays (seen F.words F.journal F.faults F.writes) F.part emulator own stops.items result
        (line_at (S.left source.old) (S.faults source.old) (K.written sink.old) (K.faults sink.old))
        (line_at (S.left source.new) (S.faults source.new) (K.written sink.new) (K.faults sink.new)) }
    ensures source_counts { S.faults source.old ≤ S.faults source.new }
    ensures sink_counts { K.faults sink.old ≤ K.faults sink.new }
{
    let mut emulator = emulator;
    let mut runner = Inline::of(stops);
    let end = run(&mut emulator, &mut runner, source, sink);
    let (flash, totals) = emulator.finish();
    Replayed { end, flash, totals }
}

/// Reads the line, and takes it chunk by chunk.
fn run<F: Flash, S: Source, K: Sink>(
    emulator: &mut Emulator<F>,
    runner: &mut Inline<F>,
    source: &mut S,
    sink: &mut K,
) -> End
    requires placed { IsPlaced (seen F.words F.journal F.faults F.writes) F.part emulator.old runner.old }
    requires listens { listens emulator.old.tool.mode ≡ true }
    requires fresh { (emulator.old.receiver.held ≡ []) × (runner.old.launches ≡ 0) }
    ensures placed { IsPlaced (seen F.words F.journal F.faults F.writes) F.part emulator.new runner.new }
    ensures closed { is_closed emulator.new.tool.mode ≡ true }
    ensures ends { (job : Run F) (pend : List Asked) →
        IsKept (seen F.words F.journal F.faults F.writes) F.part (place emulator.old runner.old job pend) →
        EndsRun (seen F.words F.journal F.faults F.writes) F.part result (place emulator.old runner.old job pend)
        (line_at (S.left source.old) (S.faults source.old) (K.written sink.old) (K.faults sink.old))
        (line_at (S.left source.new) (S.faults source.new) (K.written sink.new) (K.faults sink.new)) emulator.new runner.new }
    ensures source_counts { S.faults source.old ≤ S.faults source.new }
    ensures sink_counts { K.faults sink.old ≤ K.faults sink.new }
{
    let mut buffer = [0u8; CHUNK];
    let mut allowed = INPUT_LIMIT;
    'chunks: while allowed > 0 {
        let count = match next_bytes(source, &mut buffer, allowed.min(CHUNK)) {
            Coming::Bytes(count) => count,
            Coming::End => return finish_line(emulator, runner, End::Okay),
            Coming::Fault => return finish_line(emulator, runner, End::Read),
        };
        allowed -= count;
        let (chunk, _) = buffer.split_at(count);
        match take_chunk(emulator, runner, chunk, sink) {
            Chunk::Taken => {}
            Chunk::Closed(Ok(())) => return End::Okay,
            Chunk::Closed(Err(_)) => return End::Flash,
            Chunk::Unsent(true) => return End::Write,
            Chunk::Unsent(false) => return finish_line(emulator, runner, End::Write),
        }
    }
    match next_bytes(source, &mut buffer, 1) {
        Coming::Bytes(_) => finish_line(emulator, runner, End::TooLong),
        Coming::End => finish_line(emulator, runner, End::Okay),
        Coming::Fault => finish_line(emulator, runner, End::Read),
    }
}

/// Ends the line of a session that is open, which ended for this unless a page can't be written.
fn finish_line<F: Flash>(emulator: &mut Emulator<F>, runner: &mut Inline<F>, end: End) -> End
    requires placed { IsPlaced (seen F.words F.journal F.faults F.writes) F.part emulator.old runner.old }
    requires listens { listens emulator.old.tool.mode ≡ true }
    ensures placed { IsPlaced (seen F.words F.journal F.faults F.writes) F.part emulator.new runner.new }
    ensures ends { EndsWith end result emulator.new.tool.mode }
    ensures line { (job : Run F) (pend : List Asked) →
        IsKept (seen F.words F.journal F.faults F.writes) F.part (place emulator.old runner.old job pend) →
        LineEnds (seen F.words F.journal F.faults F.writes) F.part (place emulator.old runner.old job pend) emulator.new runner.new }
{
    let restored = end_line(emulator, runner).is_ok();
    match end {
        End::Okay => {
            if restored {
                return End::Okay;
            }
            End::Flash
        }
        End::Flash => End::Flash,
        End::Read => End::Read,
        End::Write => End::Write,
        End::TooLong => End::TooLong,
    }
}

/// Ends the line, at once or with the run that is out, and tells whether the flash is the program again.
pub fn end_line<F: Flash>(
    emulator: &mut Emulator<F>,
    runner: &mut Inline<F>,
) -> Result<(), FlashFault>
    requires placed { IsPlaced (seen F.words F.journal F.faults F.writes) F.part emulator.old runner.old }
    requires listens { listens emulator.old.tool.mode ≡ true }
    ensures placed { IsPlaced (seen F.words F.journal F.faults F.writes) F.part emulator.new runner.new }
    ensures closed { emulator.new.tool.mode ≡ closed (is_ok result) }
    ensures line { (job : Run F) (pend : List Asked) →
        IsKept (seen F.words F.journal F.faults F.writes) F.part (place emulator.old runner.old job pend) →
        LineEnds (seen F.words F.journal F.faults F.writes) F.part (place emulator.old runner.old job pend) emulator.new runner.new }
{
    let mut answer = Out::new();
    let mut event = Out::new();
    match emulator.take(Input::LineEnd, &mut answer).next {
        Next::Closed(restored) => restored,
        Next::RaiseStop => match stop(emulator, runner, &mut event) {
            Came::Closed(restored) => restored,
            Came::Nothing => unreachable!(),
            Came::Frame => unreachable!(),
        },
        Next::Idle => unreachable!(),
        Next::Answered => unreachable!(),
        Next::Launch(_) => unreachable!(),
    }
}
