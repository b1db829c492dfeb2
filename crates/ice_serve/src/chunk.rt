//! A chunk of the line: frame by frame it is taken, and what each is answered is written before the next is taken.
ghost use Rattle.std.specs.Prelude.{◌≡◌, ◌<◌, ◌≤◌, ◌+◌, ◌^◌, ◌++◌, [], true, false, length};
ghost use Rattle.line_spec.specs.Frames.{IsBytes};
ghost use Rattle.debug_spec.specs.Debugger.{listens, closed};
ghost use Rattle.flash_patch.specs.Asking.{seen};
ghost use Rattle.run_control.specs.declared.job.Job.{Job as Run};
ghost use Rattle.ice_emul.specs.Taking.{takes_line};
ghost use Rattle.ice_serve.specs.Keeping.{IsKept, IsPlaced, seen_as};
ghost use Rattle.ice_serve.specs.Chunks.{ChunkEnds, IgnoresChunk, StandsChunk, WritesStep};

use crate::step::{Came, Sent, step};
use flash_patch::FlashFault;
use ice_base::{Flash, Sink};
use ice_emul::Emulator;
use run_control::Runner;

/// What came of a chunk.
#[derive(Drop)]
pub(crate) enum Chunk {
    /// All of it is taken, and the session is not closed.
    Taken,
    /// The session is closed within it: its flash is the program again, unless a page write failed.
    Closed(Result<(), FlashFault>),
    /// What a frame is answered could not be written, and the session is not closed.
    Unsent,
    /// So it was of the frame with which the session is closed; its flash is the program again.
    ClosedUnsent,
}

/// Takes a chunk, up to the frame with which the session is closed, or whose answer can't be written.
pub(crate) fn take_chunk<F: Flash, X: Runner<F>, K: Sink>(
    emulator: &mut Emulator<F>,
    runner: &mut X,
    launches: &mut u64,
    chunk: &[u8],
    sink: &mut K,
) -> Chunk
    requires placed { IsPlaced (seen F.words F.journal F.faults F.writes) F.part emulator.old
        (seen_as (X.is_out runner.old) (X.raised runner.old) (X.may_give runner.old) (X.launches runner.old) (X.collects runner.old) (X.faults runner.old)) }
    requires sound { X.sound runner.old }
    requires takes { takes_line emulator.old.tool.mode ≡ true }
    requires counted { launches.old ≡ X.launches runner.old }
    requires few { launches.old + length emulator.old.receiver.held + length chunk.now < 2 ^ 62 }
    ensures placed { IsPlaced (seen F.words F.journal F.faults F.writes) F.part emulator.new
        (seen_as (X.is_out runner.new) (X.raised runner.new) (X.may_give runner.new) (X.launches runner.new) (X.collects runner.new) (X.faults runner.new)) }
    ensures sound { X.sound runner.new }
    ensures kept { X.kept runner.new ≡ X.kept runner.old }
    ensures counted { launches.new ≡ X.launches runner.new }
    ensures few { launches.new + length emulator.new.receiver.held ≤ launches.old + length emulator.old.receiver.held + length chunk.now }
    ensures stands { StandsChunk result emulator.new.tool.mode }
    ensures part { emulator.new.tool.plan.part ≡ emulator.old.tool.plan.part }
    ensures deaf { listens emulator.old.tool.mode ≡ false → listens emulator.new.tool.mode ≡ false }
    ensures ignores { listens emulator.old.tool.mode ≡ false →
        IgnoresChunk result (K.written sink.old) (K.written sink.new) (K.faults sink.old) (K.faults sink.new) }
    ensures takes { (job : Run F) → IsKept (seen F.words F.journal F.faults F.writes) F.part emulator.old job
        (seen_as (X.is_out runner.old) (X.raised runner.old) (X.may_give runner.old) (X.launches runner.old) (X.collects runner.old) (X.faults runner.old)) →
        ChunkEnds (seen F.words F.journal F.faults F.writes) F.part result emulator.old job
        (seen_as (X.is_out runner.old) (X.raised runner.old) (X.may_give runner.old) (X.launches runner.old) (X.collects runner.old) (X.faults runner.old))
        chunk.now (K.written sink.old) (K.written sink.new) (K.faults sink.old) (K.faults sink.new) emulator.new
        (seen_as (X.is_out runner.new) (X.raised runner.new) (X.may_give runner.new) (X.launches runner.new) (X.collects runner.new) (X.faults runner.new)) }
{
    let mut used = 0;
    'frames: loop {
        let mut sent = Sent::new();
        let (_, rest) = chunk.split_at(used);
        let stepped = step(emulator, runner, launches, rest, &mut sent);
        used += stepped.used;
        match write_step(stepped.came, &sent, sink) {
            None => {}
            Some(end) => return end,
        }
    }
}

/// Writes what a step sent, and tells how the chunk ends with it, where it does. A session that is closed by its frame has tried to restore
/// the flash before: so the first to fail decides, the restore or the write.
fn write_step<K: Sink>(came: Came, sent: &Sent, sink: &mut K) -> Option<Chunk>
    ensures writes { WritesStep came result (K.written sink.old) (K.written sink.new) (K.faults sink.old) (K.faults sink.new)
        (sent.now.answer.items ++ sent.now.okay.items) }
    ensures faults { K.faults sink.old ≤ K.faults sink.new }
{
    match came {
        Came::Nothing => Some(Chunk::Taken),
        Came::Frame => {
            if sent.write(sink) {
                return None;
            }
            Some(Chunk::Unsent)
        }
        Came::Closed(Ok(())) => {
            if sent.write(sink) {
                return Some(Chunk::Closed(Ok(())));
            }
            Some(Chunk::ClosedUnsent)
        }
        Came::Closed(Err(fault)) => {
            let _all = sent.write(sink);
            Some(Chunk::Closed(Err(fault)))
        }
    }
}
