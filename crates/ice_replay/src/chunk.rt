//! A chunk of the line: frame by frame it is taken, and what each is answered is written before the next is taken.
ghost use Rattle.std.specs.Prelude.{◌≡◌, ◌<◌, ◌≤◌, ◌+◌, ◌^◌, ◌++◌, ℕ, List, [], true, length};
ghost use Rattle.line_spec.specs.Frames.{IsBytes, IsPartial};
ghost use Rattle.debug_spec.specs.Device.{Asked};
ghost use Rattle.debug_spec.specs.Debugger.{listens};
ghost use Rattle.flash_patch.specs.Asking.{seen};
ghost use Rattle.run_control.specs.declared.job.Job.{Job as Run};
ghost use Rattle.ice_replay.specs.Keeping.{IsKept, place};
ghost use Rattle.ice_line.specs.Lines.{Writes};
ghost use Rattle.ice_replay.specs.Steps.{IsPlaced};
ghost use Rattle.ice_replay.specs.Chunks.{ChunkEnds, WritesStep};

use crate::settle::Came;
use crate::step::{Sent, step};
use flash_patch::FlashFault;
use ice_base::{Flash, Sink};
use ice_emul::{Emulator, Out};
use ice_line::write_some;
use run_control::Inline;

/// What came of a chunk.
#[derive(Drop)]
pub enum Chunk {
    /// All of it is taken, and the session goes on.
    Taken,
    /// The session is closed within it: its flash is the program again, unless a page write failed.
    Closed(Result<(), FlashFault>),
    /// What a frame is answered could not be written; and whether the session is closed with it.
    Unsent(bool),
}

/// Takes a chunk, up to the frame with which the session is closed, or whose answer can't be written.
pub fn take_chunk<F: Flash, K: Sink>(
    emulator: &mut Emulator<F>,
    runner: &mut Inline<F>,
    chunk: &[u8],
    sink: &mut K,
) -> Chunk
    requires placed { IsPlaced (seen F.words F.journal F.faults F.writes) F.part emulator.old runner.old }
    requires listens { listens emulator.old.tool.mode ≡ true }
    requires partial { IsPartial emulator.old.receiver.held }
    requires few { runner.old.launches + length emulator.old.receiver.held + length chunk.now < 2 ^ 62 }
    ensures placed { IsPlaced (seen F.words F.journal F.faults F.writes) F.part emulator.new runner.new }
    ensures counts { runner.new.launches + length emulator.new.receiver.held ≤
        runner.old.launches + length emulator.old.receiver.held + length chunk.now }
    ensures part { emulator.new.tool.plan.part ≡ emulator.old.tool.plan.part }
    ensures stops { runner.new.stops.items ≡ runner.old.stops.items }
    ensures faults { K.faults sink.old ≤ K.faults sink.new }
    ensures bytes { IsBytes chunk.now }
    ensures takes { (job : Run F) (pend : List Asked) →
        IsKept (seen F.words F.journal F.faults F.writes) F.part (place emulator.old runner.old job pend) →
        ChunkEnds (seen F.words F.journal F.faults F.writes) F.part result (place emulator.old runner.old job pend) chunk.now
        (K.written sink.old) (K.written sink.new) (K.faults sink.old) (K.faults sink.new) emulator.new runner.new }
{
    let mut used = 0;
    'frames: loop {
        let mut sent = Sent::new();
        let (_, rest) = chunk.split_at(used);
        let stepped = step(emulator, runner, rest, &mut sent);
        used += stepped.used;
        match write_step(stepped.came, stepped.stopped, &sent, sink) {
            None => {}
            Some(end) => return end,
        }
    }
}

impl Sent {
    /// Nothing is sent yet.
    fn new() -> Sent
        ensures { (result.answer.items ≡ []) × (result.okay.items ≡ []) × (result.event.items ≡ []) }
    {
        Sent {
            answer: Out::new(),
            okay: Out::new(),
            event: Out::new(),
        }
    }

    /// Writes what is sent, and tells whether all of it was written.
    fn write<K: Sink>(&self, sink: &mut K) -> bool
        ensures writes { Writes result (K.written sink.old) (K.written sink.new) (K.faults sink.old) (K.faults sink.new)
            (self.now.answer.items ++ (self.now.okay.items ++ self.now.event.items)) }
        ensures faults { K.faults sink.old ≤ K.faults sink.new }
    {
        if !write_some(self.answer.as_slice(), sink) {
            return false;
        }
        if !write_some(self.okay.as_slice(), sink) {
            return false;
        }
        write_some(self.event.as_slice(), sink)
    }
}

/// Writes what a step sent, and tells how the chunk ends with it, where it does. A session is closed behind the answer to its sign-off where
/// a run was stopped for it, and else ahead of it: so the first to fail decides, the write or the restore.
fn write_step<K: Sink>(came: Came, stopped: bool, sent: &Sent, sink: &mut K) -> Option<Chunk>
    ensures writes { WritesStep came stopped result (K.written sink.old) (K.written sink.new) (K.faults sink.old) (K.faults sink.new)
        (sent.now.answer.items ++ (sent.now.okay.items ++ sent.now.event.items)) }
    ensures faults { K.faults sink.old ≤ K.faults sink.new }
{
    match came {
        Came::Nothing => Some(Chunk::Taken),
        Came::Frame => {
            if sent.write(sink) {
                return None;
            }
            Some(Chunk::Unsent(false))
        }
        Came::Closed(Ok(())) => {
            if sent.write(sink) {
                return Some(Chunk::Closed(Ok(())));
            }
            Some(Chunk::Unsent(true))
        }
        Came::Closed(Err(fault)) => {
            if !sent.write(sink) && stopped {
                return Some(Chunk::Unsent(true));
            }
            Some(Chunk::Closed(Err(fault)))
        }
    }
}
