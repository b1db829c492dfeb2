//! The emulator: one call takes bytes of the line, its end, or the end of a run.
ghost use Rattle.std.specs.Prelude.{◌≡◌, []};
ghost use Rattle.flash_patch.specs.Asking.{seen};
ghost use Rattle.run_control.specs.declared.job.Job.{Job as Run};
ghost use Rattle.ice_emul.specs.Standing.{IsHeld, IsSoundEmulator};
ghost use Rattle.ice_emul.specs.Coming.{IsOverThen, TakesEnd};
ghost use Rattle.ice_emul.specs.Taking.{HasFaultCause, IsIdle, MayTake, NextStands, StaysOutThen, TakesInput, UsesUpThen};

use flash_patch::FlashFault;
use ice_answer::{Out, Tool};
use ice_base::Flash;
use ice_recv::Receiver;
use run_control::{Done, Job};

/// The emulator of a target with its flash.
#[derive(Drop)]
pub struct Emulator<F: Flash> {
    pub(crate) receiver: Receiver,
    pub(crate) tool: Tool,
    /// The target, while no run is prepared or out.
    pub(crate) target: Option<Job<F>>,
}

/// What one call takes.
#[derive(Drop)]
pub enum Input<'a, F: Flash> {
    /// Bytes of the line.
    Bytes(&'a [u8]),
    /// The line has ended.
    LineEnd,
    /// The run that was launched has ended.
    Halted(Done<F>),
}

/// What is to be done next.
#[derive(Drop)]
pub enum Next<F: Flash> {
    /// Nothing: no whole frame waits, and all bytes were used.
    Idle,
    /// Nothing: a frame was answered or dropped, or the end of a run was told.
    Answered,
    /// This job is to be launched.
    Launch(Job<F>),
    /// The run that is out is to be stopped.
    RaiseStop,
    /// The session is closed, and its flash is the program again, unless a page write failed.
    Closed(Result<(), FlashFault>),
}

/// What came of one call.
#[derive(Drop)]
pub struct Taken<F: Flash> {
    /// How many of the bytes were used.
    pub used: usize,
    /// What is to be done next.
    pub next: Next<F>,
}

impl<F: Flash> Emulator<F> {
    /// Takes bytes, up to and with the first frame among them; the end of the line; or the end of the run that is out. What is sent
    /// stands in `out`.
    pub fn take(&mut self, input: Input<'_, F>, out: &mut Out) -> Taken<F>
        requires sound { IsSoundEmulator F.part self.old }
        requires takes { MayTake F.part input self.old.tool }
        requires empty { out.old.items ≡ [] }
        ensures sound { IsSoundEmulator F.part self.new }
        ensures stands { NextStands (seen F.words F.journal F.faults F.writes) F.part result.next self.old self.new }
        ensures stays { StaysOutThen input.entry result.next self.old.tool.mode self.new.tool.mode }
        ensures uses { UsesUpThen input.entry result self.old self.new }
        ensures still { IsIdle result.next → out.new.items ≡ [] }
        ensures part { self.new.tool.plan.part ≡ self.old.tool.plan.part }
        ensures cause { HasFaultCause (seen F.words F.journal F.faults F.writes) self.old input.entry result.next self.new }
        ensures takes { (job : Run F) → IsHeld F.part self.old job →
            TakesInput (seen F.words F.journal F.faults F.writes) F.part self.old job input.entry out.new.items result self.new }
        ensures over { IsOverThen input.entry result.next self.old.tool.mode self.new.tool.mode }
        ensures ends { (job : Run F) → IsHeld F.part self.old job →
            TakesEnd (seen F.words F.journal F.faults F.writes) F.part self.old job input.entry out.new.items result self.new }
    {
        match input {
            Input::Bytes(bytes) => self.take_bytes(bytes, out),
            Input::LineEnd => Taken {
                used: 0,
                next: self.end_line(),
            },
            Input::Halted(done) => Taken {
                used: 0,
                next: self.halt(done, out),
            },
        }
    }
}
