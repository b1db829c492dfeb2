//! The end of the line, and the end of a run.
ghost use Rattle.std.specs.Prelude.{◌≡◌, ℕ, Bool, List, [], None, IfSome, true};
ghost use Rattle.part_spec.specs.Chip.{chip_of};
ghost use Rattle.debug_spec.specs.Debugger.{closed, is_out, leaving, listens, stopped};
ghost use Rattle.debug_spec.specs.RunLaws.{named_cause};
ghost use Rattle.debug_spec.specs.Schedule.{Session, IsHalted, line_ended};
ghost use Rattle.flash_patch.specs.Asking.{seen};
ghost use Rattle.run_control.specs.declared.job.Job.{Job as Run};
ghost use Rattle.debug_spec.specs.Device.{Asked};
ghost use Rattle.ice_emul.specs.Coming.{ComesTo, DoesHalt, EndsBy, IsOver};
ghost use Rattle.ice_emul.specs.Standing.{IsHeld, IsSoundEmulator, held};
ghost use Rattle.ice_emul.specs.Taking.{ClosesFor, DoesCall, EndsLine, IsClosed, IsEndOf, NextStands, takes_line};
ghost use Rattle.ice_answer.specs.Values.{why_of};
ghost use Rattle.ice_emul.specs.Launching.{IsOwn, targets_of};
ghost use Rattle.ice_answer.specs.Kept.{dropping_held};
ghost use Rattle.run_control.specs.Runs.{cause_of_halt};

use crate::emulator::{Emulator, Next};
use crate::running::close;
use flash_patch::FlashFault;
use ice_answer::{Cause, Mode, Out, Tool, tell};
use ice_base::Flash;
use run_control::{Done, Halt, Job};

impl<F: Flash> Emulator<F> {
    /// Ends the line: the bytes held are dropped, and the session ends, at once or with the run that is out.
    pub(crate) fn end_line(&mut self) -> Next<F>
        requires sound { IsSoundEmulator F.part self.old }
        requires takes { takes_line self.old.tool.mode ≡ true }
        ensures sound { IsSoundEmulator F.part self.new }
        ensures stands { NextStands (seen F.words F.journal F.faults F.writes) F.part result self.old self.new }
        ensures stays { EndsLine result self.old.tool.mode self.new.tool.mode }
        ensures part { self.new.tool.plan.part ≡ self.old.tool.plan.part }
        ensures receiver { self.new.receiver ≡ self.old.receiver }
        ensures cause { IfSome self.old.target (λ own.
            ClosesFor (seen F.words F.journal F.faults F.writes) result own.flash self.new.target) }
        ensures ends { (job : Run F) → IsHeld F.part self.old job →
            DoesCall (seen F.words F.journal F.faults F.writes) F.part (λ s t. t ≡ line_ended (chip_of self.old.tool.plan.part) s)
            self.old job [] result self.new }
    {
        let held = self.receiver.rest();
        self.tool.drop_held(held);
        match self.target.take() {
            Some(job) => {
                let mut job = job;
                close(&mut self.tool, &mut job);
                self.target = Some(job);
                self.closed()
            }
            None => {
                self.tool.leave();
                Next::RaiseStop
            }
        }
    }

    /// Tells that the session is closed.
    fn closed(&self) -> Next<F>
        ensures { (restored : Bool) → self.now.tool.mode ≡ closed restored → IsClosed restored result }
    {
        match self.tool.mode() {
            Mode::Closed(true) => Next::Closed(Ok(())),
            _ => Next::Closed(Err(FlashFault)),
        }
    }

    /// Takes the end of the run that is out: the host is told, or the session is closed.
    pub(crate) fn halt(&mut self, done: Done<F>, out: &mut Out) -> Next<F>
        requires sound { IsSoundEmulator F.part self.old }
        requires out { is_out self.old.tool.mode ≡ true }
        requires own { IsOwn F.part self.old.tool done.job }
        requires empty { out.old.items ≡ [] }
        ensures sound { IsSoundEmulator F.part self.new }
        ensures stands { NextStands (seen F.words F.journal F.faults F.writes) F.part result self.old self.new }
        ensures part { self.new.tool.plan.part ≡ self.old.tool.plan.part }
        ensures receiver { self.new.receiver ≡ self.old.receiver }
        ensures cause { ClosesFor (seen F.words F.journal F.faults F.writes) result done.job.flash self.new.target }
        ensures ends { (job : Run F) → IsHeld F.part self.old job →
            IsEndOf (seen F.words F.journal F.faults F.writes) F.part self.old job done →
            DoesCall (seen F.words F.journal F.faults F.writes) F.part (IsHalted true (chip_of self.old.tool.plan.part))
            self.old job out.new.items result self.new }
        ensures over { IsOver result self.old.tool.mode self.new.tool.mode }
        // where the end itself is known, it is the one that is taken
        ensures halts { (job : Run F) (number : ℕ) (by_itself : Bool) (asks : List Asked) → IsHeld F.part self.old job →
            ComesTo (seen F.words F.journal F.faults F.writes) (held self.old job) done
            (EndsBy number by_itself (chip_of self.old.tool.plan.part)) asks →
            DoesHalt (seen F.words F.journal F.faults F.writes) F.part (EndsBy number by_itself (chip_of self.old.tool.plan.part)) asks
            self.old job out.new.items result self.new }
    {
        let Done { job, halt } = done;
        let mut job = job;
        job.replant = None;
        if !self.tool.listens() {
            close(&mut self.tool, &mut job);
            self.target = Some(job);
            return self.closed();
        }
        let pc = job.core.pc();
        let cause = cause_of(&self.tool, halt, pc);
        tell(out, pc, cause);
        self.tool.stay();
        self.target = Some(job);
        Next::Answered
    }
}

/// The cause that a run is told to have ended for, at an address: a BREAK at one of its breakpoints is that breakpoint.
fn cause_of(tool: &Tool, halt: Halt, pc: u16) -> Cause
    ensures { why_of result ≡ named_cause (targets_of tool.now) pc (cause_of_halt halt) }
{
    match halt {
        Halt::Comparator => Cause::Breakpoint,
        Halt::Word => {
            if tool.is_target(pc) {
                Cause::Breakpoint
            } else {
                Cause::OwnBreak
            }
        }
        Halt::Undefined => Cause::Undefined,
        Halt::Forced => Cause::Forced,
        Halt::Single => Cause::SingleStep,
        Halt::FlashFault => Cause::FailedWrite,
    }
}
