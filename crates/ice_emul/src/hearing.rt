//! A frame is heard, and its command answered.
ghost use Rattle.std.specs.Prelude.{◌≡◌, ◌≢◌, [], None, Some, IfSome, true};
ghost use Rattle.ice_frame.specs.Front.{frame_of};
ghost use Rattle.debug_spec.specs.Debugger.{listens};
ghost use Rattle.flash_patch.specs.Asking.{seen};
ghost use Rattle.run_control.specs.declared.job.Job.{Job as Run};
ghost use Rattle.ice_emul.specs.Launching.{IsAtHome, is_here_or_launching};
ghost use Rattle.ice_emul.specs.Standing.{IsHeld, IsSoundEmulator};
ghost use Rattle.ice_emul.specs.Taking.{ClosesFor, GoesOnBy, HearsFrame, IsIdle, NextStands, StaysOut, armed, is_launching};
ghost use Rattle.run_control.specs.Runs.{MayAdvance};

use crate::answers::answer;
use crate::emulator::{Emulator, Next};
use crate::running::page_behind;
use flash_patch::FlashFault;
use ice_answer::{Mode, Out};
use ice_base::Flash;
use ice_frame::Frame;
use ice_msg::read_command;
use line_spec::limits::{EVENT_NUMBER, FRAME_EDGE};

impl<F: Flash> Emulator<F> {
    /// Hears a frame, and answers it unless it has the number of events: then its bytes are dropped.
    pub(crate) fn hear(&mut self, frame: &Frame, out: &mut Out) -> Next<F>
        requires sound { IsSoundEmulator F.part self.old }
        requires listens { listens self.old.tool.mode ≡ true }
        requires empty { out.old.items ≡ [] }
        ensures sound { IsSoundEmulator F.part self.new }
        ensures stands { NextStands (seen F.words F.journal F.faults F.writes) F.part result self.old self.new }
        ensures stays { StaysOut result self.old.tool.mode self.new.tool.mode }
        ensures some { IsIdle result → ⊥ }
        ensures part { self.new.tool.plan.part ≡ self.old.tool.plan.part }
        ensures cause { IfSome self.old.target (λ own.
            ClosesFor (seen F.words F.journal F.faults F.writes) result own.flash self.new.target) }
        ensures receiver { self.new.receiver ≡ self.old.receiver }
        ensures hears { (job : Run F) → IsHeld F.part self.old job →
            HearsFrame (seen F.words F.journal F.faults F.writes) F.part self.old job (frame_of frame.now) out.new.items result self.new }
    {
        if frame.seq == EVENT_NUMBER {
            self.tool
                .drop_bytes(FRAME_EDGE as u64 + frame.body.len() as u64);
            return Next::Answered;
        }
        self.answer(frame, out)
    }

    /// Answers a frame.
    fn answer(&mut self, frame: &Frame, out: &mut Out) -> Next<F>
        requires sound { IsSoundEmulator F.part self.old }
        requires listens { listens self.old.tool.mode ≡ true }
        requires number { frame.now.seq ≢ EVENT_NUMBER }
        requires empty { out.old.items ≡ [] }
        ensures sound { IsSoundEmulator F.part self.new }
        ensures stands { NextStands (seen F.words F.journal F.faults F.writes) F.part result self.old self.new }
        ensures stays { StaysOut result self.old.tool.mode self.new.tool.mode }
        ensures some { IsIdle result → ⊥ }
        ensures part { self.new.tool.plan.part ≡ self.old.tool.plan.part }
        ensures cause { IfSome self.old.target (λ own.
            ClosesFor (seen F.words F.journal F.faults F.writes) result own.flash self.new.target) }
        ensures receiver { self.new.receiver ≡ self.old.receiver }
        ensures hears { (job : Run F) → IsHeld F.part self.old job →
            HearsFrame (seen F.words F.journal F.faults F.writes) F.part self.old job (frame_of frame.now) out.new.items result self.new }
    {
        let request = read_command(frame.body.as_slice());
        match &mut self.target {
            Some(job) => answer(&mut self.tool, job, out, frame.seq, &request),
            None => {
                if self.tool.answer_away(out, frame.seq, &request) {
                    return Next::RaiseStop;
                }
                return Next::Answered;
            }
        }
        self.go_on()
    }

    /// What is to be done next, where the target was at home: a run that is prepared is launched.
    fn go_on(&mut self) -> Next<F>
        requires home { IfSome self.old.target (λ own. IsAtHome F.part self.old.tool own) }
        requires here { is_here_or_launching self.old.tool.mode ≡ true }
        ensures goes { (own : Run F) → self.old.target ≡ Some own → GoesOnBy self.old.tool.mode self.old own result self.new }
        ensures may { (own : Run F) → self.old.target ≡ Some own → is_launching self.old.tool.mode ≡ true →
            MayAdvance (seen F.words F.journal F.faults F.writes) F.part (armed self.old.tool own) }
    {
        match self.tool.mode() {
            Mode::Stopped => Next::Answered,
            Mode::Launching(_) => self.launch(),
            Mode::Running => Next::Answered,
            Mode::Programming => Next::Answered,
            Mode::Leaving => Next::Answered,
            Mode::Closed(true) => Next::Closed(Ok(())),
            Mode::Closed(false) => Next::Closed(Err(FlashFault)),
        }
    }

    /// Hands the target out in a job, to be launched.
    fn launch(&mut self) -> Next<F>
        requires { IfSome self.old.target (λ own. IsAtHome F.part self.old.tool own) }
        ensures launch { (own : Run F) → self.old.target ≡ Some own →
            (result ≡ Next.Launch (armed self.old.tool own)) × (self.new ≡ record self.old { target = None }) }
        ensures may { (own : Run F) → self.old.target ≡ Some own →
            MayAdvance (seen F.words F.journal F.faults F.writes) F.part (armed self.old.tool own) }
    {
        match self.target.take() {
            None => Next::Answered,
            Some(job) => {
                let mut job = job;
                job.replant = page_behind(&self.tool, job.core.pc());
                job.fresh = true;
                Next::Launch(job)
            }
        }
    }
}
