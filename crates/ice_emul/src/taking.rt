//! Bytes of the line are taken: up to the first frame among them, which is heard.
ghost use Rattle.std.specs.Prelude.{◌≡◌, ◌<◌, ◌+◌, ◌%◌, ◌^◌, [], true, IfSome, length};
ghost use Rattle.ice_recv.specs.Receiving.{risen};
ghost use Rattle.flash_patch.specs.Asking.{seen};
ghost use Rattle.run_control.specs.declared.job.Job.{Job as Run};
ghost use Rattle.debug_spec.specs.Debugger.{listens};
ghost use Rattle.ice_emul.specs.Standing.{IsHeld, IsSoundEmulator};
ghost use Rattle.ice_emul.specs.Taking.{ClosesFor, IsIdle, NextStands, StaysOut, TakesBytes, UsesUp, takes_line};
ghost use Rattle.ice_answer.specs.Feeding.{Feeds};
ghost use Rattle.ice_emul.specs.Feeding.{TakesOff, TakesWaiting};

use crate::emulator::{Emulator, Next, Taken};
use ice_answer::{Out, count_dropped, feed};
use ice_base::Flash;
use ice_frame::Frame;
use ice_recv::Receiver;

impl<F: Flash> Emulator<F> {
    /// Takes bytes. Those that come while the session waits for the end of a run are ignored.
    pub(crate) fn take_bytes(&mut self, bytes: &[u8], out: &mut Out) -> Taken<F>
        requires sound { IsSoundEmulator F.part self.old }
        requires takes { takes_line self.old.tool.mode ≡ true }
        requires empty { out.old.items ≡ [] }
        ensures sound { IsSoundEmulator F.part self.new }
        ensures stands { NextStands (seen F.words F.journal F.faults F.writes) F.part result.next self.old self.new }
        ensures stays { StaysOut result.next self.old.tool.mode self.new.tool.mode }
        ensures uses { UsesUp result.next (length bytes.now) result.used self.old.receiver self.new }
        ensures still { IsIdle result.next → out.new.items ≡ [] }
        ensures part { self.new.tool.plan.part ≡ self.old.tool.plan.part }
        ensures cause { IfSome self.old.target (λ own.
            ClosesFor (seen F.words F.journal F.faults F.writes) result.next own.flash self.new.target) }
        ensures takes { (job : Run F) → IsHeld F.part self.old job →
            TakesBytes (seen F.words F.journal F.faults F.writes) F.part self.old job bytes.now out.new.items result self.new }
    {
        if !self.tool.listens() {
            return Taken {
                used: bytes.len(),
                next: Next::Idle,
            };
        }
        let used = feed(&mut self.receiver, &mut self.tool, bytes);
        Taken {
            used,
            next: self.take_waiting(out),
        }
    }

    /// Takes the frame that waits, if one does, and drops the junk behind it.
    fn take_waiting(&mut self, out: &mut Out) -> Next<F>
        requires sound { IsSoundEmulator F.part self.old }
        requires listens { listens self.old.tool.mode ≡ true }
        requires empty { out.old.items ≡ [] }
        ensures sound { IsSoundEmulator F.part self.new }
        ensures stands { NextStands (seen F.words F.journal F.faults F.writes) F.part result self.old self.new }
        ensures stays { StaysOut result self.old.tool.mode self.new.tool.mode }
        ensures off { TakesOff result self.old.receiver self.new.receiver }
        ensures still { IsIdle result → out.new.items ≡ [] }
        ensures part { self.new.tool.plan.part ≡ self.old.tool.plan.part }
        ensures cause { IfSome self.old.target (λ own.
            ClosesFor (seen F.words F.journal F.faults F.writes) result own.flash self.new.target) }
        ensures takes { (job : Run F) → IsHeld F.part self.old job →
            TakesWaiting (seen F.words F.journal F.faults F.writes) F.part self.old job out.new.items result self.new }
    {
        let counted = self.receiver.dropped();
        match self.receiver.next() {
            None => Next::Idle,
            Some(frame) => {
                let next = self.hear(&frame, out);
                if self.tool.goes_on() {
                    count_dropped(&mut self.tool, counted, self.receiver.dropped());
                }
                next
            }
        }
    }
}
