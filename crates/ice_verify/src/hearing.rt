//! A frame is heard, and its command answered.
ghost use Rattle.std.specs.Prelude.{◌≡◌, ◌≢◌, ◌⊎◌, [], None, true, false};
ghost use Rattle.ice_frame.specs.Front.{frame_of};
ghost use Rattle.line_spec.specs.Cut.{whole};
ghost use Rattle.line_spec.specs.Hearing.{Heard, Hears};
ghost use Rattle.debug_spec.specs.Debugger.{listens};
ghost use Rattle.debug_spec.specs.Running.{launch_if_prepared};
ghost use Rattle.debug_spec.specs.Commands.{item};
ghost use Rattle.ice_answer.specs.Kept.{prepared_number};
ghost use Rattle.ice_verify.specs.Well.{DoesWell};
ghost use Rattle.ice_verify.specs.Standing.{IsReady, at_of};

use crate::plain::Plain;
use ice_answer::{Out, okay};
use ice_frame::Frame;
use ice_msg::read_command;
use line_spec::limits::{EVENT_NUMBER, FRAME_EDGE};

impl Plain {
    /// Hears a frame, and answers it unless it has the number of events: then its bytes are dropped.
    pub(crate) fn hear(&mut self, frame: &Frame, out: &mut Out)
        requires ready { IsReady self.old }
        requires listens { listens self.old.tool.mode ≡ true }
        requires empty { out.old.items ≡ [] }
        ensures hears { (heard : Heard) × Hears (whole (frame_of frame.now)) heard ×
            DoesWell (λ part. item false part heard) (at_of self.old out.old.items) (at_of self.new out.new.items) }
        ensures ready { IsReady self.new }
        ensures quiet { (prepared_number self.new.tool.mode ≡ None) ⊎ (out.new.items ≡ []) }
    {
        if frame.seq == EVENT_NUMBER {
            self.tool
                .drop_bytes(FRAME_EDGE as u64 + frame.body.len() as u64);
            return;
        }
        self.answer_frame(frame, out)
    }

    /// Answers a frame.
    fn answer_frame(&mut self, frame: &Frame, out: &mut Out)
        requires ready { IsReady self.old }
        requires listens { listens self.old.tool.mode ≡ true }
        requires number { frame.now.seq ≢ EVENT_NUMBER }
        requires empty { out.old.items ≡ [] }
        ensures hears { (heard : Heard) × Hears (whole (frame_of frame.now)) heard ×
            DoesWell (λ part. item false part heard) (at_of self.old out.old.items) (at_of self.new out.new.items) }
        ensures ready { IsReady self.new }
        ensures quiet { (prepared_number self.new.tool.mode ≡ None) ⊎ (out.new.items ≡ []) }
    {
        let request = read_command(frame.body.as_slice());
        if self.is_out() {
            let _ = self.tool.answer_away(out, frame.seq, &request);
            return;
        }
        self.answer(out, frame.seq, &request)
    }

    /// Launches the run that is prepared, if one is.
    pub(crate) fn launch_if_prepared(&mut self, out: &mut Out)
        requires ready { IsReady self.old }
        requires quiet { (prepared_number self.old.tool.mode ≡ None) ⊎ (out.old.items ≡ []) }
        ensures does { DoesWell (λ part. launch_if_prepared) (at_of self.old out.old.items) (at_of self.new out.new.items) }
        ensures ready { IsReady self.new }
        ensures calm { prepared_number self.new.tool.mode ≡ None }
    {
        match self.tool.prepared() {
            None => {}
            Some(number) => {
                self.tool.run();
                okay(out, number)
            }
        }
    }
}
