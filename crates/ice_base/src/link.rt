//! A line that goes both ways.
ghost use Rattle.std.specs.Prelude.{◌≡◌, ◌<◌, ◌≤◌, ℕ, List, Option, length, take, drop, IfOk, OnOk, OnErr};
ghost use Rattle.std.specs.Io.KnownBytes.{Appends, Consumes, IsAtEnd, Keeps};
ghost use Rattle.ice_base.specs.Counts.{HasCause};

use crate::Failed;

/// A line to a partner, who may answer what is sent.
pub trait Link: Drop {
    /// The bytes sent so far, where they are told.
    ghost sent: { Self → Option (List ℕ) };

    /// The bytes still to come, where they are told.
    ghost incoming: { Self → Option (List ℕ) };

    /// How many calls have failed, up to the greatest u64.
    ghost faults: { Self → ℕ };

    /// What a send that worked does: the link before, the piece, the link after.
    ghost sends: { Self → List ℕ → Self → Type 0 };

    /// What a receive that worked does: the link before, the bytes received, the link after.
    ghost receives: { Self → List ℕ → Self → Type 0 };

    /// Sends all of `piece`. An `Err` has sent some front of it. Either may add bytes at the end of what comes.
    fn send(&mut self, piece: &[u8]) -> Result<(), Failed>
        ensures moved { OnOk result (sends self.old piece.now self.new) }
        ensures ok { OnOk result (Appends (sent self.old) (sent self.new) piece.now) }
        ensures err { OnErr result ((n : ℕ) × Appends (sent self.old) (sent self.new) (take n piece.now)) }
        ensures answered { (bytes : List ℕ) × Appends (incoming self.old) (incoming self.new) bytes }
        ensures cause { HasCause result (faults self.old) (faults self.new) }
        ensures still { OnOk result (faults self.new ≡ faults self.old) };

    /// Receives bytes into the front of `buf`, at most its length, and leaves the rest of `buf`.
    /// `Ok(0)` on a `buf` that is not empty means that nothing more comes until something is sent, or that the link is
    /// closed. An `Err` has taken nothing.
    fn receive(&mut self, buf: &mut [u8]) -> Result<usize, Failed>
        ensures moved { IfOk result (λ n. receives self.old (take n buf.new) self.new) }
        ensures count { IfOk result (λ n. n ≤ length buf.old) }
        ensures bytes { IfOk result (λ n. Consumes (incoming self.old) (incoming self.new) (take n buf.new)) }
        ensures rest { IfOk result (λ n. drop n buf.new ≡ drop n buf.old) }
        ensures end { IfOk result (λ n. n ≡ 0 → 0 < length buf.old → IsAtEnd (incoming self.new)) }
        ensures err { OnErr result (Keeps (incoming self.old) (incoming self.new)) }
        ensures sent { Keeps (sent self.old) (sent self.new) }
        ensures cause { HasCause result (faults self.old) (faults self.new) }
        ensures still { OnOk result (faults self.new ≡ faults self.old) };
}
