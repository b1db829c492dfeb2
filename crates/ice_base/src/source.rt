//! Where bytes come from.
ghost use Rattle.std.specs.Prelude.{◌≡◌, ◌<◌, ◌≤◌, ℕ, List, Option, length, take, drop, IfOk, OnOk, OnErr};
ghost use Rattle.std.specs.Io.KnownBytes.{Consumes, IsAtEnd, Keeps};
ghost use Rattle.ice_base.specs.Counts.{HasCause};

use crate::Failed;

/// A stream of bytes, read from the front.
pub trait Source: Drop {
    /// The bytes still to come, where they are told.
    ghost left: { Self → Option (List ℕ) };

    /// How many calls have failed, up to the greatest u64.
    ghost faults: { Self → ℕ };

    /// Reads bytes into the front of `buf`, at most its length, and leaves the rest of `buf`.
    /// `Ok(0)` on a `buf` that is not empty means the end. An `Err` has taken nothing.
    fn read(&mut self, buf: &mut [u8]) -> Result<usize, Failed>
        ensures count { IfOk result (λ n. n ≤ length buf.old) }
        ensures bytes { IfOk result (λ n. Consumes (left self.old) (left self.new) (take n buf.new)) }
        ensures rest { IfOk result (λ n. drop n buf.new ≡ drop n buf.old) }
        ensures end { IfOk result (λ n. n ≡ 0 → 0 < length buf.old → IsAtEnd (left self.new)) }
        ensures err { OnErr result (Keeps (left self.old) (left self.new)) }
        ensures cause { HasCause result (faults self.old) (faults self.new) }
        ensures still { OnOk result (faults self.new ≡ faults self.old) };
}
