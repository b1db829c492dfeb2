//! Where bytes go.
ghost use Rattle.std.specs.Prelude.{◌≡◌, ℕ, List, Option, take, OnOk, OnErr};
ghost use Rattle.std.specs.Io.KnownBytes.{Appends};
ghost use Rattle.ice_base.specs.Counts.{HasCause};

use crate::Failed;

/// A stream of bytes, written at its end.
pub trait Sink: Drop {
    /// The bytes written so far, where they are told.
    ghost written: { Self → Option (List ℕ) };

    /// How many calls have failed, up to the greatest u64.
    ghost faults: { Self → ℕ };

    /// Writes all of `piece`. An `Err` has written some front of it.
    fn put(&mut self, piece: &[u8]) -> Result<(), Failed>
        ensures ok { OnOk result (Appends (written self.old) (written self.new) piece.now) }
        ensures err { OnErr result ((n : ℕ) × Appends (written self.old) (written self.new) (take n piece.now)) }
        ensures cause { HasCause result (faults self.old) (faults self.new) }
        ensures still { OnOk result (faults self.new ≡ faults self.old) };
}
