//! Who does work beside the caller.
ghost use Rattle.std.specs.Prelude.{◌≡◌, ◌+◌, ◌%◌, ◌^◌, ℕ, IfOk, OnOk, IfErr, OnErr};
ghost use Rattle.ice_base.specs.Counts.{HasCause};

use crate::Work;

/// Starts work, each on a thread of its own, and joins it.
pub trait Spawner<W: Work>: Drop {
    /// What stands for work that was started and not joined.
    type Ticket: Drop;

    /// How many calls have failed, up to the greatest u64.
    ghost faults: { Self → ℕ };

    /// How many starts have worked, modulo 2^64.
    ghost starts: { Self → ℕ };

    /// How many joins have been made, modulo 2^64.
    ghost joins: { Self → ℕ };

    /// Which values the join of a ticket may give.
    ghost allows: { Self.Ticket → W.Done → Type 0 };

    /// What the calls of the spawner ask of it, and keep.
    ghost sound: { Self → Type 0 };

    /// Starts a work. An `Err` hands it back as it was.
    fn start(&mut self, work: W) -> Result<Self::Ticket, W>
        requires sound { sound self.old }
        ensures gives { IfOk result (λ ticket. (done : W.Done) → allows ticket done → W.gives work done) }
        ensures ok { OnOk result (starts self.new ≡ (starts self.old + 1) % 2 ^ 64) }
        ensures back { IfErr result (λ given. given ≡ work) }
        ensures err { OnErr result (starts self.new ≡ starts self.old) }
        ensures joins { joins self.new ≡ joins self.old }
        ensures cause { HasCause result (faults self.old) (faults self.new) }
        ensures still { OnOk result (faults self.new ≡ faults self.old) }
        ensures sound { sound self.new };

    /// Waits until the work of a ticket is done, and gives its value.
    fn join(&mut self, ticket: Self::Ticket) -> W::Done
        requires sound { sound self.old }
        ensures gives { allows ticket result }
        ensures joins { joins self.new ≡ (joins self.old + 1) % 2 ^ 64 }
        ensures starts { starts self.new ≡ starts self.old }
        ensures faults { faults self.new ≡ faults self.old }
        ensures sound { sound self.new };
}
