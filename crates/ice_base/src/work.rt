//! What is done beside the caller.

/// A piece of work, which is run once and gives a value.
pub trait Work: Drop {
    /// What the work gives.
    type Done: Drop;

    /// Which values the work may give.
    ghost gives: { Self → Self.Done → Type 0 };

    /// Does the work.
    fn run(self) -> Self::Done
        ensures { gives self result };
}
