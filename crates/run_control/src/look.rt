//! Looks for whether a run is to stop.
ghost use Rattle.std.specs.Prelude.{◌≡◌, ◌+◌, ◌%◌, ◌^◌, ℕ, Bool, if◌then◌else◌};

/// What tells a run at each boundary between two steps whether it is to stop.
pub trait StopLook {
    /// The type of its mark.
    ghost Mark: { Type 0 };

    /// How many looks were made, modulo 2^64.
    ghost looks: { Self → ℕ };

    /// How many of them told that the run is to stop, modulo 2^64.
    ghost yes: { Self → ℕ };

    /// Whether the newest look told so; off before the first.
    ghost last: { Self → Bool };

    /// What it is known by. No look changes it.
    ghost mark: { Self → Self.Mark };

    /// The run is to stop.
    fn look(&mut self) -> bool
        ensures looks { looks self.new ≡ (looks self.old + 1) % 2 ^ 64 }
        ensures yes { yes self.new ≡ (yes self.old + (if result then 1 else 0)) % 2 ^ 64 }
        ensures last { last self.new ≡ result }
        ensures mark { mark self.new ≡ mark self.old };
}
