//! What follows from the definitions: each law is the contract of a function that does nothing.
ghost use Rattle.std.specs.Prelude.{◌≡◌, ℕ, Bool, true, List, [], ◌∷◌, ◌++◌};
ghost use Rattle.part_spec.specs.Chip.{Chip};
ghost use Rattle.line_spec.specs.Frames.{Frame, IsFrame};
ghost use Rattle.line_spec.specs.Cut.{Item, Cuts};
ghost use Rattle.line_spec.specs.Messages.{Command};
ghost use Rattle.line_spec.specs.Hearing.{request, asks};
ghost use Rattle.line_spec.specs.Parameters.{parameters_at_start};
ghost use Rattle.debug_spec.specs.Debugger.{Debugger, listens};
ghost use Rattle.debug_spec.specs.Replay.{over};
ghost use Rattle.script_laws.specs.Answers.{IsAnswered};
ghost use Rattle.script_laws.specs.Waiting.{AreShort, Each, IsFront, stream};

/// A debugger that listens answers each request of a known command by one reply with its number, and behind it at most two events.
pub fn requests_are_answered()
    ensures answered { (planted : Bool) (part : Chip) (stops : List ℕ) (number : ℕ) (command : Command) (s : Debugger) →
        listens s.mode ≡ true → IsAnswered number s (over planted part stops (request number (asks command) ∷ []) s) }
    ensures start { AreShort parameters_at_start }
{}

/// What is cut off a front of a stream of whole frames is the first of them, whatever is still to come.
pub fn fronts_are_frames()
    ensures { (frames : List Frame) (items : List Item) (bytes behind rest : List ℕ) → Each IsFrame frames →
        bytes ++ rest ≡ stream frames → Cuts bytes items behind → IsFront frames items behind rest }
{}
