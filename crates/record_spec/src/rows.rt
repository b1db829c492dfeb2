//! Records worked by hand, as laws.
ghost use Rattle.std.specs.Prelude.{ℕ, List, [], ◌∷◌, codes};
ghost use Rattle.part_spec.specs.Chip.{Chip};
ghost use Rattle.debug_spec.specs.Stop.{breakpoint, forced};
ghost use Rattle.record_spec.specs.Lines.{IsText, comes, event, halts, line_ends, out, waits};
ghost use Rattle.record_spec.specs.Fits.{Fits};
ghost use Rattle.debug_spec.specs.inside.Examples.{filled, small};
ghost use Rattle.record_spec.specs.inside.Examples.{leaves_by, okay_bytes, other_bytes, sign_off_bytes, signs_off};

/// The lines of a session that only signs off.
pub fn lines_of_a_sign_off()
    ensures comes { IsText (codes "in 1b0000010000000e007a86") (event (comes sign_off_bytes)) }
    ensures out { IsText (codes "out 1b0000010000000e807202") (out okay_bytes) }
{}

/// The other lines.
pub fn lines_of_each_kind()
    ensures waits { IsText (codes "in -") (event waits) }
    ensures ends { IsText (codes "end") (event line_ends) }
    ensures none { IsText (codes "out -") (out []) }
    ensures met { IsText (codes "halt 01 2") (event (halts (record { steps = 2; cause = breakpoint }))) }
    ensures forced { IsText (codes "halt 02 100000000") (event (halts (record { steps = 100000000; cause = forced }))) }
{}

/// The record of a session that only signs off fits each program.
pub fn a_sign_off_fits()
    ensures fits { (part : Chip) (prog : List ℕ) → Fits part prog signs_off }
    ensures other { (part : Chip) (prog : List ℕ) → Fits part prog (event (comes sign_off_bytes) ∷ out other_bytes ∷ []) → ⊥ }
    ensures short { (part : Chip) (prog : List ℕ) → Fits part prog (event (comes sign_off_bytes) ∷ []) → ⊥ }
    ensures none { (part : Chip) (prog : List ℕ) → Fits part prog [] → ⊥ }
{}

/// A session is left while a run of a program that jumps to itself is out: it is
/// forced to end behind five steps.
pub fn a_run_that_is_left_fits()
    ensures { Fits small (filled (0xcfff ∷ [])) (leaves_by (record { steps = 5; cause = forced })) }
{}
