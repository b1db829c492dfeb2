//! The laws of clean steps and clean runs: each function is empty, and its contract is the law. They say exactly what is clean, so a
//! stricter reading fails them as a looser one does.

ghost use Rattle.debug_spec.specs.CleanLaws.{UncleanStepsTakePlanted, CleanForEachStep, CleanToItsEnd, SetsHaveElements};

/// A step is not clean exactly where no interrupt is due and the instruction at pc has a planted word as its second word, or is an
/// LPM that reads a byte of one.
pub fn unclean_steps_take_planted_words()
    ensures { UncleanStepsTakePlanted }
{}

/// A run is clean for some steps exactly where each of them is clean, and to its end exactly where each step before that is.
pub fn clean_runs_have_clean_steps()
    ensures steps { CleanForEachStep }
    ensures end { CleanToItsEnd }
{}

/// A set of addresses has those of its list, and without one of them it has the others.
pub fn sets_have_their_addresses()
    ensures { SetsHaveElements }
{}
