//! Sessions and runs that are clean, and some that are not, as laws: each function is empty, and its contract says what the
//! definitions compute. What a session hears is the same however its line is divided into reads, and so is what is said here.

ghost use Rattle.std.specs.Prelude.{◌≡◌, true, false, [], ◌∷◌, replicate};
ghost use Rattle.avr_spec.specs.inside.Examples.{start_code};
ghost use Rattle.line_spec.specs.Messages.{set_break, go, single_step, forced_stop, sign_off};
ghost use Rattle.debug_spec.specs.Clean.{clean_run};
ghost use Rattle.debug_spec.specs.inside.Examples.{small, filled, session, shown, okays, tells, port_words, timer_words, timer_commands};
ghost use Rattle.debug_spec.specs.inside.Examples.{compare_commands};
ghost use Rattle.debug_spec.specs.inside.NumberExamples.{is_clean_session, frames_while_clean, lpm_run, page_write, changed_words};
ghost use Rattle.debug_spec.specs.inside.NumberExamples.{program_commands};

/// The session that meets a breakpoint is clean, and so is the one that stops at a BREAK of the program's own.
pub fn met_breakpoints_are_clean()
    ensures planted { is_clean_session (100 ∷ []) port_words (set_break 1 0 2 ∷ go ∷ sign_off ∷ []) ≡ true }
    ensures own { is_clean_session (100 ∷ 5 ∷ []) (0 ∷ 0x9598 ∷ 0xcfff ∷ []) (set_break 1 0 1 ∷ go ∷ go ∷ forced_stop ∷ sign_off ∷ [])
        ≡ true }
{}

/// The sessions that take interrupts are clean, with a breakpoint at pc and with a comparator there.
pub fn interrupts_are_clean()
    ensures overflow { is_clean_session (100 ∷ []) timer_words timer_commands ≡ true }
    ensures compare { is_clean_session (100 ∷ []) timer_words compare_commands ≡ true }
{}

/// The ordinary start of a C program, which copies bytes by LPM, is clean to the breakpoint in `main`.
pub fn ordinary_start_is_clean()
    ensures { is_clean_session (100 ∷ []) start_code (set_break 1 0 0x10 ∷ go ∷ sign_off ∷ []) ≡ true }
{}

/// The session that programs a page and then meets a breakpoint in it is clean, and leaves the program as last programmed.
pub fn programmed_sessions_are_clean()
    ensures clean { is_clean_session (100 ∷ []) port_words program_commands ≡ true }
    ensures shown { shown (session true (100 ∷ []) port_words [] program_commands) ≡ record {
      frames = okays 0 ∷ okays 1 ∷ okays 2 ∷ okays 3 ∷ okays 4 ∷ okays 5 ∷ tells 2 1 ∷ okays 6 ∷ [];
      counts = 2 ∷ 2 ∷ 1 ∷ 0 ∷ [];
      pages = page_write 0 (filled port_words) ∷ page_write 0 (replicate 64 0xffff) ∷ page_write 0 (filled changed_words) ∷
          page_write 0 (filled (0xe002 ∷ 0xbb07 ∷ 0x9598 ∷ 0xcfff ∷ [])) ∷ page_write 0 (filled changed_words) ∷ [];
    } }
{}

/// A single step over a NOP is clean, and the next one, over an LDS with a breakpoint on its operand, is not: the two debuggers send
/// the same up to the reply that starts it.
pub fn single_step_may_be_unclean()
    ensures clean { is_clean_session (100 ∷ []) (0 ∷ 0x9100 ∷ 0x0060 ∷ 0xcfff ∷ []) (set_break 1 0 2 ∷ single_step ∷ sign_off ∷ []) ≡ true }
    ensures unclean { is_clean_session (100 ∷ []) (0 ∷ 0x9100 ∷ 0x0060 ∷ 0xcfff ∷ [])
        (set_break 1 0 2 ∷ single_step ∷ single_step ∷ sign_off ∷ []) ≡ false }
    ensures frames { frames_while_clean (100 ∷ []) (0 ∷ 0x9100 ∷ 0x0060 ∷ 0xcfff ∷ [])
        (set_break 1 0 2 ∷ single_step ∷ single_step ∷ sign_off ∷ []) ≡ okays 0 ∷ okays 1 ∷ tells 1 3 ∷ okays 2 ∷ [] }
{}

/// An LPM of a word that is not planted is clean, with breakpoints all around.
pub fn reads_beside_a_breakpoint_are_clean()
    ensures to_r0 { clean_run small (lpm_run 0x95c8 (0 ∷ 2 ∷ 4 ∷ [])) false 100 ≡ true }
    ensures by_z { clean_run small (lpm_run 0x9104 (0 ∷ 2 ∷ 4 ∷ [])) false 100 ≡ true }
    ensures by_z_and_one_more { clean_run small (lpm_run 0x9105 (0 ∷ 2 ∷ 4 ∷ [])) false 100 ≡ true }
{}

/// An LPM of a planted word is not clean, and the step before it is.
pub fn reads_of_a_breakpoint_are_unclean()
    ensures before { clean_run small (lpm_run 0x95c8 (3 ∷ [])) false 1 ≡ true }
    ensures to_r0 { clean_run small (lpm_run 0x95c8 (3 ∷ [])) false 2 ≡ false }
    ensures by_z { clean_run small (lpm_run 0x9104 (3 ∷ [])) false 2 ≡ false }
    ensures by_z_and_one_more { clean_run small (lpm_run 0x9105 (3 ∷ [])) false 2 ≡ false }
{}
