//! Sessions worked by hand, as laws: each function is empty, and its contract says what the definitions compute, on a part of
//! one page.

pub mod programming;

ghost use Rattle.std.specs.Prelude.{◌≡◌, Bool, true, false, List, [], ◌∷◌, replicate};
ghost use Rattle.avr_spec.specs.Machine.{machine_start};
ghost use Rattle.line_spec.specs.Messages.{set_break, go, sign_off, forced_stop, read_pc, get_parameter, single_step, reset};
ghost use Rattle.line_spec.specs.Messages.{write_pc, run_to, read_memory, write_memory, set_parameter, clear_break};
ghost use Rattle.line_spec.specs.Hearing.{request, asks, unknown_code, wrong_length, dropped};
ghost use Rattle.debug_spec.specs.Run.{run_of};
ghost use Rattle.debug_spec.specs.Clean.{clean_run};
ghost use Rattle.debug_spec.specs.Device.{made, denied};
ghost use Rattle.debug_spec.specs.Debugger.{closed};
ghost use Rattle.debug_spec.specs.Replay.{over_all};
ghost use Rattle.debug_spec.specs.CleanSessions.{clean_session, clean_frames};
ghost use Rattle.debug_spec.specs.inside.Examples.{small, numbered, start_of, compare_commands, filled, session, sends, okays};
ghost use Rattle.debug_spec.specs.inside.Examples.{tells, shown, pages_of, port_words, leaves, port_commands, port_bytes};
ghost use Rattle.debug_spec.specs.inside.Examples.{timer_words, timer_commands, operand_words, operand_commands};

/// A breakpoint is met: it is planted at the launch, and gone at the end.
pub fn breakpoint_is_met()
    ensures { shown (session true (100 ∷ []) port_words [] (set_break 1 0 2 ∷ go ∷ sign_off ∷ [])) ≡ record {
      frames = okays 0 ∷ okays 1 ∷ tells 2 1 ∷ okays 2 ∷ [];
      counts = 2 ∷ 2 ∷ 1 ∷ 0 ∷ [];
      pages = pages_of port_words ([] ∷ (2 ∷ []) ∷ [] ∷ []);
    } }
{}

/// The host reads the program and no planted word; the next run steps over the breakpoint and is forced to stop.
pub fn breakpoint_is_stepped_over()
    ensures { shown (session true (100 ∷ 5 ∷ []) port_words [] port_commands) ≡ record {
      frames = okays 0 ∷ okays 1 ∷ tells 2 1 ∷ sends 2 port_bytes ∷ okays 3 ∷ okays 4 ∷ tells 3 2 ∷ okays 5 ∷ [];
      counts = 11 ∷ 7 ∷ 2 ∷ 0 ∷ [];
      pages = pages_of port_words ([] ∷ (2 ∷ []) ∷ [] ∷ (2 ∷ []) ∷ [] ∷ []);
    } }
{}

/// While a run is out the target is not read, and its state is told; at the end of the line a run is stopped with no event.
pub fn running_target_answers_little()
    ensures answers { shown (session true (5 ∷ []) (0xcfff ∷ []) [] (go ∷ read_pc ∷ get_parameter 0x1a ∷ forced_stop ∷
        get_parameter 0x1a ∷ sign_off ∷ [])) ≡ record {
          frames = okays 0 ∷ sends 1 (0xa5 ∷ []) ∷ sends 2 (0x81 ∷ 0x01 ∷ []) ∷ okays 3 ∷ tells 0 2 ∷
              sends 4 (0x81 ∷ 0x00 ∷ []) ∷ okays 5 ∷ [];
          counts = 10 ∷ 5 ∷ 0 ∷ 0 ∷ [];
          pages = pages_of (0xcfff ∷ []) ([] ∷ []);
        } }
    ensures line_end { shown (session true (5 ∷ []) (0xcfff ∷ []) [] (go ∷ [])) ≡ record {
      frames = okays 0 ∷ [];
      counts = 10 ∷ 5 ∷ 0 ∷ 0 ∷ [];
      pages = pages_of (0xcfff ∷ []) ([] ∷ []);
    } }
{}

/// A due interrupt comes before a breakpoint at pc: the run behind SEI stops at the vector, and the breakpoint is met on
/// return.
pub fn due_interrupt_comes_first()
    ensures { shown (session true (100 ∷ []) timer_words [] timer_commands) ≡ record {
      frames = okays 0 ∷ okays 1 ∷ okays 2 ∷ okays 3 ∷ okays 4 ∷ okays 5 ∷ okays 6 ∷ tells 0x01 1 ∷ okays 7 ∷ tells 0x12 1 ∷
          okays 8 ∷ tells 0x02 1 ∷ okays 9 ∷ [];
      counts = 10 ∷ 4 ∷ 0 ∷ 0 ∷ [];
      pages = pages_of timer_words ([] ∷ (1 ∷ 2 ∷ 0x12 ∷ []) ∷ (2 ∷ 0x12 ∷ []) ∷ (1 ∷ 2 ∷ 0x12 ∷ []) ∷ (1 ∷ 2 ∷ []) ∷
          (1 ∷ 2 ∷ 0x12 ∷ []) ∷ [] ∷ []);
    } }
{}

/// The program's own BREAK stops a run and is stepped over; with a breakpoint on it the cause is the breakpoint, and no page is
/// written.
pub fn own_break_stops()
    ensures own { shown (session true (100 ∷ 5 ∷ []) (0 ∷ 0x9598 ∷ 0xcfff ∷ []) [] (go ∷ go ∷ forced_stop ∷ sign_off ∷ [])) ≡ record {
      frames = okays 0 ∷ tells 1 5 ∷ okays 1 ∷ okays 2 ∷ tells 2 2 ∷ okays 3 ∷ [];
      counts = 10 ∷ 6 ∷ 0 ∷ 0 ∷ [];
      pages = pages_of (0 ∷ 0x9598 ∷ 0xcfff ∷ []) ([] ∷ []);
    } }
    ensures set { shown (session true (100 ∷ 5 ∷ []) (0 ∷ 0x9598 ∷ 0xcfff ∷ []) [] (set_break 1 0 1 ∷ go ∷ go ∷ forced_stop ∷
        sign_off ∷ [])) ≡ record {
          frames = okays 0 ∷ okays 1 ∷ tells 1 1 ∷ okays 2 ∷ okays 3 ∷ tells 2 2 ∷ okays 4 ∷ [];
          counts = 10 ∷ 6 ∷ 0 ∷ 0 ∷ [];
          pages = pages_of (0 ∷ 0x9598 ∷ 0xcfff ∷ []) ([] ∷ []);
        } }
{}

/// A page write that fails before the launch refuses it, and one behind the first step stops the run there.
pub fn failed_writes_are_told()
    ensures { shown (session true (100 ∷ []) port_words (made ∷ leaves port_words [] ∷ made ∷ made ∷ made ∷ made ∷
        leaves port_words [] ∷ []) (set_break 1 0 2 ∷ go ∷ go ∷ go ∷ sign_off ∷ [])) ≡ record {
          frames = okays 0 ∷ sends 1 (0xa0 ∷ []) ∷ okays 2 ∷ tells 2 1 ∷ okays 3 ∷ tells 3 7 ∷ okays 4 ∷ [];
          counts = 3 ∷ 3 ∷ 2 ∷ 0 ∷ [];
          pages = pages_of port_words ([] ∷ (2 ∷ []) ∷ [] ∷ []);
        } }
{}

/// The session of five page writes with one of them failing: the launch is refused and the next one mends the page, the second
/// is refused, the run stops behind its first step, or the closing restore fails.
pub fn each_write_may_fail()
    ensures write_2 { shown (session true (100 ∷ 5 ∷ []) port_words (made ∷ leaves port_words [] ∷ []) port_commands) ≡ record {
      frames = okays 0 ∷ sends 1 (0xa0 ∷ []) ∷ sends 2 port_bytes ∷ okays 3 ∷ tells 2 1 ∷ sends 4 (0xa5 ∷ []) ∷ okays 5 ∷ [];
      counts = 2 ∷ 2 ∷ 1 ∷ 0 ∷ [];
      pages = pages_of port_words ([] ∷ (2 ∷ []) ∷ [] ∷ []);
    } }
    ensures write_3 { shown (session true (100 ∷ 5 ∷ []) port_words (made ∷ made ∷ made ∷ leaves port_words (2 ∷ []) ∷
        []) port_commands) ≡ record {
          frames = okays 0 ∷ okays 1 ∷ tells 2 1 ∷ sends 2 port_bytes ∷ sends 3 (0xa0 ∷ []) ∷ sends 4 (0xa5 ∷ []) ∷ okays 5 ∷ [];
          counts = 2 ∷ 2 ∷ 1 ∷ 0 ∷ [];
          pages = pages_of port_words ([] ∷ (2 ∷ []) ∷ [] ∷ []);
        } }
    ensures write_4 { shown (session true (100 ∷ 5 ∷ []) port_words (made ∷ made ∷ made ∷ made ∷ made ∷ leaves port_words [] ∷
        []) port_commands) ≡ record {
          frames = okays 0 ∷ okays 1 ∷ tells 2 1 ∷ sends 2 port_bytes ∷ okays 3 ∷ tells 3 7 ∷ sends 4 (0xa5 ∷ []) ∷ okays 5 ∷ [];
          counts = 3 ∷ 3 ∷ 2 ∷ 0 ∷ [];
          pages = pages_of port_words ([] ∷ (2 ∷ []) ∷ [] ∷ []);
        } }
    ensures write_5 { shown (session true (100 ∷ 5 ∷ []) port_words (made ∷ made ∷ made ∷ made ∷ made ∷ made ∷
        leaves port_words (2 ∷ []) ∷ []) port_commands) ≡ record {
          frames = okays 0 ∷ okays 1 ∷ tells 2 1 ∷ sends 2 port_bytes ∷ okays 3 ∷ okays 4 ∷ tells 3 2 ∷ okays 5 ∷ [];
          counts = 11 ∷ 7 ∷ 2 ∷ 0 ∷ [];
          pages = pages_of port_words ([] ∷ (2 ∷ []) ∷ [] ∷ (2 ∷ []) ∷ []);
        } }
    ensures not_restored { (session true (100 ∷ 5 ∷ []) port_words (made ∷ made ∷ made ∷ made ∷ made ∷ made ∷
        leaves port_words (2 ∷ []) ∷ []) port_commands).mode ≡ closed false }
{}

/// A breakpoint on the operand of an LDS: the planted word is the operand, so the patched debugger and the plain one read
/// different bytes, and the run is not clean.
pub fn planted_operand_is_seen()
    ensures patched { shown (session true (3 ∷ []) operand_words [] operand_commands) ≡ record {
      frames = okays 0 ∷ okays 1 ∷ okays 2 ∷ okays 3 ∷ tells 2 2 ∷ sends 4 (0x82 ∷ 0x00 ∷ []) ∷ okays 5 ∷ [];
      counts = 6 ∷ 3 ∷ 0 ∷ 0 ∷ [];
      pages = pages_of operand_words ([] ∷ (1 ∷ []) ∷ [] ∷ []);
    } }
    ensures plain { shown (session false (3 ∷ []) operand_words [] operand_commands) ≡ record {
      frames = okays 0 ∷ okays 1 ∷ okays 2 ∷ okays 3 ∷ tells 2 2 ∷ sends 4 (0x82 ∷ 0x2a ∷ []) ∷ okays 5 ∷ [];
      counts = 6 ∷ 3 ∷ 0 ∷ 0 ∷ [];
      pages = pages_of operand_words ([] ∷ (1 ∷ []) ∷ [] ∷ []);
    } }
    ensures not_clean { clean_run small (run_of false (filled operand_words) (machine_start small) (1 ∷ []) []) false 3 ≡ false }
{}

/// No breakpoint is planted where a two-word instruction begins behind a skip; behind a skip of one word it is.
pub fn no_breakpoint_behind_a_skip()
    ensures two_words { (session true (1 ∷ []) (0xfd00 ∷ 0x9100 ∷ 0x0060 ∷ 0 ∷ []) [] (set_break 1 0 1 ∷ set_break 1 0 2 ∷
        set_break 1 0 3 ∷ sign_off ∷ [])).sent ≡ sends 0 (0xa8 ∷ []) ∷ okays 1 ∷ okays 2 ∷ okays 3 ∷ [] }
    ensures one_word { (session true (1 ∷ []) (0xfd00 ∷ 0 ∷ []) [] (set_break 1 0 1 ∷ sign_off ∷ [])).sent ≡ okays 0 ∷ okays 1 ∷ [] }
{}

/// A reset and single steps: each is answered and then told, and a word that does not run is not stepped.
pub fn reset_and_single_steps()
    ensures { (session true (1 ∷ []) (0xe001 ∷ 0x9598 ∷ 0xffff ∷ []) [] (single_step ∷ single_step ∷ single_step ∷ reset ∷ sign_off ∷
        [])).sent ≡ okays 0 ∷ tells 1 3 ∷ okays 1 ∷ tells 2 3 ∷ okays 2 ∷ tells 2 6 ∷ okays 3 ∷ tells 0 4 ∷ okays 4 ∷ [] }
{}

/// A comparator waits for a due interrupt too: the run stops at the vector, and at the comparator on return.
pub fn comparator_waits_for_an_interrupt()
    ensures { shown (session true (100 ∷ []) timer_words [] compare_commands) ≡ record {
      frames = okays 0 ∷ okays 1 ∷ okays 2 ∷ okays 3 ∷ okays 4 ∷ okays 5 ∷ okays 6 ∷ okays 7 ∷ okays 8 ∷ tells 0x01 1 ∷ okays 9 ∷
          tells 0x12 1 ∷ okays 10 ∷ tells 0x02 1 ∷ okays 11 ∷ tells 0x26 1 ∷ okays 12 ∷ [];
      counts = 15 ∷ 6 ∷ 0 ∷ 0 ∷ [];
      pages = pages_of timer_words ([] ∷ (1 ∷ 0x12 ∷ []) ∷ (0x12 ∷ []) ∷ (1 ∷ 0x12 ∷ []) ∷ (1 ∷ []) ∷ (1 ∷ 0x12 ∷ []) ∷ [] ∷ []);
    } }
{}

/// A run to an address stops there once: the address is planted for this run alone, and the next one goes on to a word that does
/// not run.
pub fn runs_to_an_address()
    ensures { shown (session true (100 ∷ []) (replicate 16 0) [] (run_to 8 ∷ go ∷ sign_off ∷ [])) ≡ record {
      frames = okays 0 ∷ tells 8 1 ∷ okays 1 ∷ tells 16 6 ∷ okays 2 ∷ [];
      counts = 16 ∷ 16 ∷ 0 ∷ 0 ∷ [];
      pages = pages_of (replicate 16 0) ([] ∷ (8 ∷ []) ∷ [] ∷ []);
    } }
{}

/// A code that is not known, a wrong length, a command that the mode does not allow, and what a command itself refuses; bytes
/// that are dropped are counted, and so are those held at the end.
pub fn refusals_in_their_order()
    ensures { shown (over_all true small (5 ∷ []) (request 0 unknown_code ∷ request 1 wrong_length ∷ request 2 (asks forced_stop) ∷
        dropped 11 ∷ request 3 (asks (read_memory 0xb0 1 0)) ∷ request 4 (asks (read_memory 0xa0 4097 0)) ∷
        request 5 (asks (read_memory 0xa0 1 128)) ∷ request 6 (asks (write_memory 0xa0 0 [])) ∷ request 7 (asks (write_pc 64)) ∷
        request 8 (asks (set_parameter 1 [])) ∷ []) (0x1b ∷ 0 ∷ []) (start_of port_words)) ≡ record {
          frames = sends 0 (0xaa ∷ []) ∷ sends 1 (0xa6 ∷ []) ∷ sends 2 (0xa5 ∷ []) ∷ sends 3 (0xa2 ∷ []) ∷ sends 4 (0xa3 ∷ []) ∷
              sends 5 (0xa3 ∷ []) ∷ sends 6 (0xa2 ∷ []) ∷ sends 7 (0xa3 ∷ []) ∷ sends 8 (0xa1 ∷ []) ∷ [];
          counts = 0 ∷ 0 ∷ 0 ∷ 13 ∷ [];
          pages = pages_of port_words ([] ∷ []);
        } }
{}

/// The session that steps over a breakpoint is clean; the one with a breakpoint on an operand is not, and the two debuggers
/// agree up to the reply that starts its run.
pub fn clean_sessions_are_real()
    ensures clean { clean_session small (100 ∷ 5 ∷ []) (numbered 0 port_commands) [] (start_of port_words) ≡ true }
    ensures unclean { clean_session small (3 ∷ []) (numbered 0 operand_commands) [] (start_of operand_words) ≡ false }
    ensures frames { clean_frames small (3 ∷ []) (numbered 0 operand_commands) [] (start_of operand_words) ≡ okays 0 ∷ okays 1 ∷
        okays 2 ∷ [] }
{}

/// A failed page write that leaves all the new words is answered alike; what is there already is not written again.
pub fn failed_writes_may_leave_new_words()
    ensures write_2 { shown (session true (100 ∷ 5 ∷ []) port_words (made ∷ leaves port_words (2 ∷ []) ∷ []) port_commands) ≡ record {
      frames = okays 0 ∷ sends 1 (0xa0 ∷ []) ∷ sends 2 port_bytes ∷ okays 3 ∷ tells 2 1 ∷ sends 4 (0xa5 ∷ []) ∷ okays 5 ∷ [];
      counts = 2 ∷ 2 ∷ 1 ∷ 0 ∷ [];
      pages = pages_of port_words ([] ∷ [] ∷ []);
    } }
    ensures write_3 { shown (session true (100 ∷ 5 ∷ []) port_words (made ∷ made ∷ made ∷ leaves port_words [] ∷
        []) port_commands) ≡ record {
          frames = okays 0 ∷ okays 1 ∷ tells 2 1 ∷ sends 2 port_bytes ∷ sends 3 (0xa0 ∷ []) ∷ sends 4 (0xa5 ∷ []) ∷ okays 5 ∷ [];
          counts = 2 ∷ 2 ∷ 1 ∷ 0 ∷ [];
          pages = pages_of port_words ([] ∷ (2 ∷ []) ∷ []);
        } }
    ensures write_4 { shown (session true (100 ∷ 5 ∷ []) port_words (made ∷ made ∷ made ∷ made ∷ made ∷ leaves port_words (2 ∷ []) ∷
        []) port_commands) ≡ record {
          frames = okays 0 ∷ okays 1 ∷ tells 2 1 ∷ sends 2 port_bytes ∷ okays 3 ∷ tells 3 7 ∷ sends 4 (0xa5 ∷ []) ∷ okays 5 ∷ [];
          counts = 3 ∷ 3 ∷ 2 ∷ 0 ∷ [];
          pages = pages_of port_words ([] ∷ (2 ∷ []) ∷ [] ∷ [] ∷ []);
        } }
{}

/// A launch that is denied is answered that it failed, and its breakpoints stay planted for the next one.
pub fn launch_may_be_denied()
    ensures { shown (session true (100 ∷ []) port_words (made ∷ made ∷ denied ∷ []) (set_break 1 0 2 ∷ go ∷ go ∷ sign_off ∷ [])) ≡ record {
      frames = okays 0 ∷ sends 1 (0xa0 ∷ []) ∷ okays 2 ∷ tells 2 1 ∷ okays 3 ∷ [];
      counts = 2 ∷ 2 ∷ 1 ∷ 0 ∷ [];
      pages = pages_of port_words ([] ∷ (2 ∷ []) ∷ [] ∷ []);
    } }
{}

/// A software breakpoint and a comparator are cleared where they are set, the comparator at whatever address; there are four
/// comparators. What is cleared stops no run.
pub fn breakpoints_are_cleared()
    ensures { shown (session true (5 ∷ []) port_words [] (set_break 1 0 2 ∷ clear_break 0 2 ∷ clear_break 0 2 ∷ set_break 1 4 2 ∷
        clear_break 4 9 ∷ clear_break 4 2 ∷ clear_break 5 2 ∷ go ∷ forced_stop ∷ sign_off ∷ [])) ≡ record {
          frames = okays 0 ∷ okays 1 ∷ sends 2 (0xa8 ∷ []) ∷ okays 3 ∷ okays 4 ∷ sends 5 (0xa8 ∷ []) ∷ sends 6 (0xa8 ∷ []) ∷ okays 7 ∷
              okays 8 ∷ tells 3 2 ∷ okays 9 ∷ [];
          counts = 7 ∷ 5 ∷ 2 ∷ 0 ∷ [];
          pages = pages_of port_words ([] ∷ []);
        } }
{}

/// A single step whose page write fails is not made, and the next one is.
pub fn single_step_may_fail()
    ensures { shown (session true (1 ∷ []) port_words (made ∷ leaves port_words [] ∷ []) (set_break 1 0 2 ∷ single_step ∷
        single_step ∷ sign_off ∷ [])) ≡ record {
          frames = okays 0 ∷ sends 1 (0xa0 ∷ []) ∷ okays 2 ∷ tells 1 3 ∷ okays 3 ∷ [];
          counts = 1 ∷ 1 ∷ 0 ∷ 0 ∷ [];
          pages = pages_of port_words ([] ∷ (2 ∷ []) ∷ [] ∷ []);
        } }
{}

/// The program counter is written, up to the last word of the flash, and so is a parameter: both are read again, and a step goes
/// on from there.
pub fn what_is_written_is_read()
    ensures { shown (session true (1 ∷ []) port_words [] (write_pc 63 ∷ read_pc ∷ write_pc 2 ∷ read_pc ∷
        set_parameter 0x05 (0x07 ∷ []) ∷ get_parameter 0x05 ∷ single_step ∷ sign_off ∷ [])) ≡ record {
          frames = okays 0 ∷ sends 1 (0x84 ∷ 63 ∷ 0 ∷ 0 ∷ 0 ∷ []) ∷ okays 2 ∷ sends 3 (0x84 ∷ 2 ∷ 0 ∷ 0 ∷ 0 ∷ []) ∷ okays 4 ∷
              sends 5 (0x81 ∷ 0x07 ∷ []) ∷ okays 6 ∷ tells 3 3 ∷ okays 7 ∷ [];
          counts = 1 ∷ 1 ∷ 1 ∷ 0 ∷ [];
          pages = pages_of port_words ([] ∷ []);
        } }
{}
