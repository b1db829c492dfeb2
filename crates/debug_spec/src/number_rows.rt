//! Sessions at the limits of numbers, worked by hand, as laws: each function is empty, and its contract says what the definitions
//! compute.

ghost use Rattle.std.specs.Prelude.{◌≡◌, ℕ, ◌%◌, List, [], ◌∷◌, ◌++◌, length, replicate};
ghost use Rattle.avr_spec.specs.declared.target.OutWrite.{OutWrite};
ghost use Rattle.avr_spec.specs.Kept.{total_of};
ghost use Rattle.line_spec.specs.Messages.{set_break, clear_break, go, run_to, read_memory, write_memory, sign_off};
ghost use Rattle.debug_spec.specs.Debugger.{Debugger};
ghost use Rattle.debug_spec.specs.Replay.{totals};
ghost use Rattle.debug_spec.specs.inside.Examples.{small, sends, okays, tells, shown};
ghost use Rattle.debug_spec.specs.inside.NumberExamples.{two_pages, nop_session, breaks_from, okays_from, page_write};
ghost use Rattle.debug_spec.specs.inside.NumberExamples.{cycles_and_steps, stepped_from};

/// There are 64 software breakpoints: one more is refused, and one of the 64 may be set again. The address of a run to an address
/// is planted beside them and does not count.
pub fn breakpoints_are_64()
    ensures { shown (nop_session two_pages (100 ∷ []) (breaks_from 64 64 ++
        (set_break 1 0 8 ∷ set_break 1 0 64 ∷ set_break 1 0 127 ∷ run_to 8 ∷ sign_off ∷ []))) ≡ record {
          frames = okays_from 0 64 ++ (sends 64 (0xa8 ∷ []) ∷ okays 65 ∷ okays 66 ∷ okays 67 ∷ tells 8 1 ∷ okays 68 ∷ []);
          counts = 8 ∷ 8 ∷ 0 ∷ 0 ∷ [];
          pages = page_write 0 (replicate 8 0 ++ (0x9598 ∷ replicate 55 0)) ∷ page_write 1 (replicate 64 0x9598) ∷
              page_write 0 (replicate 64 0) ∷ page_write 1 (replicate 64 0) ∷ [];
        } }
{}

/// There are four comparators, the numbers 1 to 4: each stops a run and writes no page, and a number above 4 is refused, to be set
/// and to be cleared.
pub fn comparators_are_four()
    ensures { shown (nop_session small (100 ∷ []) (set_break 1 1 2 ∷ set_break 1 2 4 ∷ set_break 1 3 6 ∷ set_break 1 4 8 ∷
        set_break 1 5 10 ∷ set_break 1 255 10 ∷ go ∷ go ∷ go ∷ go ∷ clear_break 5 10 ∷ clear_break 255 8 ∷ clear_break 4 8 ∷ sign_off ∷ []))
        ≡ record {
          frames = okays_from 0 4 ++ (sends 4 (0xa8 ∷ []) ∷ sends 5 (0xa8 ∷ []) ∷ okays 6 ∷ tells 2 1 ∷ okays 7 ∷ tells 4 1 ∷ okays 8 ∷
              tells 6 1 ∷ okays 9 ∷ tells 8 1 ∷ sends 10 (0xa8 ∷ []) ∷ sends 11 (0xa8 ∷ []) ∷ okays 12 ∷ okays 13 ∷ []);
          counts = 8 ∷ 8 ∷ 0 ∷ 0 ∷ [];
          pages = [];
        } }
{}

/// The I/O space has 64 bytes: its last is written and read, and nothing behind it.
pub fn io_bytes_are_64()
    ensures { (nop_session small (1 ∷ []) (write_memory 0x30 63 (0x41 ∷ []) ∷ read_memory 0x30 1 63 ∷ read_memory 0x30 1 64 ∷
        read_memory 0x30 2 63 ∷ write_memory 0x30 64 (1 ∷ []) ∷ write_memory 0x30 63 (1 ∷ 1 ∷ []) ∷ read_memory 0x30 1 63 ∷ [])).sent
        ≡ okays 0 ∷ sends 1 (0x82 ∷ 0x41 ∷ []) ∷ sends 2 (0xa3 ∷ []) ∷ sends 3 (0xa3 ∷ []) ∷ sends 4 (0xa3 ∷ []) ∷ sends 5 (0xa3 ∷ []) ∷
        sends 6 (0x82 ∷ 0x41 ∷ []) ∷ [] }
{}

/// The data space has 65,536 bytes: behind the SRAM they are written with no effect and read as 0, and behind them is nothing.
pub fn data_bytes_are_65536()
    ensures { (nop_session small (1 ∷ []) (write_memory 0x20 65535 (0x41 ∷ []) ∷ read_memory 0x20 1 65535 ∷ read_memory 0x20 1 65536 ∷
        read_memory 0x20 2 65535 ∷ write_memory 0x20 65536 (1 ∷ []) ∷ write_memory 0x20 65535 (1 ∷ 1 ∷ []) ∷ [])).sent
        ≡ okays 0 ∷ sends 1 (0x82 ∷ 0 ∷ []) ∷ sends 2 (0xa3 ∷ []) ∷ sends 3 (0xa3 ∷ []) ∷ sends 4 (0xa3 ∷ []) ∷ sends 5 (0xa3 ∷ []) ∷ [] }
{}

/// One read gives at most 4,096 bytes.
pub fn bytes_of_one_read_are_4096()
    ensures { (nop_session small (1 ∷ []) (read_memory 0x20 4096 61440 ∷ read_memory 0x20 4097 0 ∷ [])).sent
        ≡ sends 0 (0x82 ∷ replicate 4096 0) ∷ sends 1 (0xa3 ∷ []) ∷ [] }
{}

/// The counts of cycles, of steps and of output writes are those that were, modulo 2^64: behind the last number a NOP leads to 0, and
/// the second cycle of an RJMP to 1.
pub fn counts_are_modulo_two_to_the_64()
    ensures one_cycle { cycles_and_steps (stepped_from 18446744073709551615 18446744073709551615 0) ≡ 0 ∷ 0 ∷ [] }
    ensures two_cycles { cycles_and_steps (stepped_from 18446744073709551615 7 0xcfff) ≡ 1 ∷ 8 ∷ [] }
    ensures outputs { (outputs : List OutWrite) → total_of outputs ≡ length outputs % 18446744073709551616 }
    ensures writes { (s : Debugger) → (totals s).writes ≡ length s.machine.io.outputs % 18446744073709551616 }
{}
