//! Made sessions and their summaries worked by hand, as laws: each function is empty, and its contract says what the definitions
//! compute.
ghost use Rattle.std.specs.Prelude.{◌≡◌, ℕ, true, [], ◌∷◌, ◌++◌, codes};
ghost use Rattle.part_spec.specs.Chip.{m16};
ghost use Rattle.line_spec.specs.Messages.{single_step, go, forced_stop, get_sync, set_break, clear_break, read_memory, read_pc, sign_off};
ghost use Rattle.debug_spec.specs.Device.{Device};
ghost use Rattle.debug_spec.specs.inside.Examples.{erased_device, small};
ghost use Rattle.shell_spec.specs.Generator.{made_commands, made_summary};

/// The commands that follow from a seed, and the end of the session behind them.
pub fn commands_of_a_seed()
    ensures first { made_commands 7 4 ≡ forced_stop ∷ single_step ∷ go ∷ forced_stop ∷ sign_off ∷ [] }
    ensures addressed { made_commands 0 6 ≡ go ∷ read_pc ∷ single_step ∷ set_break 1 0 1 ∷ set_break 1 0 1 ∷ read_pc ∷ sign_off ∷ [] }
    ensures others { made_commands 1 11 ≡ go ∷ read_memory 0x20 0x10 0x10 ∷ single_step ∷ go ∷ go ∷ read_memory 0x20 0x10 0x10 ∷
        read_memory 0x20 0x10 0x10 ∷ read_memory 0x20 0x10 0x10 ∷ go ∷ clear_break 0 2 ∷ get_sync ∷ sign_off ∷ [] }
{}

/// The summaries of the shortest made sessions, on every device: the reply to the end of the session alone, and one refusal before it.
pub fn generated_summaries()
    ensures none { (device : Device) → made_summary true m16 7 0 device
        ≡ codes "frames 1 replies 1 events 0 check 8b8f" ++ 10 ∷ [] }
    ensures one { (device : Device) → made_summary true m16 7 1 device
        ≡ codes "frames 2 replies 2 events 0 check a5f7" ++ 10 ∷ [] }
{}

/// A summary counts events apart, and its check is over the bodies of both, in the order in which they were sent: `80`, the event of a
/// single step to word 1, and `80`.
pub fn summary_with_an_event()
    ensures { made_summary true small 47 1 (erased_device small []) ≡ codes "frames 2 replies 2 events 1 check 3fbd" ++ 10 ∷ [] }
{}
