//! Values worked by hand from the tables of the protocol, as laws: each function is empty, and its contract says what the definitions
//! compute.
ghost use Rattle.std.specs.Prelude.{◌≡◌, [], ◌∷◌, map, Ok, Err};
ghost use Rattle.line_spec.specs.declared.refusal.Refusal.TheVariants.{IllegalParameter, IllegalValue};
ghost use Rattle.line_spec.specs.Frames.{body_limit};
ghost use Rattle.line_spec.specs.Messages.{memory_limit, sign_off, get_sign_on, set_parameter, get_parameter, write_memory, read_memory};
ghost use Rattle.line_spec.specs.Messages.{write_pc, read_pc, go, single_step, forced_stop, reset, set_device_descriptor, erase_page};
ghost use Rattle.line_spec.specs.Messages.{get_sync, set_break, chip_erase, enter_programming, leave_programming, clear_break, run_to};
ghost use Rattle.line_spec.specs.Messages.{clear_events};
ghost use Rattle.line_spec.specs.Examples.{own_body, write_answer, read_at_start};

/// A body has at most 4,106 bytes, and one read at most 4,096.
pub fn limits_of_a_body()
    ensures body { body_limit ≡ 4106 }
    ensures memory { memory_limit ≡ 4096 }
{}

/// The body of each command, with its numbers low byte first.
pub fn bodies_of_commands()
    ensures alone { map own_body (sign_off ∷ get_sign_on ∷ read_pc ∷ go ∷ single_step ∷ forced_stop ∷ reset ∷ get_sync ∷ chip_erase ∷
        enter_programming ∷ leave_programming ∷ clear_events ∷ [])
        ≡ (0x00 ∷ []) ∷ (0x01 ∷ []) ∷ (0x07 ∷ []) ∷ (0x08 ∷ []) ∷ (0x09 ∷ []) ∷ (0x0a ∷ 0x01 ∷ []) ∷ (0x0b ∷ 0x01 ∷ []) ∷ (0x0f ∷ []) ∷
        (0x13 ∷ []) ∷ (0x14 ∷ []) ∷ (0x15 ∷ []) ∷ (0x22 ∷ []) ∷ [] }
    ensures addressed { map own_body (write_pc 0x1234 ∷ erase_page 0x3f80 ∷ set_break 1 2 0x1234 ∷ clear_break 2 0x1234 ∷
        run_to 0x12345678 ∷ [])
        ≡ (0x06 ∷ 0x34 ∷ 0x12 ∷ 0 ∷ 0 ∷ []) ∷ (0x0d ∷ 0x80 ∷ 0x3f ∷ 0 ∷ 0 ∷ []) ∷ (0x11 ∷ 1 ∷ 2 ∷ 0x34 ∷ 0x12 ∷ 0 ∷ 0 ∷ 0 ∷ []) ∷
        (0x1a ∷ 2 ∷ 0x34 ∷ 0x12 ∷ 0 ∷ 0 ∷ []) ∷ (0x1c ∷ 0x78 ∷ 0x56 ∷ 0x34 ∷ 0x12 ∷ []) ∷ [] }
    ensures with_bytes { map own_body (set_parameter 5 (8 ∷ []) ∷ get_parameter 0x1a ∷ set_device_descriptor (1 ∷ 2 ∷ 3 ∷ []) ∷
        write_memory 0x20 0x60 (0x2a ∷ 0x2b ∷ []) ∷ read_memory 0xa0 0x1000 0x0180 ∷ [])
        ≡ (0x02 ∷ 5 ∷ 8 ∷ []) ∷ (0x03 ∷ 0x1a ∷ []) ∷ (0x0c ∷ 1 ∷ 2 ∷ 3 ∷ []) ∷
        (0x04 ∷ 0x20 ∷ 2 ∷ 0 ∷ 0 ∷ 0 ∷ 0x60 ∷ 0 ∷ 0 ∷ 0 ∷ 0x2a ∷ 0x2b ∷ []) ∷
        (0x05 ∷ 0xa0 ∷ 0x00 ∷ 0x10 ∷ 0 ∷ 0 ∷ 0x80 ∷ 0x01 ∷ 0 ∷ 0 ∷ []) ∷ [] }
{}

/// What each parameter reads at the start, with the state of the target among them; an id with no parameter is refused.
pub fn parameters_of_the_start()
    ensures { read_at_start 2 (0x01 ∷ 0x02 ∷ 0x03 ∷ 0x05 ∷ 0x06 ∷ 0x07 ∷ 0x09 ∷ 0x13 ∷ 0x14 ∷ 0x15 ∷ 0x1a ∷ 0x1b ∷ 0x1c ∷ 0x04 ∷ [])
        ≡ Ok (1 ∷ 1 ∷ []) ∷ Ok (0 ∷ 6 ∷ 0 ∷ 6 ∷ []) ∷ Ok (1 ∷ []) ∷ Ok (4 ∷ []) ∷ Ok (0x88 ∷ 0x13 ∷ []) ∷ Ok (4 ∷ []) ∷ Ok (0 ∷ []) ∷
        Ok (0 ∷ []) ∷ Ok (0x80 ∷ 0 ∷ []) ∷ Ok (4 ∷ []) ∷ Ok (2 ∷ []) ∷ Ok (0 ∷ 0 ∷ 0 ∷ 0 ∷ []) ∷ Ok (0 ∷ 0 ∷ 0 ∷ 0 ∷ []) ∷
        Err IllegalParameter ∷ [] }
{}

/// Which values may be written: none to a parameter that is read-only, also not the one that it has; of the others the least and
/// the most, and nothing beyond them or of another size.
pub fn writes_of_parameters()
    ensures read_only { write_answer 0x01 (1 ∷ 1 ∷ []) ∷ write_answer 0x02 (0 ∷ 6 ∷ 0 ∷ 6 ∷ []) ∷ write_answer 0x06 (0x88 ∷ 0x13 ∷ []) ∷
        write_answer 0x1a (0 ∷ []) ∷ write_answer 0x04 (0 ∷ []) ∷ []
        ≡ (IllegalParameter ∷ []) ∷ (IllegalParameter ∷ []) ∷ (IllegalParameter ∷ []) ∷ (IllegalParameter ∷ []) ∷
        (IllegalParameter ∷ []) ∷ [] }
    ensures accepted { map (write_answer 0x05) ((1 ∷ []) ∷ (8 ∷ []) ∷ []) ∷ map (write_answer 0x09) ((0 ∷ []) ∷ (1 ∷ []) ∷ []) ∷
        map (write_answer 0x13) ((0 ∷ []) ∷ (1 ∷ []) ∷ []) ∷ map (write_answer 0x07) ((0 ∷ []) ∷ (0xff ∷ []) ∷ []) ∷
        map (write_answer 0x15) ((0 ∷ []) ∷ (0xff ∷ []) ∷ []) ∷ map (write_answer 0x14) ((0 ∷ 0 ∷ []) ∷ (0xff ∷ 0xff ∷ []) ∷ []) ∷
        map (write_answer 0x1c) ((0 ∷ 0 ∷ 0 ∷ 0 ∷ []) ∷ (0xff ∷ 0xff ∷ 0xff ∷ 0xff ∷ []) ∷ []) ∷
        map (write_answer 0x03) ((1 ∷ []) ∷ (1 ∷ []) ∷ []) ∷ map (write_answer 0x1b) ((0 ∷ 0 ∷ 0 ∷ 0 ∷ []) ∷ (0 ∷ 0 ∷ 0 ∷ 0 ∷ []) ∷ []) ∷ []
        ≡ ([] ∷ [] ∷ []) ∷ ([] ∷ [] ∷ []) ∷ ([] ∷ [] ∷ []) ∷ ([] ∷ [] ∷ []) ∷ ([] ∷ [] ∷ []) ∷ ([] ∷ [] ∷ []) ∷ ([] ∷ [] ∷ []) ∷
        ([] ∷ [] ∷ []) ∷ ([] ∷ [] ∷ []) ∷ [] }
    ensures refused { write_answer 0x05 (0 ∷ []) ∷ write_answer 0x05 (9 ∷ []) ∷ write_answer 0x09 (2 ∷ []) ∷ write_answer 0x13 (2 ∷ []) ∷
        write_answer 0x03 (0 ∷ []) ∷ write_answer 0x03 (2 ∷ []) ∷ write_answer 0x1b (0 ∷ 0 ∷ 0 ∷ 1 ∷ []) ∷ write_answer 0x07 [] ∷
        write_answer 0x14 (0 ∷ []) ∷ []
        ≡ (IllegalValue ∷ []) ∷ (IllegalValue ∷ []) ∷ (IllegalValue ∷ []) ∷ (IllegalValue ∷ []) ∷ (IllegalValue ∷ []) ∷
        (IllegalValue ∷ []) ∷ (IllegalValue ∷ []) ∷ (IllegalValue ∷ []) ∷ (IllegalValue ∷ []) ∷ [] }
{}
