//! Values worked by hand from the tables of the shell, as laws: each function is empty, and its contract says what the definitions
//! compute.
ghost use Rattle.std.specs.Prelude.{◌≡◌, [], ◌∷◌, ◌++◌, codes, map, replicate, Ok, Err};
ghost use Rattle.line_spec.specs.Messages.{break_at, okay, parameter, memory, program_counter, signed_on, refused, own_head, own_name};
ghost use Rattle.line_spec.specs.declared.refusal.Refusal.TheVariants.{IllegalMcuState};
ghost use Rattle.shell_spec.specs.declared.error.LineError.TheVariants.{Long, Unknown, Missing, Value, Extra};
ghost use Rattle.shell_spec.specs.Lines.{sign, get, set, read, write, pc, pc_to, break, break_at as break_numbered, clear_at, go};
ghost use Rattle.shell_spec.specs.Lines.{quit, prog, erase, erase_at, nothing};
ghost use Rattle.shell_spec.specs.Reading.{reading};
ghost use Rattle.shell_spec.specs.Printed.{address_text, answer_text, error_text, event_text};

/// Lines of each kind of form: with no operand, with numbers, with a memory, and with digits of bytes.
pub fn lines_of_each_form()
    ensures { map reading (codes "sign" ∷ codes "get 1a" ∷ codes "set 5 08" ∷ codes "read flash 0 8" ∷ codes "write sram 60 2A2b" ∷
        codes "pc" ∷ codes "pc 1FFF" ∷ codes "break 2" ∷ codes "break 26 1" ∷ codes "clear 40 0" ∷ codes "erase" ∷ codes "erase 3f80" ∷
        codes "prog" ∷ codes "read sig 0 3" ∷ codes "quit" ∷ [])
        ≡ Ok sign ∷ Ok (get 0x1a) ∷ Ok (set 5 (codes "08")) ∷ Ok (read 0xa0 0 8) ∷ Ok (write 0x20 0x60 (codes "2A2b")) ∷
        Ok pc ∷ Ok (pc_to 0x1fff) ∷ Ok (break 2) ∷ Ok (break_numbered 0x26 1) ∷ Ok (clear_at 0x40 0) ∷ Ok erase ∷ Ok (erase_at 0x3f80) ∷
        Ok prog ∷ Ok (read 0xb4 0 3) ∷ Ok quit ∷ [] }
{}

/// An empty line, blanks, and a remark, also behind blanks, do nothing.
pub fn lines_that_do_nothing()
    ensures { map reading ([] ∷ codes "  " ∷ (9 ∷ []) ∷ codes "# go" ∷ codes "  #" ∷ (13 ∷ 10 ∷ []) ∷ [])
        ≡ Ok nothing ∷ Ok nothing ∷ Ok nothing ∷ Ok nothing ∷ Ok nothing ∷ Ok nothing ∷ [] }
{}

/// A line feed ends a line, with or without a carriage return before it; a carriage return alone is a byte of the word.
pub fn lines_with_an_end()
    ensures { map reading ((codes "go" ++ 10 ∷ []) ∷ (codes "go" ++ 13 ∷ 10 ∷ []) ∷ (codes "go" ++ 13 ∷ []) ∷
        (codes "break" ++ 13 ∷ 10 ∷ []) ∷ (9 ∷ codes "pc" ++ 9 ∷ 32 ∷ codes "5" ++ 9 ∷ []) ∷ [])
        ≡ Ok go ∷ Ok go ∷ Err (Unknown 1) ∷ Err (Missing 6) ∷ Ok (pc_to 5) ∷ [] }
{}

/// What is wrong with a line is told at its first wrong place.
pub fn lines_that_are_wrong()
    ensures { map reading (codes "brake 2" ∷ codes "break" ∷ codes "break 2 5 7" ∷ codes "set 5 8" ∷ codes " break 2  zz" ∷
        codes "get 100" ∷ codes "write flash 0 00" ∷ codes "read sram 0 1001" ∷ codes "pc 123456789" ∷
        codes "read sram 0 " ∷ codes "page 0 00" ∷
        codes "go 1" ∷ codes "Go" ∷ replicate 321 32 ∷ [])
        ≡ Err (Unknown 1) ∷ Err (Missing 6) ∷ Err (Extra 11) ∷ Err (Value 7) ∷ Err (Value 11) ∷ Err (Value 5) ∷
        Err (Value 7) ∷ Err (Value 13) ∷ Err (Value 4) ∷ Err (Missing 13) ∷ Err (Value 8) ∷
        Err (Extra 4) ∷ Err (Unknown 1) ∷ Err Long ∷ [] }
{}

/// The longest line has 320 bytes.
pub fn longest_line()
    ensures { reading (replicate 318 32 ++ codes "go" ++ 13 ∷ 10 ∷ []) ≡ Ok go }
{}

/// What is printed for a line that is wrong, and for an event.
pub fn texts_of_errors_and_events()
    ensures errors { map error_text (Long ∷ Unknown 1 ∷ Missing 6 ∷ Value 7 ∷ Extra 320 ∷ [])
        ≡ (codes "? long" ++ 10 ∷ []) ∷ (codes "? unknown 1" ++ 10 ∷ []) ∷ (codes "? missing 6" ++ 10 ∷ []) ∷
        (codes "? value 7" ++ 10 ∷ []) ∷ (codes "? extra 320" ++ 10 ∷ []) ∷ [] }
    ensures events { event_text (break_at 2 1) ≡ codes "event 0002 cause 01" ++ 10 ∷ [] }
{}

/// What is printed for an answer.
pub fn texts_of_answers()
    ensures short { map (answer_text 0) (okay ∷ parameter (0x88 ∷ 0x13 ∷ []) ∷ program_counter 2 ∷ signed_on own_head own_name ∷
        refused IllegalMcuState ∷ memory [] ∷ [])
        ≡ (codes "ok" ++ 10 ∷ []) ∷ (codes "value 8813" ++ 10 ∷ []) ∷ (codes "pc 0002" ++ 10 ∷ []) ∷ (codes "sign JTAGICEmkII" ++ 10 ∷ []) ∷
        (codes "refused a5" ++ 10 ∷ []) ∷ [] ∷ [] }
    ensures dumped { answer_text 0 (memory (0x01 ∷ 0xe0 ∷ 0x07 ∷ 0xbb ∷ 0x08 ∷ 0xbb ∷ 0xff ∷ 0xcf ∷ []))
        ≡ codes "0000 01e007bb08bbffcf" ++ 10 ∷ [] }
    ensures lines { answer_text 0xfffffff0 (memory (replicate 17 0xff))
        ≡ codes "fffffff0 ffffffffffffffffffffffffffffffff" ++ 10 ∷ codes "0000 ff" ++ 10 ∷ [] }
    ensures addresses { map address_text (0 ∷ 0x1fff ∷ 0x12345 ∷ 0xffffffff ∷ [])
        ≡ codes "0000" ∷ codes "1fff" ∷ codes "12345" ∷ codes "ffffffff" ∷ [] }
{}
