//! Sessions in which the flash is programmed, on parts of one page and of two.

ghost use Rattle.std.specs.Prelude.{◌≡◌, true, false, List, [], ◌∷◌, ◌++◌, replicate};
ghost use Rattle.line_spec.specs.Messages.{sign_off, set_parameter, get_parameter, write_memory, read_memory, write_pc, read_pc};
ghost use Rattle.line_spec.specs.Messages.{go, single_step, forced_stop, reset, set_device_descriptor, erase_page, get_sync};
ghost use Rattle.line_spec.specs.Messages.{set_break, chip_erase, enter_programming, leave_programming, clear_break, run_to};
ghost use Rattle.line_spec.specs.Messages.{clear_events};
ghost use Rattle.debug_spec.specs.Device.{made};
ghost use Rattle.debug_spec.specs.Debugger.{closed};
ghost use Rattle.debug_spec.specs.inside.Examples.{session, session_on_two, sends, okays, tells, shown, pages_of, port_words};
ghost use Rattle.debug_spec.specs.inside.Examples.{port_bytes, port_page, half_erased, loaded, cleared, leaves};

/// The flash is erased: the signature and the fuses are read, the state of the target is told, and a run is refused.
pub fn flash_is_erased()
    ensures { shown (session true (1 ∷ []) port_words [] (enter_programming ∷ read_memory 0xb4 3 0 ∷ read_memory 0xb2 3 0 ∷
        get_parameter 0x1a ∷ go ∷ chip_erase ∷ read_memory 0xa0 2 0 ∷ leave_programming ∷ sign_off ∷ [])) ≡ record {
          frames = okays 0 ∷ sends 1 (0x82 ∷ 0x1e ∷ 0x94 ∷ 0x03 ∷ []) ∷ sends 2 (0x82 ∷ 0xe1 ∷ 0x99 ∷ 0xff ∷ []) ∷
              sends 3 (0x81 ∷ 0x02 ∷ []) ∷ sends 4 (0xa5 ∷ []) ∷ okays 5 ∷ sends 6 (0x82 ∷ 0xff ∷ 0xff ∷ []) ∷ okays 7 ∷ okays 8 ∷ [];
          counts = 0 ∷ 0 ∷ 0 ∷ 0 ∷ [];
          pages = loaded 0 ∷ cleared 0 ∷ [];
        } }
{}

/// Where the erasing fails the program keeps its words, and the closing restore writes them again.
pub fn failed_erasing_keeps_the_program()
    ensures { shown (session true (1 ∷ []) port_words (made ∷ half_erased ∷ []) (enter_programming ∷ chip_erase ∷ leave_programming ∷
        sign_off ∷ [])) ≡ record {
          frames = okays 0 ∷ sends 1 (0xa0 ∷ []) ∷ okays 2 ∷ okays 3 ∷ [];
          counts = 0 ∷ 0 ∷ 0 ∷ 0 ∷ [];
          pages = loaded 0 ∷ loaded 0 ∷ [];
        } }
{}

/// A program that was written runs, and meets its breakpoint.
pub fn programmed_words_run()
    ensures { shown (session true (100 ∷ []) [] [] (enter_programming ∷ write_memory 0xb0 0 port_page ∷ leave_programming ∷
        set_break 1 0 2 ∷ go ∷ sign_off ∷ [])) ≡ record {
          frames = okays 0 ∷ okays 1 ∷ okays 2 ∷ okays 3 ∷ okays 4 ∷ tells 2 1 ∷ okays 5 ∷ [];
          counts = 2 ∷ 2 ∷ 1 ∷ 0 ∷ [];
          pages = pages_of port_words ([] ∷ (2 ∷ []) ∷ [] ∷ []);
        } }
{}

/// The program is written in whole pages alone, in the flash alone, and no other memory is written; a page is erased by any of its
/// addresses.
pub fn pages_are_whole()
    ensures writes { shown (session true (1 ∷ []) port_words [] (enter_programming ∷ write_memory 0xb0 0x40 port_page ∷
        write_memory 0xb0 0x40 [] ∷ write_memory 0xb0 0 (replicate 64 0xff) ∷ write_memory 0xb0 128 port_page ∷
        write_memory 0xb0 0 [] ∷ write_memory 0xb2 0 (0xff ∷ []) ∷ write_memory 0xb3 0 (0xff ∷ []) ∷
        write_memory 0xb4 0 (0xff ∷ []) ∷ write_memory 0xa0 0 port_page ∷ sign_off ∷ [])) ≡ record {
          frames = okays 0 ∷ sends 1 (0xa3 ∷ []) ∷ sends 2 (0xa3 ∷ []) ∷ sends 3 (0xa3 ∷ []) ∷ sends 4 (0xa3 ∷ []) ∷ okays 5 ∷
              sends 6 (0xa2 ∷ []) ∷ sends 7 (0xa2 ∷ []) ∷ sends 8 (0xa2 ∷ []) ∷ sends 9 (0xa2 ∷ []) ∷ okays 10 ∷ [];
          counts = 0 ∷ 0 ∷ 0 ∷ 0 ∷ [];
          pages = loaded 0 ∷ [];
        } }
    ensures erasing { shown (session true (1 ∷ []) port_words [] (enter_programming ∷ erase_page 128 ∷ read_memory 0xb0 2 0 ∷
        erase_page 127 ∷ read_memory 0xb0 2 0 ∷ sign_off ∷ [])) ≡ record {
          frames = okays 0 ∷ sends 1 (0xa3 ∷ []) ∷ sends 2 (0x82 ∷ 0x01 ∷ 0xe0 ∷ []) ∷ okays 3 ∷ sends 4 (0x82 ∷ 0xff ∷ 0xff ∷ []) ∷
              okays 5 ∷ [];
          counts = 0 ∷ 0 ∷ 0 ∷ 0 ∷ [];
          pages = loaded 0 ∷ cleared 0 ∷ [];
        } }
{}

/// Pages are programmed in rising order, up to the first that fails: those before it are programmed then, in the program too, and
/// it and those behind it are not. One page is programmed alone.
pub fn pages_are_programmed_in_order()
    ensures one_page { shown (session_on_two [] (enter_programming ∷ erase_page 128 ∷ read_memory 0xb0 2 0 ∷ read_memory 0xb0 2 128 ∷
        erase_page 127 ∷ read_memory 0xb0 2 0 ∷ write_memory 0xb0 128 port_page ∷ read_memory 0xb0 2 0 ∷ read_memory 0xb0 2 128 ∷
        sign_off ∷ [])) ≡ record {
          frames = okays 0 ∷ okays 1 ∷ sends 2 (0x82 ∷ 0x01 ∷ 0xe0 ∷ []) ∷ sends 3 (0x82 ∷ 0xff ∷ 0xff ∷ []) ∷ okays 4 ∷
              sends 5 (0x82 ∷ 0xff ∷ 0xff ∷ []) ∷ okays 6 ∷ sends 7 (0x82 ∷ 0xff ∷ 0xff ∷ []) ∷ sends 8 (0x82 ∷ 0x01 ∷ 0xe0 ∷ []) ∷
              okays 9 ∷ [];
          counts = 0 ∷ 0 ∷ 0 ∷ 0 ∷ [];
          pages = loaded 0 ∷ loaded 1 ∷ cleared 1 ∷ cleared 0 ∷ loaded 1 ∷ [];
        } }
    ensures second_fails { shown (session_on_two (made ∷ made ∷ made ∷ half_erased ∷ []) (enter_programming ∷ chip_erase ∷
        read_memory 0xb0 2 0 ∷ read_memory 0xb0 2 128 ∷ erase_page 255 ∷ read_memory 0xa0 2 128 ∷ write_memory 0xb0 128 port_page ∷
        read_memory 0xb0 2 128 ∷ read_memory 0xb0 2 0 ∷ sign_off ∷ [])) ≡ record {
          frames = okays 0 ∷ sends 1 (0xa0 ∷ []) ∷ sends 2 (0x82 ∷ 0xff ∷ 0xff ∷ []) ∷ sends 3 (0x82 ∷ 0x01 ∷ 0xe0 ∷ []) ∷ okays 4 ∷
              sends 5 (0x82 ∷ 0xff ∷ 0xff ∷ []) ∷ okays 6 ∷ sends 7 (0x82 ∷ 0x01 ∷ 0xe0 ∷ []) ∷ sends 8 (0x82 ∷ 0xff ∷ 0xff ∷ []) ∷
              okays 9 ∷ [];
          counts = 0 ∷ 0 ∷ 0 ∷ 0 ∷ [];
          pages = loaded 0 ∷ loaded 1 ∷ cleared 0 ∷ cleared 1 ∷ loaded 1 ∷ [];
        } }
    ensures first_fails { shown (session_on_two (made ∷ made ∷ half_erased ∷ []) (enter_programming ∷ chip_erase ∷
        read_memory 0xb0 2 0 ∷ read_memory 0xb0 2 128 ∷ write_memory 0xb0 0 (port_page ++ replicate 128 0xff) ∷
        read_memory 0xb0 2 0 ∷ read_memory 0xb0 2 128 ∷ sign_off ∷ [])) ≡ record {
          frames = okays 0 ∷ sends 1 (0xa0 ∷ []) ∷ sends 2 (0x82 ∷ 0x01 ∷ 0xe0 ∷ []) ∷ sends 3 (0x82 ∷ 0x01 ∷ 0xe0 ∷ []) ∷ okays 4 ∷
              sends 5 (0x82 ∷ 0x01 ∷ 0xe0 ∷ []) ∷ sends 6 (0x82 ∷ 0xff ∷ 0xff ∷ []) ∷ okays 7 ∷ [];
          counts = 0 ∷ 0 ∷ 0 ∷ 0 ∷ [];
          pages = loaded 0 ∷ loaded 1 ∷ loaded 0 ∷ cleared 1 ∷ [];
        } }
{}

/// While the flash is programmed what moves or shows the target is refused, and so are breakpoints and entering anew; the rest is
/// answered as ever.
pub fn programming_allows_little()
    ensures { shown (session true (1 ∷ []) port_words [] (enter_programming ∷ write_pc 0 ∷ read_pc ∷ go ∷ single_step ∷ forced_stop ∷
        reset ∷ set_break 1 0 2 ∷ enter_programming ∷ clear_break 0 2 ∷ run_to 2 ∷ get_sync ∷ set_parameter 0x05 (0x07 ∷ []) ∷
        get_parameter 0x05 ∷ set_device_descriptor [] ∷ clear_events ∷ sign_off ∷ [])) ≡ record {
          frames = okays 0 ∷ sends 1 (0xa5 ∷ []) ∷ sends 2 (0xa5 ∷ []) ∷ sends 3 (0xa5 ∷ []) ∷ sends 4 (0xa5 ∷ []) ∷
              sends 5 (0xa5 ∷ []) ∷ sends 6 (0xa5 ∷ []) ∷ sends 7 (0xa5 ∷ []) ∷ sends 8 (0xa5 ∷ []) ∷ sends 9 (0xa5 ∷ []) ∷
              sends 10 (0xa5 ∷ []) ∷ okays 11 ∷ okays 12 ∷ sends 13 (0x81 ∷ 0x07 ∷ []) ∷ okays 14 ∷ okays 15 ∷ okays 16 ∷ [];
          counts = 0 ∷ 0 ∷ 0 ∷ 0 ∷ [];
          pages = loaded 0 ∷ [];
        } }
{}

/// Outside of it the flash is not programmed, and while a run is out it is not entered.
pub fn only_programming_programs()
    ensures stopped { shown (session true (1 ∷ []) port_words [] (erase_page 0 ∷ chip_erase ∷ leave_programming ∷
        write_memory 0xb0 0 (replicate 128 0xff) ∷ sign_off ∷ [])) ≡ record {
          frames = sends 0 (0xa5 ∷ []) ∷ sends 1 (0xa5 ∷ []) ∷ sends 2 (0xa5 ∷ []) ∷ sends 3 (0xa2 ∷ []) ∷ okays 4 ∷ [];
          counts = 0 ∷ 0 ∷ 0 ∷ 0 ∷ [];
          pages = loaded 0 ∷ [];
        } }
    ensures running { shown (session true (5 ∷ []) port_words [] (go ∷ erase_page 0 ∷ chip_erase ∷ leave_programming ∷
        enter_programming ∷ get_parameter 0x1a ∷ forced_stop ∷ sign_off ∷ [])) ≡ record {
          frames = okays 0 ∷ sends 1 (0xa5 ∷ []) ∷ sends 2 (0xa5 ∷ []) ∷ sends 3 (0xa5 ∷ []) ∷ sends 4 (0xa5 ∷ []) ∷
              sends 5 (0x81 ∷ 0x01 ∷ []) ∷ okays 6 ∷ tells 3 2 ∷ okays 7 ∷ [];
          counts = 7 ∷ 5 ∷ 2 ∷ 0 ∷ [];
          pages = loaded 0 ∷ [];
        } }
{}

/// Where the page write for entering fails the target stays stopped, with its breakpoints: the next run meets one.
pub fn entering_may_fail()
    ensures { shown (session true (100 ∷ []) port_words (made ∷ made ∷ made ∷ leaves port_words (1 ∷ 2 ∷ []) ∷ []) (set_break 1 0 1 ∷
        set_break 1 0 2 ∷ go ∷ enter_programming ∷ get_parameter 0x1a ∷ go ∷ sign_off ∷ [])) ≡ record {
          frames = okays 0 ∷ okays 1 ∷ okays 2 ∷ tells 1 1 ∷ sends 3 (0xa0 ∷ []) ∷ sends 4 (0x81 ∷ 0x00 ∷ []) ∷ okays 5 ∷ tells 2 1 ∷
              okays 6 ∷ [];
          counts = 2 ∷ 2 ∷ 1 ∷ 0 ∷ [];
          pages = pages_of port_words ([] ∷ (1 ∷ 2 ∷ []) ∷ (2 ∷ []) ∷ (1 ∷ 2 ∷ []) ∷ [] ∷ []);
        } }
{}

/// With entering the planted words leave the flash, the software breakpoints are gone, and the comparators stay.
pub fn entering_clears_breakpoints()
    ensures planted { shown (session true (100 ∷ []) port_words [] (set_break 1 0 1 ∷ go ∷ enter_programming ∷ chip_erase ∷
        sign_off ∷ [])) ≡ record {
          frames = okays 0 ∷ okays 1 ∷ tells 1 1 ∷ okays 2 ∷ okays 3 ∷ okays 4 ∷ [];
          counts = 1 ∷ 1 ∷ 0 ∷ 0 ∷ [];
          pages = pages_of port_words ([] ∷ (1 ∷ []) ∷ [] ∷ []) ++ cleared 0 ∷ [];
        } }
    ensures comparators { shown (session true (100 ∷ []) port_words [] (set_break 1 0 1 ∷ set_break 1 1 2 ∷ enter_programming ∷
        leave_programming ∷ go ∷ clear_break 0 1 ∷ clear_break 1 2 ∷ sign_off ∷ [])) ≡ record {
          frames = okays 0 ∷ okays 1 ∷ okays 2 ∷ okays 3 ∷ okays 4 ∷ tells 2 1 ∷ sends 5 (0xa8 ∷ []) ∷ okays 6 ∷ okays 7 ∷ [];
          counts = 2 ∷ 2 ∷ 1 ∷ 0 ∷ [];
          pages = loaded 0 ∷ [];
        } }
{}

/// Leaving restarts the target with no event: pc and the I/O space start anew, a register stays.
pub fn leaving_restarts()
    ensures { shown (session true (1 ∷ []) port_words [] (write_pc 3 ∷ write_memory 0x30 0x3d (0x5f ∷ []) ∷
        write_memory 0x20 0x10 (0x2a ∷ []) ∷ enter_programming ∷ leave_programming ∷ read_pc ∷ read_memory 0x30 1 0x3d ∷
        read_memory 0x20 1 0x10 ∷ get_parameter 0x1a ∷ sign_off ∷ [])) ≡ record {
          frames = okays 0 ∷ okays 1 ∷ okays 2 ∷ okays 3 ∷ okays 4 ∷ sends 5 (0x84 ∷ 0 ∷ 0 ∷ 0 ∷ 0 ∷ []) ∷ sends 6 (0x82 ∷ 0x00 ∷ []) ∷
              sends 7 (0x82 ∷ 0x2a ∷ []) ∷ sends 8 (0x81 ∷ 0x00 ∷ []) ∷ okays 9 ∷ [];
          counts = 0 ∷ 0 ∷ 0 ∷ 0 ∷ [];
          pages = loaded 0 ∷ [];
        } }
{}

/// The fuses, the lock bits and the signature are read in both modes, the pages of the program while it is programmed, and the data
/// and I/O spaces while it is not.
pub fn types_go_by_the_mode()
    ensures stopped { (session true (1 ∷ []) port_words [] (read_memory 0xb0 1 0 ∷ read_memory 0xb2 3 0 ∷ read_memory 0xb3 1 0 ∷
        read_memory 0xb4 3 0 ∷ read_memory 0xb4 1 1 ∷ write_memory 0xb2 0 (0xff ∷ []) ∷ write_memory 0xb3 0 (0xff ∷ []) ∷
        write_memory 0xb4 0 (0xff ∷ []) ∷ sign_off ∷ [])).sent ≡
        sends 0 (0xa2 ∷ []) ∷ sends 1 (0x82 ∷ 0xe1 ∷ 0x99 ∷ 0xff ∷ []) ∷ sends 2 (0x82 ∷ 0xff ∷ []) ∷
        sends 3 (0x82 ∷ 0x1e ∷ 0x94 ∷ 0x03 ∷ []) ∷ sends 4 (0x82 ∷ 0x94 ∷ []) ∷ sends 5 (0xa2 ∷ []) ∷ sends 6 (0xa2 ∷ []) ∷
        sends 7 (0xa2 ∷ []) ∷ okays 8 ∷ [] }
    ensures programming { (session true (1 ∷ []) port_words [] (enter_programming ∷ read_memory 0xb0 8 0 ∷ read_memory 0xa0 8 0 ∷
        read_memory 0xb3 1 0 ∷ read_memory 0x20 1 0x60 ∷ write_memory 0x20 0x60 (0x2a ∷ []) ∷ read_memory 0x30 1 0x3d ∷
        write_memory 0x30 0x3d (0x5f ∷ []) ∷ read_memory 0x21 1 0 ∷ sign_off ∷ [])).sent ≡
        okays 0 ∷ sends 1 port_bytes ∷ sends 2 port_bytes ∷ sends 3 (0x82 ∷ 0xff ∷ []) ∷ sends 4 (0xa2 ∷ []) ∷ sends 5 (0xa2 ∷ []) ∷
        sends 6 (0xa2 ∷ []) ∷ sends 7 (0xa2 ∷ []) ∷ sends 8 (0xa2 ∷ []) ∷ okays 9 ∷ [] }
    ensures ranges { (session true (1 ∷ []) port_words [] (enter_programming ∷ read_memory 0xb2 4 0 ∷ read_memory 0xb2 1 3 ∷
        read_memory 0xb3 2 0 ∷ read_memory 0xb3 1 1 ∷ read_memory 0xb4 4 0 ∷ read_memory 0xb4 1 3 ∷ read_memory 0xb0 1 128 ∷
        read_memory 0xb0 1 127 ∷ sign_off ∷ [])).sent ≡
        okays 0 ∷ sends 1 (0xa3 ∷ []) ∷ sends 2 (0xa3 ∷ []) ∷ sends 3 (0xa3 ∷ []) ∷ sends 4 (0xa3 ∷ []) ∷ sends 5 (0xa3 ∷ []) ∷
        sends 6 (0xa3 ∷ []) ∷ sends 7 (0xa3 ∷ []) ∷ sends 8 (0x82 ∷ 0xff ∷ []) ∷ okays 9 ∷ [] }
{}

/// A session that signs off, or whose line ends, while the flash is programmed is closed: the program is written where the flash has
/// other words, and whether that was made is known.
pub fn session_closes_while_programming()
    ensures signed_off { shown (session true (1 ∷ []) port_words (made ∷ half_erased ∷ []) (enter_programming ∷ chip_erase ∷
        sign_off ∷ get_sync ∷ [])) ≡ record {
          frames = okays 0 ∷ sends 1 (0xa0 ∷ []) ∷ okays 2 ∷ [];
          counts = 0 ∷ 0 ∷ 0 ∷ 0 ∷ [];
          pages = loaded 0 ∷ loaded 0 ∷ [];
        } }
    ensures line_ended { shown (session true (1 ∷ []) port_words (made ∷ half_erased ∷ []) (enter_programming ∷ chip_erase ∷ [])) ≡ record {
      frames = okays 0 ∷ sends 1 (0xa0 ∷ []) ∷ [];
      counts = 0 ∷ 0 ∷ 0 ∷ 0 ∷ [];
      pages = loaded 0 ∷ loaded 0 ∷ [];
    } }
    ensures restored { (session true (1 ∷ []) port_words (made ∷ half_erased ∷ []) (enter_programming ∷ chip_erase ∷
        [])).mode ≡ closed true }
    ensures not_restored { (session true (1 ∷ []) port_words (made ∷ half_erased ∷ half_erased ∷ []) (enter_programming ∷
        chip_erase ∷ [])).mode ≡ closed false }
{}
