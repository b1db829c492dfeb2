//! Plans of small programs, worked by hand, for both parts. All words that a program is not given are FFFF, so that an erased flash
//! holds them.
ghost use Rattle.std.specs.Prelude.{◌≡◌, ◌<◌, [], IfOk};
ghost use Rattle.part_spec.specs.Chip.{chip_of};

use crate::{FlashFault, NotSet, Plan, Refused};
use ice_base::{Flash, LoggedWrite, MemFlash, Part};
use part_spec::PAGE_WORDS;
use std::alloc::{AllocError, Global};
use std::test::Fail;

/// The parts.
const PARTS: [Part; 2] = [Part::M16, Part::M32];

/// The word of a BREAK.
const BREAK: u16 = 0x9598;

/// The word of an erased flash.
const ERASED: u16 = 0xFFFF;

/// SBRC r16,0; LDS r16,0x0060; NOP
const SKIPS: [u16; 4] = [0xFD00, 0x9100, 0x0060, 0];

/// The plan of a program that begins with these words and ends with one.
fn plan_of(alloc: Global, part: Part, front: [u16; 4], last: u16) -> Result<Plan, AllocError>
    ensures part { IfOk result (λ plan. plan.part ≡ part) }
    ensures empty { IfOk result (λ plan. plan.soft ≡ []) }
{
    let mut program = vec![in alloc; ERASED; usize::from(part.words())]?;
    program[..4].copy_from_slice(&front);
    program[usize::from(part.words()) - 1] = last;
    Plan::new(alloc, &program)
}

/// The plan of the program that an erased flash holds.
fn erased_plan(alloc: Global, part: Part) -> Result<Plan, AllocError>
    ensures part { IfOk result (λ plan. plan.part ≡ part) }
    ensures empty { IfOk result (λ plan. plan.soft ≡ []) }
{
    plan_of(alloc, part, [ERASED; 4], ERASED)
}

/// An erased flash with a journal, in which one write call fails behind so many words.
fn flash_of(alloc: Global, part: Part, call: u64, count: usize) -> Result<MemFlash, AllocError>
    ensures { IfOk result (λ flash. flash.part ≡ part) }
{
    let fails = vec![in alloc; (call, count)]?;
    MemFlash::logged_part(alloc, part, fails, 300)
}

/// The page writes that were made are those of these pages.
fn wrote(flash: &MemFlash, pages: &[u16]) -> bool {
    let made = flash.journal();
    made.len() == pages.len()
        && made
            .iter()
            .zip(pages)
            .all(|(write, page)| write.page == *page)
}

/// The word of a flash at an address.
fn word_at(flash: &MemFlash, address: usize) -> Option<u16> {
    flash.words().get(address).copied()
}

/// Sets a breakpoint.
fn set(plan: &mut Plan, address: u32) -> Result<(), Refused>
    ensures { plan.new.part ≡ plan.old.part }
{
    plan.set(address)
}

/// Sets breakpoints, and tells whether all were set.
fn set_all(plan: &mut Plan, addresses: &[u32]) -> bool
    ensures { plan.new.part ≡ plan.old.part }
{
    for address in addresses {
        if plan.set(*address).is_err() {
            return false;
        }
    }
    true
}

/// Sets 64 breakpoints, from 1000 down to 874, and tells how many were set.
fn fill(plan: &mut Plan) -> u32
    ensures { plan.new.part ≡ plan.old.part }
{
    let mut count = 0;
    for number in 0..64u32 {
        if plan.set(1000 - 2 * number).is_ok() {
            count += 1;
        }
    }
    count
}

/// Clears a breakpoint.
fn clear(plan: &mut Plan, address: u32) -> Result<(), NotSet>
    ensures { plan.new.part ≡ plan.old.part }
{
    plan.clear(address)
}

/// Makes a flash the program.
fn restore(plan: &Plan, flash: &mut MemFlash) -> Result<(), FlashFault>
    requires { flash.old.part ≡ plan.now.part }
    ensures { flash.new.part ≡ flash.old.part }
{
    plan.restore(flash)
}

/// Plants each breakpoint that is set.
fn sync(plan: &Plan, flash: &mut MemFlash) -> Result<(), FlashFault>
    requires { flash.old.part ≡ plan.now.part }
    ensures { flash.new.part ≡ flash.old.part }
{
    plan.sync(flash, None, None)
}

/// Plants each breakpoint but one, and another address, where the one is in the flash and the other may be planted.
fn sync_both(
    plan: &Plan,
    flash: &mut MemFlash,
    leave_out: u16,
    extra: u16,
) -> Option<Result<(), FlashFault>>
    requires { flash.old.part ≡ plan.now.part }
    ensures { flash.new.part ≡ flash.old.part }
{
    if leave_out < flash.part().words() && plan.plantable(u32::from(extra)) {
        return Some(plan.sync(flash, Some(leave_out), Some(extra)));
    }
    None
}

/// Programs a page.
fn program_page(
    plan: &mut Plan,
    flash: &mut MemFlash,
    page: u16,
    words: &[u16; PAGE_WORDS],
) -> Result<(), FlashFault>
    requires part { flash.old.part ≡ plan.old.part }
    requires empty { plan.old.soft ≡ [] }
    requires within { page < (chip_of plan.old.part).pages }
    ensures flash { flash.new.part ≡ flash.old.part }
    ensures plan { plan.new.part ≡ plan.old.part }
    ensures empty { plan.new.soft ≡ [] }
{
    plan.program_page(flash, page, words)
}

#[test]
fn no_break_on_two_words_behind_a_skip(rt: HostRuntime) -> Result<(), Fail> {
    let fronts = [
        // SBRC r16,0 and LDS r16,0x0060; SBRS r16,0 and STS 0x0060,r16; CPSE r1,r0 and JMP 0; SBIC 0,0 and CALL 0
        [0xFD00, 0x9100, 0x0060, 0],
        [0xFF00, 0x9300, 0x0060, 0],
        [0x1010, 0x940C, 0, 0],
        [0x9900, 0x940E, 0, 0],
    ];
    for part in PARTS {
        for front in fronts {
            let mut plan = plan_of(rt.alloc(), part, front, ERASED)?;
            assert!(rt; plan.plantable(0), "{front:?}");
            assert!(rt; !plan.plantable(1), "{front:?}");
            assert!(rt; plan.plantable(2), "{front:?}");
            assert_eq!(rt; set(&mut plan, 1), Err(Refused::AfterSkip), "{front:?}");
            assert!(rt; !plan.has(1), "{front:?}");
        }
    }
    Ok(())
}

#[test]
fn a_break_on_one_word_or_behind_no_skip(rt: HostRuntime) -> Result<(), Fail> {
    let fronts = [
        // SBIS 0,0 and NOP; NOP and JMP 0; a word that is no instruction and LDS r16,0x0060
        [0x9B00, 0, 0, 0],
        [0, 0x940C, 0, 0],
        [ERASED, 0x9100, 0x0060, 0],
    ];
    for part in PARTS {
        for front in fronts {
            let mut plan = plan_of(rt.alloc(), part, front, ERASED)?;
            assert_eq!(rt; plan.part(), part);
            assert!(rt; plan.plantable(1), "{front:?}");
            assert_eq!(rt; set(&mut plan, 1), Ok(()), "{front:?}");
            assert_eq!(rt; set(&mut plan, 2), Ok(()), "{front:?}");
            assert!(rt; plan.has(1) && plan.has(2), "{front:?}");
            assert!(rt; !plan.has(0), "{front:?}");
        }
    }
    Ok(())
}

#[test]
fn the_last_word_stands_before_the_first(rt: HostRuntime) -> Result<(), Fail> {
    for part in PARTS {
        // JMP 0, with SBRC r16,0 as the last word and without
        let mut skipped = plan_of(rt.alloc(), part, [0x940C, 0, 0, 0], 0xFD00)?;
        assert_eq!(rt; set(&mut skipped, 0), Err(Refused::AfterSkip));
        assert_eq!(rt; set(&mut skipped, 1), Ok(()));
        let mut plain = plan_of(rt.alloc(), part, [0x940C, 0, 0, 0], 0)?;
        assert_eq!(rt; set(&mut plain, 0), Ok(()));
    }
    Ok(())
}

#[test]
fn an_address_behind_the_flash_is_out_of_range(rt: HostRuntime) -> Result<(), Fail> {
    for part in PARTS {
        let mut plan = plan_of(rt.alloc(), part, SKIPS, ERASED)?;
        let words = u32::from(part.words());
        assert!(rt; !plan.plantable(words));
        assert_eq!(rt; set(&mut plan, words), Err(Refused::Range));
        // in the low 16 bits it is the address behind the skip
        assert_eq!(rt; set(&mut plan, 0x1_0001), Err(Refused::Range));
        assert_eq!(rt; set(&mut plan, words - 1), Ok(()));
        assert_eq!(rt; set(&mut plan, 1), Err(Refused::AfterSkip));
    }
    Ok(())
}

#[test]
fn at_most_64_are_set(rt: HostRuntime) -> Result<(), Fail> {
    for part in PARTS {
        let mut plan = plan_of(rt.alloc(), part, SKIPS, ERASED)?;
        assert_eq!(rt; fill(&mut plan), 64);
        assert_eq!(rt; set(&mut plan, 1001), Err(Refused::Full));
        assert!(rt; !plan.has(1001));
        // one that is set already, and the refusals that come first
        assert_eq!(rt; set(&mut plan, 900), Ok(()));
        assert_eq!(rt; set(&mut plan, 1), Err(Refused::AfterSkip));
        assert_eq!(rt; set(&mut plan, 0xFFFF), Err(Refused::Range));
    }
    Ok(())
}

#[test]
fn one_that_is_cleared_makes_room(rt: HostRuntime) -> Result<(), Fail> {
    for part in PARTS {
        let mut plan = erased_plan(rt.alloc(), part)?;
        assert_eq!(rt; fill(&mut plan), 64);
        assert_eq!(rt; clear(&mut plan, 1001), Err(NotSet));
        // in the low 16 bits it is one that is set
        assert_eq!(rt; clear(&mut plan, 0x1_0000 + 998), Err(NotSet));
        assert_eq!(rt; clear(&mut plan, 1000), Ok(()));
        assert_eq!(rt; clear(&mut plan, 1000), Err(NotSet));
        assert!(rt; !plan.has(1000) && plan.has(998) && plan.has(874));
        assert_eq!(rt; set(&mut plan, 1001), Ok(()));
        assert_eq!(rt; set(&mut plan, 1003), Err(Refused::Full));
    }
    Ok(())
}

#[test]
fn all_are_forgotten(rt: HostRuntime) -> Result<(), Fail> {
    for part in PARTS {
        let mut plan = erased_plan(rt.alloc(), part)?;
        assert_eq!(rt; fill(&mut plan), 64);
        plan.forget();
        assert!(rt; !plan.has(1000) && !plan.has(874));
        assert_eq!(rt; clear(&mut plan, 998), Err(NotSet));
        assert_eq!(rt; fill(&mut plan), 64);
    }
    Ok(())
}

#[test]
fn the_program_has_no_break_and_its_pages_do(rt: HostRuntime) -> Result<(), Fail> {
    for part in PARTS {
        let mut plan = plan_of(rt.alloc(), part, SKIPS, 7)?;
        assert!(rt; part.words() > 300 && part.pages() > 4);
        assert!(rt; set_all(&mut plan, &[2, 63]));
        assert_eq!(rt; plan.program_word(2), 0x0060);
        assert_eq!(rt; plan.program_word(part.words() - 1), 7);
        let first = plan.page(0, Some(300));
        assert!(rt; first[1] == 0x9100 && first[2] == BREAK && first[3] == 0);
        assert!(rt; first[62] == ERASED && first[63] == BREAK);
        // 300 is the word 44 of page 4
        assert!(rt; plan.page(4, Some(300))[44] == BREAK && plan.page(4, None)[44] == ERASED);
    }
    Ok(())
}

#[test]
fn restoring_an_erased_flash_writes_the_pages_that_differ(rt: HostRuntime) -> Result<(), Fail> {
    for part in PARTS {
        let mut plan = plan_of(rt.alloc(), part, [0x0C00, 0, 0, 0], 7)?;
        let mut flash = flash_of(rt.alloc(), part, 0, 0)?;
        assert_eq!(rt; set(&mut plan, 70), Ok(()));
        assert_eq!(rt; restore(&plan, &mut flash), Ok(()));
        // the first page and the last
        assert!(rt; wrote(&flash, &[0, part.pages() - 1]));
        assert!(rt; word_at(&flash, 0) == Some(0x0C00) && word_at(&flash, 70) == Some(ERASED));
        assert_eq!(rt; word_at(&flash, usize::from(part.words()) - 1), Some(7));
        // the device has these words
        assert_eq!(rt; restore(&plan, &mut flash), Ok(()));
        assert!(rt; wrote(&flash, &[0, part.pages() - 1]));
    }
    Ok(())
}

#[test]
fn sync_writes_the_pages_of_breakpoints_in_rising_order(rt: HostRuntime) -> Result<(), Fail> {
    for part in PARTS {
        let mut plan = erased_plan(rt.alloc(), part)?;
        let mut flash = flash_of(rt.alloc(), part, 0, 0)?;
        assert!(rt; set_all(&mut plan, &[200, 64, 300, 127]));
        assert_eq!(rt; sync(&plan, &mut flash), Ok(()));
        assert!(rt; wrote(&flash, &[1, 3, 4]));
        assert!(rt; word_at(&flash, 64) == Some(BREAK) && word_at(&flash, 127) == Some(BREAK));
        assert!(rt; word_at(&flash, 63) == Some(ERASED) && word_at(&flash, 128) == Some(ERASED));
        // the device has these words
        assert_eq!(rt; sync(&plan, &mut flash), Ok(()));
        assert!(rt; wrote(&flash, &[1, 3, 4]));
        // page 3 alone has other words
        assert_eq!(rt; clear(&mut plan, 200), Ok(()));
        assert_eq!(rt; sync(&plan, &mut flash), Ok(()));
        assert!(rt; wrote(&flash, &[1, 3, 4, 3]));
        assert_eq!(rt; word_at(&flash, 200), Some(ERASED));
        assert_eq!(rt; flash.faults(), 0);
    }
    Ok(())
}

#[test]
fn sync_leaves_one_out_and_plants_another(rt: HostRuntime) -> Result<(), Fail> {
    for part in PARTS {
        let mut plan = erased_plan(rt.alloc(), part)?;
        let mut flash = flash_of(rt.alloc(), part, 0, 0)?;
        assert!(rt; set_all(&mut plan, &[200, 70]));
        // 70 is of page 1, 200 of page 3, 300 of page 4
        assert_eq!(rt; sync_both(&plan, &mut flash, 70, 300), Some(Ok(())));
        assert!(rt; wrote(&flash, &[3, 4]));
        assert!(rt; word_at(&flash, 200) == Some(BREAK) && word_at(&flash, 300) == Some(BREAK));
        // left out is left out, also where it is the other one
        assert_eq!(rt; sync_both(&plan, &mut flash, 300, 300), Some(Ok(())));
        assert!(rt; wrote(&flash, &[3, 4, 1, 4]));
        assert!(rt; word_at(&flash, 70) == Some(BREAK) && word_at(&flash, 300) == Some(ERASED));
    }
    Ok(())
}

#[test]
fn nothing_is_written_behind_a_failed_write(rt: HostRuntime) -> Result<(), Fail> {
    for part in PARTS {
        let mut plan = erased_plan(rt.alloc(), part)?;
        // the second write fails behind 9 words: page 3 from 192 to 200
        let mut flash = flash_of(rt.alloc(), part, 2, 9)?;
        assert!(rt; set_all(&mut plan, &[70, 200, 210, 300]));
        assert_eq!(rt; sync(&plan, &mut flash), Err(FlashFault));
        assert!(rt; wrote(&flash, &[1]));
        assert_eq!(rt; flash.faults(), 1);
        assert!(rt; word_at(&flash, 200) == Some(BREAK) && word_at(&flash, 210) == Some(ERASED));
        assert_eq!(rt; word_at(&flash, 300), Some(ERASED));
        // the next one mends it
        assert_eq!(rt; sync(&plan, &mut flash), Ok(()));
        assert!(rt; wrote(&flash, &[1, 3, 4]));
        assert_eq!(rt; word_at(&flash, 210), Some(BREAK));
    }
    Ok(())
}

#[test]
fn restore_stops_at_a_failed_write(rt: HostRuntime) -> Result<(), Fail> {
    for part in PARTS {
        let mut plan = erased_plan(rt.alloc(), part)?;
        // the third write fails before its first word
        let mut flash = flash_of(rt.alloc(), part, 3, 0)?;
        assert!(rt; set_all(&mut plan, &[70, 200]));
        assert_eq!(rt; sync(&plan, &mut flash), Ok(()));
        assert_eq!(rt; restore(&plan, &mut flash), Err(FlashFault));
        assert!(rt; wrote(&flash, &[1, 3]));
        assert!(rt; word_at(&flash, 70) == Some(BREAK) && word_at(&flash, 200) == Some(BREAK));
        assert_eq!(rt; restore(&plan, &mut flash), Ok(()));
        assert!(rt; wrote(&flash, &[1, 3, 1, 3]));
    }
    Ok(())
}

#[test]
fn a_page_is_programmed_with_the_flash(rt: HostRuntime) -> Result<(), Fail> {
    for part in PARTS {
        let mut plan = plan_of(rt.alloc(), part, [0x0C00, 0, 0, 0], ERASED)?;
        let mut flash = flash_of(rt.alloc(), part, 0, 0)?;
        assert!(rt; part.words() > 65 && part.pages() > 0);
        let last = part.pages() - 1;
        let words = [7; PAGE_WORDS];
        assert_eq!(rt; program_page(&mut plan, &mut flash, last, &words), Ok(()));
        let written = LoggedWrite { page: last, words };
        assert_eq!(rt; flash.journal(), [written].as_slice());
        assert_eq!(rt; plan.program_word(part.words() - 1), 7);
        assert_eq!(rt; plan.program_word(part.words() - 65), ERASED);
        // the device has these words, and the program gets them
        let erased = [ERASED; PAGE_WORDS];
        assert_eq!(rt; program_page(&mut plan, &mut flash, 0, &erased), Ok(()));
        assert!(rt; wrote(&flash, &[last]));
        assert_eq!(rt; plan.program_word(0), ERASED);
    }
    Ok(())
}

#[test]
fn the_program_stays_where_its_page_write_fails(rt: HostRuntime) -> Result<(), Fail> {
    for part in PARTS {
        let mut plan = plan_of(rt.alloc(), part, [0x0C00, 0, 0, 0], ERASED)?;
        // the first write fails behind all 64 words
        let mut flash = flash_of(rt.alloc(), part, 1, 64)?;
        assert!(rt; part.words() > 0 && part.pages() > 0);
        let words = [9; PAGE_WORDS];
        assert_eq!(rt;
            program_page(&mut plan, &mut flash, 0, &words),
            Err(FlashFault)
        );
        assert!(rt; wrote(&flash, &[]));
        assert_eq!(rt; flash.faults(), 1);
        assert_eq!(rt; word_at(&flash, 0), Some(9));
        assert_eq!(rt; plan.program_word(0), 0x0C00);
    }
    Ok(())
}
