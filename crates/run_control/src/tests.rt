//! Runs of small programs, worked by hand: pc, cycles and steps where each run ends, what is in the flash, and how many looks were made.
ghost use Rattle.std.specs.Prelude.{◌≡◌, ◌≤◌, ◌<◌, true, None, IfOk, IfSome};
ghost use Rattle.part_spec.specs.declared.part.Part.TheVariants.{M16};
ghost use Rattle.part_spec.specs.Chip.{chip_of, m16};

mod inline;

use super::*;
use avr_core::Core;
use ice_base::{Flash, MemFlash, Part};
use part_spec::PAGE_WORDS;
use std::alloc::Global;
use std::test::Fail;

/// LDI r16,1; OUT DDRB,r16; OUT PORTB,r16; RJMP to itself.
const PORT: [u16; 4] = [0xE001, 0xBB07, 0xBB08, 0xCFFF];

/// The same with a breakpoint at 2.
const PORT_PLANTED: [u16; 4] = [0xE001, 0xBB07, 0x9598, 0xCFFF];

/// No comparator.
const NONE: [Option<u16>; 4] = [None, None, None, None];

/// Tells a run to stop at one of its looks, counted from 1, and at no other; 0 is at none.
#[derive(Drop)]
struct TellAt {
    at: u64,
    looks: u64,
    yes: u64,
    last: bool,
}

impl StopLook for TellAt {
    ghost use Rattle.std.specs.Prelude.{⊤};

    ghost Mark = { ⊤ };

    ghost looks = { λ s. s.looks };

    ghost yes = { λ s. s.yes };

    ghost last = { λ s. s.last };

    ghost mark = { λ s. tt };

    fn look(&mut self) -> bool {
        self.looks = self.looks.wrapping_add(1);
        self.last = self.looks == self.at;
        self.yes = self.yes.wrapping_add(u64::from(self.last));
        self.last
    }
}

/// Tells a run to stop at this look.
fn tell_at(at: u64) -> TellAt {
    TellAt {
        at,
        looks: 0,
        yes: 0,
        last: false,
    }
}

/// The words of a page that begins with these and is erased behind them.
fn page_with(words: &[u16]) -> [u16; PAGE_WORDS] {
    let mut page = [0xFFFF; PAGE_WORDS];
    for (place, word) in page.iter_mut().zip(words) {
        *place = *word;
    }
    page
}

/// A flash of a part with these words at its start, else erased. Its write call of this number fails with no word written: the first
/// is the one that is made here, and 0 is none.
fn flash_of(alloc: Global, part: Part, words: &[u16], failing: u64) -> Result<MemFlash, Fail>
    ensures { IfOk result (λ flash. flash.part ≡ part) }
{
    let fails = vec![in alloc; (failing, 0usize)]?;
    let mut flash = MemFlash::logged_part(alloc, part, fails, 8)?;
    flash.write_page(0, &page_with(words))?;
    Ok(flash)
}

/// A job of an ATmega16 at the start of a program.
fn job_of(alloc: Global, words: &[u16]) -> Result<Job<MemFlash>, Fail>
    ensures fresh { IfOk result (λ job. job.fresh ≡ true) }
    ensures replant { IfOk result (λ job. job.replant ≡ None) }
    ensures flash { IfOk result (λ job. job.flash.part ≡ M16) }
    ensures core { IfOk result (λ job. job.core.part ≡ m16) }
{
    Ok(Job {
        core: Core::new(alloc)?,
        flash: flash_of(alloc, Part::M16, words, 0)?,
        comparators: NONE,
        replant: None,
        fresh: true,
    })
}

/// Advances a fresh job by at most so many steps, told to stop at a look. Answers how many looks were made, too.
fn advance(job: &mut Job<MemFlash>, budget: u32, at: u64) -> (Turn, u64)
    requires some { 1 ≤ budget }
    requires fresh { job.old.fresh ≡ true }
    requires part { chip_of job.old.flash.part ≡ job.old.core.part }
    requires replant { IfSome job.old.replant (λ asked. asked.0 < job.old.core.part.pages) }
    ensures flash { job.new.flash.part ≡ job.old.flash.part }
    ensures core { job.new.core.part ≡ job.old.core.part }
{
    let mut look = tell_at(at);
    let turn = job.advance(budget, &mut look);
    (turn, look.looks)
}

/// pc, cycles and steps.
fn progress(core: &Core) -> (u16, u64, u64) {
    (core.pc(), core.io().cycles(), core.steps())
}

#[test]
fn a_run_ends_at_a_planted_word(rt: HostRuntime) -> Result<(), Fail> {
    let mut job = job_of(rt.alloc(), &PORT_PLANTED)?;
    assert_eq!(rt; advance(&mut job, 100, 0), (Turn::Halted(Halt::Word), 2u64));
    assert_eq!(rt; progress(&job.core), (2u16, 2u64, 2u64));
    assert_eq!(rt; job.core.io().writes(), 1u64);
    assert!(rt; !job.fresh);
    Ok(())
}

#[test]
fn a_breakpoint_at_the_start_is_planted_behind_the_first_step(rt: HostRuntime) -> Result<(), Fail> {
    let mut job = job_of(rt.alloc(), &PORT)?;
    job.replant = Some((0, page_with(&PORT_PLANTED)));
    job.core.set_pc(2);
    assert_eq!(rt; advance(&mut job, 5, 0), (Turn::NotYet, 5u64));
    assert_eq!(rt; progress(&job.core), (3u16, 9u64, 5u64));
    assert_eq!(rt; job.flash.word(2), 0x9598);
    assert_eq!(rt; job.flash.journal().len(), 2);
    assert!(rt; job.replant.is_none());
    Ok(())
}

#[test]
fn a_page_that_has_its_words_is_not_written(rt: HostRuntime) -> Result<(), Fail> {
    let mut job = job_of(rt.alloc(), &PORT_PLANTED)?;
    job.replant = Some((0, page_with(&PORT_PLANTED)));
    assert_eq!(rt; advance(&mut job, 100, 0), (Turn::Halted(Halt::Word), 2u64));
    assert_eq!(rt; job.flash.journal().len(), 1);
    Ok(())
}

#[test]
fn a_failed_write_ends_the_run_behind_its_first_step(rt: HostRuntime) -> Result<(), Fail> {
    let mut job = job_of(rt.alloc(), &PORT)?;
    job.flash = flash_of(rt.alloc(), Part::M16, &PORT, 2)?;
    job.replant = Some((0, page_with(&PORT_PLANTED)));
    job.core.set_pc(2);
    assert_eq!(rt;
        advance(&mut job, 100, 0),
        (Turn::Halted(Halt::FlashFault), 0u64)
    );
    assert_eq!(rt; progress(&job.core), (3u16, 1u64, 1u64));
    assert_eq!(rt; job.flash.word(2), 0xBB08);
    Ok(())
}

#[test]
fn a_look_forces_the_end_where_nothing_stops(rt: HostRuntime) -> Result<(), Fail> {
    let mut job = job_of(rt.alloc(), &[0xCFFF])?;
    assert_eq!(rt;
        advance(&mut job, 100, 3),
        (Turn::Halted(Halt::Forced), 3u64)
    );
    assert_eq!(rt; progress(&job.core), (0u16, 6u64, 3u64));
    let mut job = job_of(rt.alloc(), &PORT_PLANTED)?;
    assert_eq!(rt; advance(&mut job, 100, 2), (Turn::Halted(Halt::Word), 2u64));
    Ok(())
}

#[test]
fn a_run_goes_on_where_its_steps_were_made(rt: HostRuntime) -> Result<(), Fail> {
    let mut job = job_of(rt.alloc(), &[0xCFFF])?;
    let mut look = tell_at(5);
    assert_eq!(rt; job.advance(2, &mut look), Turn::NotYet);
    assert_eq!(rt; progress(&job.core), (0u16, 4u64, 2u64));
    let mut job = job_of(rt.alloc(), &[0xCFFF])?;
    match job.advance(2, &mut look) {
        Turn::NotYet => {
            assert_eq!(rt; job.advance(2, &mut look), Turn::Halted(Halt::Forced));
            assert_eq!(rt; progress(&job.core), (0u16, 6u64, 3u64));
        }
        Turn::Halted(halt) => assert_eq!(rt; halt, Halt::Forced),
    }
    assert_eq!(rt; (look.looks, look.yes), (5u64, 1u64));
    Ok(())
}

#[test]
fn an_own_break_stops_and_is_run_as_a_nop_at_the_start(rt: HostRuntime) -> Result<(), Fail> {
    let mut job = job_of(rt.alloc(), &[0x0000, 0x9598, 0xCFFF])?;
    assert_eq!(rt; advance(&mut job, 100, 0), (Turn::Halted(Halt::Word), 1u64));
    assert_eq!(rt; progress(&job.core), (1u16, 1u64, 1u64));
    job.fresh = true;
    job.replant = None;
    assert_eq!(rt; advance(&mut job, 5, 0), (Turn::NotYet, 5u64));
    assert_eq!(rt; progress(&job.core), (2u16, 10u64, 6u64));
    Ok(())
}

#[test]
fn a_word_that_does_not_run_ends_a_run(rt: HostRuntime) -> Result<(), Fail> {
    let mut job = job_of(rt.alloc(), &[0x0001])?;
    assert_eq!(rt;
        advance(&mut job, 100, 1),
        (Turn::Halted(Halt::Undefined), 0u64)
    );
    assert_eq!(rt; progress(&job.core), (0u16, 0u64, 0u64));
    assert!(rt; job.fresh);
    let mut job = job_of(rt.alloc(), &[0x0000, 0x0001])?;
    assert_eq!(rt;
        advance(&mut job, 100, 0),
        (Turn::Halted(Halt::Undefined), 1u64)
    );
    assert_eq!(rt; progress(&job.core), (1u16, 1u64, 1u64));
    Ok(())
}

/// SEI, NOPs, and RETI at the vector of timer 0's overflow; a timer that overflows with the first cycle, its interrupt let through, and
/// comparators at 1, at 2 and at the vector.
fn interrupted(alloc: Global) -> Result<Job<MemFlash>, Fail>
    ensures fresh { IfOk result (λ job. job.fresh ≡ true) }
    ensures replant { IfOk result (λ job. job.replant ≡ None) }
    ensures flash { IfOk result (λ job. job.flash.part ≡ M16) }
    ensures core { IfOk result (λ job. job.core.part ≡ m16) }
{
    let mut words = [0x0000; 19];
    words[0] = 0x9478;
    words[18] = 0x9518;
    let mut job = job_of(alloc, &words)?;
    job.comparators = [Some(1), Some(2), Some(18), None];
    job.core.set_data_at(0x5D, 0x5F);
    job.core.set_data_at(0x5E, 0x04);
    job.core.set_data_at(0x59, 0x01);
    job.core.set_data_at(0x52, 0xFF);
    job.core.set_data_at(0x53, 0x01);
    Ok(job)
}

#[test]
fn a_due_interrupt_comes_before_a_comparator(rt: HostRuntime) -> Result<(), Fail> {
    let mut job = interrupted(rt.alloc())?;
    assert_eq!(rt;
        advance(&mut job, 100, 0),
        (Turn::Halted(Halt::Comparator), 1u64)
    );
    assert_eq!(rt; progress(&job.core), (1u16, 1u64, 1u64));
    job.fresh = true;
    job.replant = None;
    assert_eq!(rt;
        advance(&mut job, 100, 0),
        (Turn::Halted(Halt::Comparator), 2u64)
    );
    assert_eq!(rt; progress(&job.core), (18u16, 6u64, 3u64));
    job.fresh = true;
    job.replant = None;
    assert_eq!(rt;
        advance(&mut job, 100, 0),
        (Turn::Halted(Halt::Comparator), 1u64)
    );
    assert_eq!(rt; progress(&job.core), (2u16, 10u64, 4u64));
    Ok(())
}

#[test]
fn a_single_step_runs_a_break_as_a_nop(rt: HostRuntime) -> Result<(), Fail> {
    let mut job = job_of(rt.alloc(), &[0x9598, 0x0001])?;
    assert_eq!(rt; job.single(), Halt::Single);
    assert_eq!(rt; progress(&job.core), (1u16, 1u64, 1u64));
    assert_eq!(rt; job.single(), Halt::Undefined);
    assert_eq!(rt; progress(&job.core), (1u16, 1u64, 1u64));
    Ok(())
}

#[test]
fn a_larger_part_runs_through_its_own_flash(rt: HostRuntime) -> Result<(), Fail> {
    let mut job = Job {
        core: Core::of(rt.alloc(), Part::M32)?,
        flash: flash_of(rt.alloc(), Part::M32, &[0xCFFF], 0)?,
        comparators: [None, None, None, Some(0x3FFF)],
        replant: None,
        fresh: true,
    };
    assert_eq!(rt; advance(&mut job, 2, 0), (Turn::NotYet, 2u64));
    job.fresh = true;
    job.replant = None;
    job.core.set_pc(0x3FFE);
    job.flash.write_page(255, &[0x0000; PAGE_WORDS])?;
    assert_eq!(rt;
        advance(&mut job, 100, 0),
        (Turn::Halted(Halt::Comparator), 1u64)
    );
    job.fresh = true;
    job.replant = None;
    assert_eq!(rt; advance(&mut job, 1, 0), (Turn::NotYet, 1u64));
    assert_eq!(rt; progress(&job.core), (0u16, 6u64, 4u64));
    Ok(())
}
