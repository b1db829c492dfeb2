//! The core at work, with values worked by hand from the AVR Instruction Set Manual and the datasheets of the parts.
ghost use Rattle.std.specs.Prelude.{◌≡◌, ◌<◌, IfOk};
ghost use Rattle.part_spec.specs.declared.part.Part.TheVariants.{M16};
ghost use Rattle.part_spec.specs.Chip.{m16, chip_of, words_of};

mod firmware;

use super::*;
use ice_base::{Flash, MemFlash, Part};
use std::alloc::Global;
use std::process::Abort;
use std::test::Fail;

/// SPL, SPH and SREG, and the registers of timer 0, as data addresses.
const SPL: u16 = 0x5D;

const SPH: u16 = 0x5E;

const SREG: u16 = 0x5F;

const OCR0: u16 = 0x5C;

const TIMSK: u16 = 0x59;

const TIFR: u16 = 0x58;

const TCCR0: u16 = 0x53;

const TCNT0: u16 = 0x52;

/// A flash of an ATmega16 with these words at the start of a page, else erased.
fn flash_with(alloc: Global, page: u16, words: &[u16]) -> Result<MemFlash, Fail>
    requires { page < m16.pages }
    ensures { IfOk result (λ flash. flash.part ≡ M16) }
{
    flash_of(alloc, Part::M16, page, words)
}

/// The same of a part.
fn flash_of(alloc: Global, part: Part, page: u16, words: &[u16]) -> Result<MemFlash, Fail>
    requires { page < (chip_of part).pages }
    ensures { IfOk result (λ flash. flash.part ≡ part) }
{
    let mut content = [0xFFFF; 64];
    for (place, word) in content.iter_mut().zip(words) {
        *place = *word;
    }
    let mut flash = MemFlash::of_part(alloc, part, Vec::new(alloc))?;
    flash.write_page(page, &content)?;
    Ok(flash)
}

/// pc, cycles and steps.
fn progress(core: &Core) -> (u16, u64, u64) {
    (core.pc(), core.io().cycles(), core.steps())
}

#[test]
fn a_skip_over_two_words_is_one_step_of_three_cycles(rt: HostRuntime) -> Result<(), Fail> {
    let flash = flash_with(rt.alloc(), 0, &[0xFD00, 0x9100, 0x0060, 0x0000])?;
    let mut core = Core::new(rt.alloc())?;
    assert_eq!(rt; core.step(&flash), Stepped::Ran);
    assert_eq!(rt; progress(&core), (3u16, 3u64, 1u64));
    Ok(())
}

#[test]
fn a_store_with_increment_stores_the_byte_before_the_change(rt: HostRuntime) -> Result<(), Fail> {
    let flash = flash_with(rt.alloc(), 0, &[0x93E1])?;
    let mut core = Core::new(rt.alloc())?;
    core.set_data_at(30, 0x60);
    assert_eq!(rt; core.step(&flash), Stepped::Ran);
    assert_eq!(rt; core.data_at(0x60), 0x60);
    assert_eq!(rt; (core.data_at(30), core.data_at(31)), (0x61u8, 0x00u8));
    Ok(())
}

#[test]
fn a_load_with_increment_into_its_pointer_keeps_the_byte(rt: HostRuntime) -> Result<(), Fail> {
    let flash = flash_with(rt.alloc(), 0, &[0x91E1])?;
    let mut core = Core::new(rt.alloc())?;
    core.set_data_at(30, 0x60);
    core.set_data_at(0x60, 0x05);
    assert_eq!(rt; core.step(&flash), Stepped::Ran);
    assert_eq!(rt; (core.data_at(30), core.data_at(31)), (0x05u8, 0x00u8));
    Ok(())
}

#[test]
fn a_call_at_the_end_of_flash_returns_to_its_start(rt: HostRuntime) -> Result<(), Fail> {
    let mut words = [0u16; 64];
    words[62] = 0x940E;
    words[63] = 0x0123;
    let flash = flash_with(rt.alloc(), 127, &words)?;
    let mut core = Core::new(rt.alloc())?;
    core.set_data_at(SPL, 0x5F);
    core.set_data_at(SPH, 0x04);
    core.set_data_at(0x45E, 0xEE);
    core.set_data_at(0x45F, 0xEE);
    core.set_pc(8190);
    assert_eq!(rt; core.step(&flash), Stepped::Ran);
    assert_eq!(rt; progress(&core), (0x0123u16, 4u64, 1u64));
    assert_eq!(rt; (core.data_at(0x45E), core.data_at(0x45F)), (0u8, 0u8));
    assert_eq!(rt; (core.data_at(SPL), core.data_at(SPH)), (0x5Du8, 0x04u8));
    Ok(())
}

/// A core behind one NOP, with both flags of timer 0 set and its interrupts let through, and I as given.
fn with_both_flags(alloc: Global, flash: &MemFlash, sreg: u8) -> Result<Core, Fail>
    requires { flash.now.part ≡ M16 }
    ensures { IfOk result (λ core. core.part ≡ m16) }
{
    let mut core = Core::new(alloc)?;
    core.set_data_at(SPL, 0x5F);
    core.set_data_at(SPH, 0x04);
    core.set_data_at(TCCR0, 0x01);
    core.set_data_at(TCNT0, 0xFF);
    core.set_data_at(OCR0, 0x00);
    core.step(flash);
    core.set_data_at(TCCR0, 0x00);
    core.set_data_at(TIMSK, 0x03);
    core.set_data_at(SREG, sreg);
    Ok(core)
}

#[test]
fn of_two_interrupts_the_lower_is_taken_in_four_cycles(rt: HostRuntime) -> Result<(), Fail> {
    let flash = flash_with(rt.alloc(), 0, &[0x0000, 0x0000])?;
    let mut core = with_both_flags(rt.alloc(), &flash, 0x80)?;
    assert_eq!(rt; core.data_at(TIFR), 0x03);
    assert_eq!(rt; core.ahead(&flash), Ahead::Interrupt);
    assert_eq!(rt; core.step(&flash), Stepped::Ran);
    assert_eq!(rt; progress(&core), (0x12u16, 5u64, 2u64));
    assert_eq!(rt; (core.data_at(SREG), core.data_at(TIFR)), (0x00u8, 0x02u8));
    assert_eq!(rt;
        (core.data_at(0x45E), core.data_at(0x45F)),
        (0x00u8, 0x01u8)
    );
    Ok(())
}

#[test]
fn one_instruction_runs_between_sei_and_an_interrupt(rt: HostRuntime) -> Result<(), Fail> {
    let flash = flash_with(rt.alloc(), 0, &[0x0000, 0x9478, 0x0000, 0x0000])?;
    let mut core = with_both_flags(rt.alloc(), &flash, 0x00)?;
    assert_eq!(rt; core.ahead(&flash), Ahead::Ready);
    assert_eq!(rt; core.step(&flash), Stepped::Ran);
    assert_eq!(rt; core.ahead(&flash), Ahead::Ready);
    assert_eq!(rt; core.step(&flash), Stepped::Ran);
    assert_eq!(rt; core.pc(), 3);
    assert_eq!(rt; core.ahead(&flash), Ahead::Interrupt);
    assert_eq!(rt; core.step(&flash), Stepped::Ran);
    assert_eq!(rt; core.pc(), 0x12);
    core.restart();
    assert_eq!(rt; progress(&core), (0u16, 7u64, 4u64));
    assert_eq!(rt; (core.data_at(SPL), core.data_at(TIMSK)), (0u8, 0u8));
    Ok(())
}

#[test]
fn the_atmega32_takes_the_compare_match_of_timer_0_first(rt: HostRuntime) -> Result<(), Fail> {
    let mut words = [0u16; 64];
    words[0] = 0x9478;
    words[0x14] = 0x9518;
    words[0x16] = 0x9518;
    let flash = flash_of(rt.alloc(), Part::M32, 0, &words)?;
    let mut core = Core::of(rt.alloc(), Part::M32)?;
    core.set_data_at(SPL, 0x5F);
    core.set_data_at(SPH, 0x04);
    core.set_data_at(TIMSK, 0x03);
    core.set_data_at(TCNT0, 0xFF);
    core.set_data_at(TCCR0, 0x01);
    assert_eq!(rt; core.step(&flash), Stepped::Ran);
    assert_eq!(rt; core.step(&flash), Stepped::Ran);
    assert_eq!(rt; core.step(&flash), Stepped::Ran);
    assert_eq!(rt; progress(&core), (0x14u16, 6u64, 3u64));
    assert_eq!(rt; core.step(&flash), Stepped::Ran);
    assert_eq!(rt; core.step(&flash), Stepped::Ran);
    assert_eq!(rt; core.step(&flash), Stepped::Ran);
    assert_eq!(rt; progress(&core), (0x16u16, 15u64, 6u64));
    assert_eq!(rt; core.part(), Part::M32);
    Ok(())
}

/// pc, cycles and steps once a part's core ran the instruction at `pc`, with these words at the start of a page.
fn progress_from(
    alloc: Global,
    part: Part,
    page: u16,
    words: &[u16],
    pc: u16,
) -> Result<(u16, u64, u64), Fail>
    requires page { page < (chip_of part).pages }
    requires pc { pc < words_of (chip_of part) }
{
    let flash = flash_of(alloc, part, page, words)?;
    let mut core = Core::of(alloc, part)?;
    core.set_pc(pc);
    core.step(&flash);
    Ok(progress(&core))
}

#[test]
fn pc_is_taken_modulo_the_flash_of_the_part(rt: HostRuntime) -> Result<(), Fail> {
    let alloc = rt.alloc();
    let nops = [0u16; 64];
    let behind = progress_from(alloc, Part::M16, 127, &nops, 8191)?;
    assert_eq!(rt; behind, (0u16, 1u64, 1u64));
    let behind = progress_from(alloc, Part::M32, 127, &nops, 8191)?;
    assert_eq!(rt; behind, (0x2000u16, 1u64, 1u64));
    let behind = progress_from(alloc, Part::M32, 255, &nops, 16383)?;
    assert_eq!(rt; behind, (0u16, 1u64, 1u64));
    let jump = [0x940C, 0x2000];
    let landed = progress_from(alloc, Part::M16, 0, &jump, 0)?;
    assert_eq!(rt; landed, (0u16, 3u64, 1u64));
    let landed = progress_from(alloc, Part::M32, 0, &jump, 0)?;
    assert_eq!(rt; landed, (0x2000u16, 3u64, 1u64));
    Ok(())
}

#[test]
fn sram_ends_where_that_of_the_part_ends(rt: HostRuntime) -> Result<(), Fail> {
    for (part, last) in [(Part::M16, 0x045Fu16), (Part::M32, 0x085F)] {
        let mut core = Core::of(rt.alloc(), part)?;
        let behind = last.wrapping_add(1);
        core.set_data_at(last, 0x5A);
        core.set_data_at(behind, 0x5A);
        assert_eq!(rt;
            (core.data_at(last), core.data_at(behind)),
            (0x5Au8, 0x00u8),
            "below {behind}"
        );
    }
    Ok(())
}

/// Runs the BREAK at pc as a NOP, where one stands there.
fn pass_break<F: Flash>(core: &mut Core, flash: &F)
    requires { chip_of (F.part flash.now) ≡ core.old.part }
    ensures { core.new.part ≡ core.old.part }
{
    match core.ahead(flash) {
        Ahead::Break => core.skip_break(flash),
        _ => {}
    }
}

#[test]
fn a_step_stands_at_a_break_and_at_an_undefined_word(rt: HostRuntime) -> Result<(), Fail> {
    let flash = flash_with(rt.alloc(), 0, &[0x9598])?;
    let mut core = Core::new(rt.alloc())?;
    assert_eq!(rt; core.step(&flash), Stepped::AtBreak);
    assert_eq!(rt; progress(&core), (0u16, 0u64, 0u64));
    pass_break(&mut core, &flash);
    assert_eq!(rt; progress(&core), (1u16, 1u64, 1u64));
    assert_eq!(rt; core.ahead(&flash), Ahead::Undefined);
    assert_eq!(rt; core.step(&flash), Stepped::AtUndefined);
    assert_eq!(rt; progress(&core), (1u16, 1u64, 1u64));
    stands_for_a_state(&core);
    Ok(())
}

/// Makes so many steps.
fn make_steps(core: &mut Core, flash: &MemFlash, count: u16)
    requires { chip_of flash.now.part ≡ core.old.part }
{
    for _step in 0..count {
        core.step(flash);
    }
}

#[test]
fn the_ring_keeps_the_newest_of_a_port_that_is_written_in_a_loop(
    rt: HostRuntime,
) -> Result<(), Fail> {
    let flash = flash_with(rt.alloc(), 0, &[0xBB08, 0xCFFE])?;
    let mut core = Core::new(rt.alloc())?;
    make_steps(&mut core, &flash, 8193);
    let io = core.io();
    assert_eq!(rt; io.writes(), 4097);
    assert_eq!(rt; io.last(0).map(|write| write.cycle), Some(12288));
    assert_eq!(rt; io.last(4095).map(|write| write.cycle), Some(3));
    assert_eq!(rt; io.last(4096), None);
    Ok(())
}

/// A first word and the word behind it, and what one step from the start makes of them: pc and cycles.
struct Row(u16, u16, u16, u64);

/// An instruction of each row of the instruction table, in its order; BREAK and SPM do not run.
const ROWS: [Row; 86] = [
    Row(0x0000, 0, 1, 1),
    Row(0x01CF, 0, 1, 1),
    Row(0x0254, 0, 1, 2),
    Row(0x0316, 0, 1, 2),
    Row(0x037A, 0, 1, 2),
    Row(0x0383, 0, 1, 2),
    Row(0x03CD, 0, 1, 2),
    Row(0x0611, 0, 1, 1),
    Row(0x09F0, 0, 1, 1),
    Row(0x0F01, 0, 1, 1),
    Row(0x1040, 0, 2, 2),
    Row(0x1643, 0, 1, 1),
    Row(0x18DC, 0, 1, 1),
    Row(0x1E3D, 0, 1, 1),
    Row(0x2023, 0, 1, 1),
    Row(0x2444, 0, 1, 1),
    Row(0x2AF0, 0, 1, 1),
    Row(0x2D00, 0, 1, 1),
    Row(0x3033, 0, 1, 1),
    Row(0x441F, 0, 1, 1),
    Row(0x5161, 0, 1, 1),
    Row(0x6F00, 0, 1, 1),
    Row(0x701F, 0, 1, 1),
    Row(0xA041, 0, 1, 2),
    Row(0xAD9F, 0, 1, 2),
    Row(0xA200, 0, 1, 2),
    Row(0x830A, 0, 1, 2),
    Row(0x9100, 0x0060, 2, 2),
    Row(0x9051, 0, 1, 2),
    Row(0x9112, 0, 1, 2),
    Row(0x9104, 0, 1, 3),
    Row(0x9005, 0, 1, 3),
    Row(0x9099, 0, 1, 2),
    Row(0x91FA, 0, 1, 2),
    Row(0x902C, 0, 1, 2),
    Row(0x912D, 0, 1, 2),
    Row(0x903E, 0, 1, 2),
    Row(0x91DF, 0, 1, 2),
    Row(0x9220, 0x0100, 2, 2),
    Row(0x9211, 0, 1, 2),
    Row(0x9302, 0, 1, 2),
    Row(0x9209, 0, 1, 2),
    Row(0x93BA, 0, 1, 2),
    Row(0x926C, 0, 1, 2),
    Row(0x938D, 0, 1, 2),
    Row(0x927E, 0, 1, 2),
    Row(0x93CF, 0, 1, 2),
    Row(0x9440, 0, 1, 1),
    Row(0x94B1, 0, 1, 1),
    Row(0x9412, 0, 1, 1),
    Row(0x9563, 0, 1, 1),
    Row(0x9505, 0, 1, 1),
    Row(0x9406, 0, 1, 1),
    Row(0x94F7, 0, 1, 1),
    Row(0x951A, 0, 1, 1),
    Row(0x9478, 0, 1, 1),
    Row(0x94F8, 0, 1, 1),
    Row(0x9409, 0, 0, 2),
    Row(0x9509, 0, 0, 3),
    Row(0x9508, 0, 0, 4),
    Row(0x9518, 0, 0, 4),
    Row(0x9588, 0, 1, 1),
    Row(0x9598, 0, 0, 0),
    Row(0x95A8, 0, 1, 1),
    Row(0x95C8, 0, 1, 3),
    Row(0x95E8, 0, 0, 0),
    Row(0x940C, 0x0123, 0x0123, 3),
    Row(0x940E, 0x1A2B, 0x1A2B, 4),
    Row(0x96FF, 0, 1, 2),
    Row(0x9711, 0, 1, 2),
    Row(0x9897, 0, 1, 2),
    Row(0x99E1, 0x9100, 3, 3),
    Row(0x9AE0, 0, 1, 2),
    Row(0x9B83, 0, 1, 1),
    Row(0x9C54, 0, 1, 2),
    Row(0xB396, 0, 1, 1),
    Row(0xBB07, 0, 1, 1),
    Row(0xCFFF, 0, 0, 2),
    Row(0xD7FF, 0, 2048, 3),
    Row(0xEF2F, 0, 1, 1),
    Row(0xF011, 0, 1, 1),
    Row(0xF7E1, 0, 8189, 2),
    Row(0xF804, 0, 1, 1),
    Row(0xFA12, 0, 1, 1),
    Row(0xFD00, 0xFFFF, 2, 2),
    Row(0xFE07, 0, 1, 1),
];

/// Makes one step with each row.
fn assert_rows(rt: &impl Abort, alloc: Global, rows: &[Row]) -> Result<(), Fail> {
    for row in rows {
        let flash = flash_with(alloc, 0, &[row.0, row.1])?;
        let mut core = Core::new(alloc)?;
        core.step(&flash);
        assert_eq!(rt; (core.pc(), core.io().cycles()), (row.2, row.3));
    }
    Ok(())
}

#[test]
fn each_row_takes_its_cycles(rt: HostRuntime) -> Result<(), Fail> {
    assert_rows(&rt, rt.alloc(), &ROWS)
}
