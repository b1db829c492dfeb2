//! What a core holds, and what is read and set in it from outside.
ghost use Rattle.std.specs.Prelude.{◌≡◌, ◌+◌, ◌%◌, ◌^◌, ◌<◌, ◌≤◌, slice_index, slice_set, IfOk, IsTrue};
ghost use Rattle.part_spec.specs.Chip.{m16, chip_of, words_of, flash_bytes};
ghost use Rattle.avr_spec.specs.Machine.{IsShapedIo, sram_bytes, machine_start, restarted};
ghost use Rattle.avr_spec.specs.Kept.{kept};
ghost use Rattle.avr_spec.specs.IoSpace.{load_io, store_io};
ghost use Rattle.avr_spec.specs.Timers.{ticks};
ghost use Rattle.avr_spec.specs.Interrupts.{is_pending, take_flag};
ghost use Rattle.avr_spec.specs.Memory.{reg, with_reg};
ghost use Rattle.avr_spec.specs.Effect.{with_pc, with_io, moved};
ghost use Rattle.avr_io.specs.Keeps.{io_of};
ghost use Rattle.avr_core.specs.Stands.{Moves, Shows, StandsForSome};

use avr_io::{Io, Vector};
use part_spec::{MOST_SRAM, Part};
use std::alloc::{AllocError, Global};
use std::marker::Model;

/// The core of a part: pc, registers, I/O space, SRAM, the count of steps, and the hold, which keeps interrupts back for one step.
#[derive(Drop)]
pub struct Core {
    part: Part,
    pc: u16,
    registers: [u8; 32],
    io: Io,
    /// The part's SRAM, and behind it what only a larger part has.
    sram: [u8; MOST_SRAM],
    steps: u64,
    hold: bool,
    /// Takes a word address modulo the flash: the part's number, at hand for each step.
    mask: u16,
    /// The first data address behind SRAM: the part's number, at hand for each load and store.
    sram_end: u16,
}

impl Model for Core {
    ghost use Rattle.std.specs.Prelude.{take};
    ghost use Rattle.part_spec.specs.Chip.{chip_of};
    ghost use Rattle.avr_spec.specs.Machine.{sram_bytes};
    ghost use Rattle.avr_spec.specs.Kept.{Kept};
    ghost use Rattle.avr_core.specs.Stands.{IsShapedCore};

    ghost Value = { Kept };

    ghost view = { λ s. record {
      part = chip_of s.part;
      pc = s.pc;
      registers = s.registers;
      io = s.io;
      sram = take (sram_bytes (chip_of s.part)) s.sram;
      steps = s.steps;
      hold = s.hold;
    } };

    ghost invariant = { λ s. IsShapedCore (chip_of s.part) s.pc s.registers s.io s.sram s.mask s.sram_end };
}

impl Core {
    /// A core of an ATmega16 at its start: pc, registers, SRAM, I/O space and both counts 0. It takes all its memory here.
    pub fn new(alloc: Global) -> Result<Core, AllocError>
        ensures { IfOk result (λ core. core ≡ kept m16 (machine_start m16)) }
    {
        Core::of(alloc, Part::M16)
    }

    /// The same of a part.
    pub fn of(alloc: Global, part: Part) -> Result<Core, AllocError>
        ensures { IfOk result (λ core. core ≡ kept (chip_of part) (machine_start (chip_of part))) }
    {
        Ok(Core {
            part,
            pc: 0,
            registers: [0; 32],
            io: Io::of(alloc, part)?,
            sram: [0; MOST_SRAM],
            steps: 0,
            hold: false,
            mask: part.mask(),
            sram_end: part.sram_end(),
        })
    }

    /// The part. It never changes.
    pub fn part(&self) -> Part
        ensures { chip_of result ≡ self.now.part }
    {
        self.part
    }

    /// The word address of the next instruction.
    #[inline]
    pub fn pc(&self) -> u16
        ensures pc { result ≡ self.now.pc }
        ensures in_flash { result < words_of self.now.part }
        ensures small { result < 16384 }
    {
        self.pc
    }

    /// Sets pc to a word address of the flash. All else stays, the hold too.
    #[inline]
    pub fn set_pc(&mut self, pc: u16)
        requires { pc < words_of self.old.part }
        ensures moves { Moves self.old self.new (λ part p. with_pc pc p) }
        ensures part { self.new.part ≡ self.old.part }
    {
        self.pc = pc;
    }

    /// Sets pc to a word address modulo the flash.
    #[inline]
    pub(crate) fn go_to(&mut self, address: u32)
        ensures { Moves self.old self.new (λ part p. with_pc (address % words_of part) p) }
    {
        self.pc = (address & u32::from(self.mask)) as u16;
    }

    /// The word address that a two's complement distance of so many values leads to from pc, yet to be taken modulo the flash.
    #[inline]
    pub(crate) fn led_to(&self, values: u16, k: u16) -> u32
        requires values { values ≤ 4096 }
        requires k { k < values }
        ensures { result % words_of self.now.part ≡ moved self.now.part values k self.now.pc }
    {
        if k < values / 2 {
            u32::from(self.pc) + u32::from(k)
        } else {
            u32::from(self.pc).wrapping_sub(u32::from(values - k))
        }
    }

    /// A byte address modulo the flash.
    #[inline]
    pub(crate) fn flash_address(&self, address: u16) -> u16
        ensures wraps { result ≡ address % flash_bytes self.now.part }
        ensures in_flash { result < flash_bytes self.now.part }
    {
        address & (2 * self.mask + 1)
    }

    /// The first data address behind SRAM.
    #[inline]
    pub(crate) fn sram_end(&self) -> u16
        ensures { result ≡ self.now.part.sram_end }
    {
        self.sram_end
    }

    /// How many steps were made, modulo 2^64.
    pub fn steps(&self) -> u64
        ensures { result ≡ self.now.steps }
    {
        self.steps
    }

    /// The I/O space.
    pub fn io(&self) -> &Io
        ensures { result.now ≡ self.now.io }
    {
        &self.io
    }

    /// Resets the target: pc and all bytes of the I/O space become 0, and the hold ends. Registers, SRAM, the counts of cycles and
    /// steps and the output writes stay.
    pub fn restart(&mut self)
        ensures moves { Moves self.old self.new (λ part p. restarted p) }
        ensures part { self.new.part ≡ self.old.part }
    {
        self.io.restart();
        self.pc = 0;
        self.hold = false;
    }

    /// A register.
    #[inline]
    pub(crate) fn reg(&self, n: u8) -> u8
        requires { n < 32 }
        ensures { Shows self.now result (λ part p. reg p n) }
    {
        self.registers[n as usize]
    }

    /// Puts a byte into a register.
    #[inline]
    pub(crate) fn set_reg(&mut self, n: u8, byte: u8)
        requires { n < 32 }
        ensures { Moves self.old self.new (λ part p. with_reg n byte p) }
    {
        self.registers[n as usize] = byte;
    }

    /// The byte of SRAM so many bytes behind its start.
    #[inline]
    pub(crate) fn sram_byte(&self, offset: u16) -> u8
        requires { offset < sram_bytes self.now.part }
        ensures { Shows self.now result (λ part p. slice_index p.sram offset) }
    {
        self.sram[offset as usize]
    }

    /// Puts a byte into SRAM so many bytes behind its start.
    #[inline]
    pub(crate) fn set_sram_byte(&mut self, offset: u16, byte: u8)
        requires { offset < sram_bytes self.old.part }
        ensures { Moves self.old self.new (λ part p. record p { sram = slice_set p.sram offset byte }) }
    {
        self.sram[offset as usize] = byte;
    }

    /// The byte that a load of an I/O address gives.
    #[inline]
    pub(crate) fn load_io(&self, a: u8) -> u8
        requires { a < 64 }
        ensures { Shows self.now result (λ part p. load_io a p.io) }
    {
        self.io.load(a)
    }

    /// Stores a byte at an I/O address.
    #[inline]
    pub(crate) fn store_io(&mut self, a: u8, byte: u8)
        requires { a < 64 }
        ensures { Moves self.old self.new (λ part p. with_io a byte p) }
    {
        self.io.store(a, byte);
    }

    /// Whether interrupts are kept back for one step.
    #[inline]
    pub(crate) fn is_held(&self) -> bool
        ensures { result ≡ self.now.hold }
    {
        self.hold
    }

    /// Sets the hold.
    #[inline]
    pub(crate) fn set_hold(&mut self, hold: bool)
        ensures { Moves self.old self.new (λ part p. record p { hold = hold }) }
    {
        self.hold = hold;
    }

    /// Ends a step: so many cycles pass, and one step more is counted.
    #[inline]
    pub(crate) fn end(&mut self, cycles: u8)
        ensures { Moves self.old self.new (λ part p. record p { io = ticks cycles p.io; steps = (p.steps + 1) % 2 ^ 64 }) }
    {
        self.io.tick(cycles);
        self.steps = self.steps.wrapping_add(1);
    }

    /// Clears the flag of an interrupt that is pending.
    pub(crate) fn take_flag(&mut self, v: Vector)
        requires { IsTrue (is_pending (io_of self.old.io) v) }
        ensures cleared { Moves self.old self.new (λ part p. record p { io = take_flag v p.io }) }
        ensures shape { IsShapedIo (io_of self.old.io) }
    {
        // That the I/O space has its shape is told by this call.
        let _cycles = self.io.cycles();
        self.io.take(v);
    }
}

/// Each core stands for some state of the machine, so no contract here is about nothing. It does nothing.
#[inline]
pub fn stands_for_a_state(core: &Core)
    ensures { StandsForSome core.now }
{
    let _steps = core.steps;
    let _cycles = core.io.cycles();
}
