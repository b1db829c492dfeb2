//! The stack (AVR Instruction Set Manual, PUSH, POP, CALL and RET).
ghost use Rattle.std.specs.Prelude.{◌≡◌, ◌<◌, ◌%◌};
ghost use Rattle.part_spec.specs.Chip.{words_of};
ghost use Rattle.avr_spec.specs.Memory.{sp, with_sp, pushed_pc, popped_pc};
ghost use Rattle.avr_spec.specs.Effect.{called};
ghost use Rattle.avr_core.specs.Stands.{Moves, Shows};
ghost use Rattle.avr_core.specs.Leaves.{Executes};

use crate::bytes::{high, low, word};
use crate::state::Core;
use avr_spec::Instr;

/// The I/O addresses of the stack pointer's bytes.
const SPL: u8 = 0x3D;

const SPH: u8 = 0x3E;

impl Core {
    /// The stack pointer.
    #[inline]
    fn sp(&self) -> u16
        ensures { Shows self.now result (λ part p. sp p) }
    {
        word(self.load_io(SPL), self.load_io(SPH))
    }

    /// Sets the stack pointer.
    #[inline]
    fn set_sp(&mut self, address: u16)
        ensures { Moves self.old self.new (λ part p. with_sp address p) }
    {
        self.store_io(SPL, low(address));
        self.store_io(SPH, high(address));
    }

    /// PUSH: stores at SP, then lowers SP by 1.
    #[inline]
    pub(crate) fn push(&mut self, r: u8) -> u8
        requires { r < 32 }
        ensures { Executes self.old self.new result (Instr.Push r) }
    {
        let top = self.sp();
        self.put_data(top, self.reg(r));
        self.set_sp(top.wrapping_sub(1));
        2
    }

    /// POP: raises SP by 1, then loads from it.
    #[inline]
    pub(crate) fn pop(&mut self, d: u8) -> u8
        requires { d < 32 }
        ensures { Executes self.old self.new result (Instr.Pop d) }
    {
        let top = self.sp().wrapping_add(1);
        self.set_sp(top);
        self.set_reg(d, self.data_at(top));
        2
    }

    /// Pushes pc: the low byte at SP, the high byte below it.
    pub(crate) fn push_pc(&mut self)
        ensures { Moves self.old self.new (λ part p. pushed_pc part p) }
    {
        let pc = self.pc();
        let top = self.sp();
        self.put_data(top, low(pc));
        self.put_data(top.wrapping_sub(1), high(pc));
        self.set_sp(top.wrapping_sub(2));
    }

    /// Pops pc: the high byte above SP, the low byte above that.
    pub(crate) fn pop_pc(&mut self)
        ensures { Moves self.old self.new (λ part p. popped_pc part p) }
    {
        let top = self.sp();
        let high = self.data_at(top.wrapping_add(1));
        let low = self.data_at(top.wrapping_add(2));
        self.set_sp(top.wrapping_add(2));
        self.go_to(u32::from(word(low, high)));
    }

    /// Calls a word address modulo the flash: pushes pc and goes there.
    #[inline]
    pub(crate) fn enter(&mut self, address: u32)
        ensures { Moves self.old self.new (λ part p. called part (address % words_of part) p) }
    {
        self.push_pc();
        self.go_to(address);
    }
}
