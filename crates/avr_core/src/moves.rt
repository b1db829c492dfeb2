//! Moves, single bits and the I/O space (AVR Instruction Set Manual): each method is an instruction, and answers its cycles.
ghost use Rattle.std.specs.Prelude.{◌≡◌};
ghost use Rattle.avr_spec.specs.Fields.{FieldsFit};
ghost use Rattle.avr_core.specs.Leaves.{Executes};

use crate::registers::{INTERRUPTS, TRANSFER};
use crate::state::Core;
use avr_io::{has_bit, with_bit};
use avr_spec::Instr;

impl Core {
    /// MOV.
    #[inline]
    pub(crate) fn mov(&mut self, d: u8, r: u8) -> u8
        requires { FieldsFit (Instr.Mov d r) }
        ensures { Executes self.old self.new result (Instr.Mov d r) }
    {
        let byte = self.reg(r);
        self.set_reg(d, byte);
        1
    }

    /// MOVW, between the register pairs 2d + 1 : 2d and 2r + 1 : 2r.
    #[inline]
    pub(crate) fn movw(&mut self, d: u8, r: u8) -> u8
        requires { FieldsFit (Instr.Movw d r) }
        ensures { Executes self.old self.new result (Instr.Movw d r) }
    {
        let word = self.pair(2 * r);
        self.set_pair(2 * d, word);
        1
    }

    /// LDI, into register 16 + d.
    #[inline]
    pub(crate) fn ldi(&mut self, d: u8, k: u8) -> u8
        requires { FieldsFit (Instr.Ldi d k) }
        ensures { Executes self.old self.new result (Instr.Ldi d k) }
    {
        self.set_reg(16 + d, k);
        1
    }

    /// SWAP: the halves of a byte exchanged.
    #[inline]
    pub(crate) fn swap(&mut self, d: u8) -> u8
        requires { FieldsFit (Instr.Swap d) }
        ensures { Executes self.old self.new result (Instr.Swap d) }
    {
        let byte = self.reg(d);
        self.set_reg(d, byte % 16 * 16 + byte / 16);
        1
    }

    /// IN.
    #[inline]
    pub(crate) fn in_(&mut self, d: u8, a: u8) -> u8
        requires { FieldsFit (Instr.In d a) }
        ensures { Executes self.old self.new result (Instr.In d a) }
    {
        let byte = self.load_io(a);
        self.set_reg(d, byte);
        1
    }

    /// OUT.
    #[inline]
    pub(crate) fn out_(&mut self, r: u8, a: u8) -> u8
        requires { FieldsFit (Instr.Out r a) }
        ensures { Executes self.old self.new result (Instr.Out r a) }
    {
        let byte = self.reg(r);
        self.store_io(a, byte);
        1
    }

    /// CBI: loads, and stores with bit b cleared.
    #[inline]
    pub(crate) fn cbi(&mut self, a: u8, b: u8) -> u8
        requires { FieldsFit (Instr.Cbi a b) }
        ensures { Executes self.old self.new result (Instr.Cbi a b) }
    {
        let byte = with_bit(self.load_io(a), b, false);
        self.store_io(a, byte);
        2
    }

    /// SBI: loads, and stores with bit b set.
    #[inline]
    pub(crate) fn sbi(&mut self, a: u8, b: u8) -> u8
        requires { FieldsFit (Instr.Sbi a b) }
        ensures { Executes self.old self.new result (Instr.Sbi a b) }
    {
        let byte = with_bit(self.load_io(a), b, true);
        self.store_io(a, byte);
        2
    }

    /// BSET. Setting I keeps interrupts back for one step.
    #[inline]
    pub(crate) fn bset(&mut self, s: u8) -> u8
        requires { FieldsFit (Instr.Bset s) }
        ensures { Executes self.old self.new result (Instr.Bset s) }
    {
        self.set_flag(s, true);
        self.set_hold(s == INTERRUPTS);
        1
    }

    /// BCLR.
    #[inline]
    pub(crate) fn bclr(&mut self, s: u8) -> u8
        requires { FieldsFit (Instr.Bclr s) }
        ensures { Executes self.old self.new result (Instr.Bclr s) }
    {
        self.set_flag(s, false);
        1
    }

    /// BLD: T into bit b of a register.
    #[inline]
    pub(crate) fn bld(&mut self, d: u8, b: u8) -> u8
        requires { FieldsFit (Instr.Bld d b) }
        ensures { Executes self.old self.new result (Instr.Bld d b) }
    {
        let byte = with_bit(self.reg(d), b, self.has_flag(TRANSFER));
        self.set_reg(d, byte);
        1
    }

    /// BST: bit b of a register into T.
    #[inline]
    pub(crate) fn bst(&mut self, d: u8, b: u8) -> u8
        requires { FieldsFit (Instr.Bst d b) }
        ensures { Executes self.old self.new result (Instr.Bst d b) }
    {
        let bit = has_bit(self.reg(d), b);
        self.set_flag(TRANSFER, bit);
        1
    }
}
