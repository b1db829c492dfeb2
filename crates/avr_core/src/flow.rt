//! Jumps, calls, branches and skips (AVR Instruction Set Manual). Each method answers its cycles.
ghost use Rattle.std.specs.Prelude.{◌≡◌, ◌+◌, ◌%◌, ◌<◌, ◌≤◌, []};
ghost use Rattle.part_spec.specs.Chip.{chip_of};
ghost use Rattle.avr_spec.specs.Fields.{FieldsFit};
ghost use Rattle.avr_spec.specs.Effect as book;
ghost use Rattle.avr_spec.specs.Decode as decoding;
ghost use Rattle.avr_spec.specs.Step.{word_at};
ghost use Rattle.avr_core.specs.Stands.{Moves, Shows};
ghost use Rattle.avr_core.specs.Leaves.{Leaves, Executes, Runs, past};

use crate::registers::{INTERRUPTS, Z};
use crate::state::Core;
use avr_decode::{decode, words};
use avr_io::has_bit;
use avr_spec::Instr;
use ice_base::Flash;

impl Core {
    /// IJMP: to word Z.
    #[inline]
    pub(crate) fn ijmp(&mut self) -> u8
        ensures { Executes self.old self.new result Instr.Ijmp }
    {
        let z = self.pair(Z);
        self.go_to(u32::from(z));
        2
    }

    /// ICALL: calls word Z.
    #[inline]
    pub(crate) fn icall(&mut self) -> u8
        ensures { Executes self.old self.new result Instr.Icall }
    {
        let z = self.pair(Z);
        self.enter(u32::from(z));
        3
    }

    /// RET.
    #[inline]
    pub(crate) fn ret(&mut self) -> u8
        ensures { Executes self.old self.new result Instr.Ret }
    {
        self.pop_pc();
        4
    }

    /// RETI: sets I too, and keeps interrupts back for one step.
    #[inline]
    pub(crate) fn reti(&mut self) -> u8
        ensures { Executes self.old self.new result Instr.Reti }
    {
        self.pop_pc();
        self.set_flag(INTERRUPTS, true);
        self.set_hold(true);
        4
    }

    /// JMP, where `k` has the address's bits of the first word.
    #[inline]
    pub(crate) fn jmp<F: Flash>(&mut self, k: u32, flash: &F) -> u8
        requires fields { FieldsFit (Instr.Jmp k) }
        requires part { chip_of (F.part flash.now) ≡ self.old.part }
        ensures { Runs self.old self.new result (F.words flash.now) (Instr.Jmp k) }
    {
        let target = self.target(k, flash);
        self.go_to(target);
        3
    }

    /// CALL, where `k` has the address's bits of the first word.
    #[inline]
    pub(crate) fn call<F: Flash>(&mut self, k: u32, flash: &F) -> u8
        requires fields { FieldsFit (Instr.Call k) }
        requires part { chip_of (F.part flash.now) ≡ self.old.part }
        ensures { Runs self.old self.new result (F.words flash.now) (Instr.Call k) }
    {
        let target = self.target(k, flash);
        self.enter(target);
        4
    }

    /// The target of a JMP or CALL, yet to be taken modulo the flash, whose second word is read at pc and passed.
    #[inline]
    fn target<F: Flash>(&mut self, k: u32, flash: &F) -> u32
        requires fields { FieldsFit (Instr.Jmp k) }
        requires part { chip_of (F.part flash.now) ≡ self.old.part }
        ensures target { Shows self.old result (λ part p. k + word_at (F.words flash.now) p.pc) }
        ensures past { Moves self.old self.new (λ part p. past part 1 p) }
    {
        let second = self.next_word(flash);
        k + u32::from(second)
    }

    /// RJMP.
    #[inline]
    pub(crate) fn rjmp(&mut self, k: u16) -> u8
        requires { FieldsFit (Instr.Rjmp k) }
        ensures { Executes self.old self.new result (Instr.Rjmp k) }
    {
        let target = self.led_to(4096, k);
        self.go_to(target);
        2
    }

    /// RCALL.
    #[inline]
    pub(crate) fn rcall(&mut self, k: u16) -> u8
        requires { FieldsFit (Instr.Rcall k) }
        ensures { Executes self.old self.new result (Instr.Rcall k) }
    {
        let target = self.led_to(4096, k);
        self.enter(target);
        3
    }

    /// BRBS: where bit `s` of SREG is set.
    #[inline]
    pub(crate) fn brbs(&mut self, s: u8, k: u8) -> u8
        requires { FieldsFit (Instr.Brbs s k) }
        ensures { Executes self.old self.new result (Instr.Brbs s k) }
    {
        let taken = self.has_flag(s);
        self.branch(taken, k)
    }

    /// BRBC: where bit `s` of SREG is clear.
    #[inline]
    pub(crate) fn brbc(&mut self, s: u8, k: u8) -> u8
        requires { FieldsFit (Instr.Brbc s k) }
        ensures { Executes self.old self.new result (Instr.Brbc s k) }
    {
        let taken = !self.has_flag(s);
        self.branch(taken, k)
    }

    /// A branch by a distance of 7 bits, where it is taken.
    #[inline]
    fn branch(&mut self, taken: bool, k: u8) -> u8
        requires { k < 128 }
        ensures { Leaves self.old self.new result [] (λ part p. book.branch part taken k p) }
    {
        if taken {
            let target = self.led_to(128, u16::from(k));
            self.go_to(target);
            2
        } else {
            1
        }
    }

    /// CPSE.
    #[inline]
    pub(crate) fn cpse<F: Flash>(&mut self, d: u8, r: u8, flash: &F) -> u8
        requires fields { FieldsFit (Instr.Cpse d r) }
        requires part { chip_of (F.part flash.now) ≡ self.old.part }
        ensures { Runs self.old self.new result (F.words flash.now) (Instr.Cpse d r) }
    {
        let over = self.reg(d) == self.reg(r);
        self.skip(over, flash)
    }

    /// SBIC.
    #[inline]
    pub(crate) fn sbic<F: Flash>(&mut self, a: u8, b: u8, flash: &F) -> u8
        requires fields { FieldsFit (Instr.Sbic a b) }
        requires part { chip_of (F.part flash.now) ≡ self.old.part }
        ensures { Runs self.old self.new result (F.words flash.now) (Instr.Sbic a b) }
    {
        let over = !has_bit(self.load_io(a), b);
        self.skip(over, flash)
    }

    /// SBIS.
    #[inline]
    pub(crate) fn sbis<F: Flash>(&mut self, a: u8, b: u8, flash: &F) -> u8
        requires fields { FieldsFit (Instr.Sbis a b) }
        requires part { chip_of (F.part flash.now) ≡ self.old.part }
        ensures { Runs self.old self.new result (F.words flash.now) (Instr.Sbis a b) }
    {
        let over = has_bit(self.load_io(a), b);
        self.skip(over, flash)
    }

    /// SBRC.
    #[inline]
    pub(crate) fn sbrc<F: Flash>(&mut self, r: u8, b: u8, flash: &F) -> u8
        requires fields { FieldsFit (Instr.Sbrc r b) }
        requires part { chip_of (F.part flash.now) ≡ self.old.part }
        ensures { Runs self.old self.new result (F.words flash.now) (Instr.Sbrc r b) }
    {
        let over = !has_bit(self.reg(r), b);
        self.skip(over, flash)
    }

    /// SBRS.
    #[inline]
    pub(crate) fn sbrs<F: Flash>(&mut self, r: u8, b: u8, flash: &F) -> u8
        requires fields { FieldsFit (Instr.Sbrs r b) }
        requires part { chip_of (F.part flash.now) ≡ self.old.part }
        ensures { Runs self.old self.new result (F.words flash.now) (Instr.Sbrs r b) }
    {
        let over = has_bit(self.reg(r), b);
        self.skip(over, flash)
    }

    /// Skips the instruction at pc, where that is wanted: one cycle more for each of its words.
    #[inline]
    fn skip<F: Flash>(&mut self, over: bool, flash: &F) -> u8
        requires { chip_of (F.part flash.now) ≡ self.old.part }
        ensures { Leaves self.old self.new result (F.words flash.now) (λ part p. book.Skips over) }
    {
        let pc = self.pc();
        if over {
            let passed = words_of_next(flash.word(pc));
            self.go_to(u32::from(pc) + u32::from(passed));
            1 + passed
        } else {
            1
        }
    }
}

/// How many words an instruction with this first word has.
#[inline(never)]
fn words_of_next(first: u16) -> u8
    ensures words { result ≡ decoding.words (decoding.decode first 0) }
    ensures few { result ≤ 2 }
{
    words(&decode(first, 0))
}
