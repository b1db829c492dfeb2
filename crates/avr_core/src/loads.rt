//! Loads and stores of the data space and of flash (AVR Instruction Set Manual). Each method answers its cycles.
ghost use Rattle.std.specs.Prelude.{◌≡◌, ◌<◌, []};
ghost use Rattle.part_spec.specs.Chip.{chip_of, flash_bytes};
ghost use Rattle.avr_spec.specs.Fields.{FieldsFit};
ghost use Rattle.avr_spec.specs.Memory as memory;
ghost use Rattle.avr_spec.specs.Effect.{Acts};
ghost use Rattle.avr_spec.specs.Step as book;
ghost use Rattle.avr_core.specs.Stands.{Moves, Shows};
ghost use Rattle.avr_core.specs.Leaves.{Leaves, Executes, Runs, past};

use crate::bytes::{high, low};
use crate::registers::{X, Z};
use crate::state::Core;
use avr_spec::Instr;
use ice_base::Flash;

impl Core {
    /// Loads register `d` from a data address.
    #[inline]
    fn load_to(&mut self, d: u8, address: u16) -> u8
        requires { d < 32 }
        ensures { Leaves self.old self.new result [] (λ part p. Acts 2 (memory.with_loaded part d address p)) }
    {
        let byte = self.data_at(address);
        self.set_reg(d, byte);
        2
    }

    /// Stores register `r` at a data address.
    #[inline]
    fn store_from(&mut self, r: u8, address: u16) -> u8
        requires { r < 32 }
        ensures { Leaves self.old self.new result [] (λ part p. Acts 2 (memory.store part address (memory.reg p r) p)) }
    {
        let byte = self.reg(r);
        self.put_data(address, byte);
        2
    }

    /// LDD and LD through Y or Z, with a displacement.
    #[inline]
    pub(crate) fn load_displaced(&mut self, d: u8, pointer: u8, q: u8) -> u8
        requires d { d < 32 }
        requires pointer { pointer < 31 }
        ensures { Leaves self.old self.new result [] (λ part p. Acts 2 (memory.with_loaded part d (memory.plus (memory.pair p pointer) q) p)) }
    {
        let address = self.pair(pointer).wrapping_add(u16::from(q));
        self.load_to(d, address)
    }

    /// STD and ST through Y or Z, with a displacement.
    #[inline]
    pub(crate) fn store_displaced(&mut self, r: u8, pointer: u8, q: u8) -> u8
        requires r { r < 32 }
        requires pointer { pointer < 31 }
        ensures { Leaves self.old self.new result [] (λ part p. Acts 2 (memory.store part (memory.plus (memory.pair p pointer) q) (memory.reg p r) p)) }
    {
        let address = self.pair(pointer).wrapping_add(u16::from(q));
        self.store_from(r, address)
    }

    /// LD through X.
    #[inline]
    pub(crate) fn ld_x(&mut self, d: u8) -> u8
        requires { FieldsFit (Instr.LdX d) }
        ensures { Executes self.old self.new result (Instr.LdX d) }
    {
        let address = self.pair(X);
        self.load_to(d, address)
    }

    /// ST through X.
    #[inline]
    pub(crate) fn st_x(&mut self, r: u8) -> u8
        requires { FieldsFit (Instr.StX r) }
        ensures { Executes self.old self.new result (Instr.StX r) }
    {
        let address = self.pair(X);
        self.store_from(r, address)
    }

    /// LD with post-increment: where the register is part of the pointer, it gets the byte.
    #[inline]
    pub(crate) fn load_then_add(&mut self, d: u8, pointer: u8) -> u8
        requires d { d < 32 }
        requires pointer { pointer < 31 }
        ensures { Leaves self.old self.new result [] (λ part p. Acts 2 (memory.load_then_add part d pointer p)) }
    {
        let before = self.pair(pointer);
        let byte = self.data_at(before);
        self.set_pair(pointer, before.wrapping_add(1));
        self.set_reg(d, byte);
        2
    }

    /// LD with pre-decrement.
    #[inline]
    pub(crate) fn subtract_then_load(&mut self, d: u8, pointer: u8) -> u8
        requires d { d < 32 }
        requires pointer { pointer < 31 }
        ensures { Leaves self.old self.new result [] (λ part p. Acts 2 (memory.subtract_then_load part d pointer p)) }
    {
        let address = self.pair(pointer).wrapping_sub(1);
        self.set_pair(pointer, address);
        self.load_to(d, address)
    }

    /// ST with post-increment: where the byte falls on the pointer, the pointer wins.
    #[inline]
    pub(crate) fn store_then_add(&mut self, r: u8, pointer: u8) -> u8
        requires r { r < 32 }
        requires pointer { pointer < 31 }
        ensures { Leaves self.old self.new result [] (λ part p. Acts 2 (memory.store_then_add part r pointer p)) }
    {
        let address = self.pair(pointer);
        let byte = self.reg(r);
        self.put_data(address, byte);
        self.set_pair(pointer, address.wrapping_add(1));
        2
    }

    /// ST with pre-decrement: the byte stored is the register's before the change.
    #[inline]
    pub(crate) fn subtract_then_store(&mut self, r: u8, pointer: u8) -> u8
        requires r { r < 32 }
        requires pointer { pointer < 31 }
        ensures { Leaves self.old self.new result [] (λ part p. Acts 2 (memory.subtract_then_store part r pointer p)) }
    {
        let byte = self.reg(r);
        let address = self.pair(pointer).wrapping_sub(1);
        self.set_pair(pointer, address);
        self.put_data(address, byte);
        2
    }

    /// Reads the word at pc, and goes past it.
    #[inline]
    pub(crate) fn next_word<F: Flash>(&mut self, flash: &F) -> u16
        requires { chip_of (F.part flash.now) ≡ self.old.part }
        ensures word { Shows self.old result (λ part p. book.word_at (F.words flash.now) p.pc) }
        ensures past { Moves self.old self.new (λ part p. past part 1 p) }
    {
        let pc = self.pc();
        let word = flash.word(pc);
        self.go_to(u32::from(pc) + 1);
        word
    }

    /// LDS.
    #[inline]
    pub(crate) fn lds<F: Flash>(&mut self, d: u8, flash: &F) -> u8
        requires d { d < 32 }
        requires part { chip_of (F.part flash.now) ≡ self.old.part }
        ensures { Runs self.old self.new result (F.words flash.now) (Instr.Lds d 0) }
    {
        let address = self.next_word(flash);
        self.load_to(d, address)
    }

    /// STS.
    #[inline]
    pub(crate) fn sts<F: Flash>(&mut self, r: u8, flash: &F) -> u8
        requires r { r < 32 }
        requires part { chip_of (F.part flash.now) ≡ self.old.part }
        ensures { Runs self.old self.new result (F.words flash.now) (Instr.Sts r 0) }
    {
        let address = self.next_word(flash);
        self.store_from(r, address)
    }

    /// LPM through Z.
    #[inline]
    pub(crate) fn lpm<F: Flash>(&mut self, d: u8, flash: &F) -> u8
        requires fields { FieldsFit (Instr.LpmZ d) }
        requires part { chip_of (F.part flash.now) ≡ self.old.part }
        ensures { Runs self.old self.new result (F.words flash.now) (Instr.LpmZ d) }
    {
        let address = self.pair(Z);
        let byte = flash_byte(flash, self.flash_address(address));
        self.set_reg(d, byte);
        3
    }

    /// LPM through Z with post-increment: where the register is part of Z, it gets the byte.
    #[inline]
    pub(crate) fn lpm_then_add<F: Flash>(&mut self, d: u8, flash: &F) -> u8
        requires fields { FieldsFit (Instr.LpmZInc d) }
        requires part { chip_of (F.part flash.now) ≡ self.old.part }
        ensures { Runs self.old self.new result (F.words flash.now) (Instr.LpmZInc d) }
    {
        let address = self.pair(Z);
        let byte = flash_byte(flash, self.flash_address(address));
        self.set_pair(Z, address.wrapping_add(1));
        self.set_reg(d, byte);
        3
    }
}

/// The byte of flash at a byte address: the low byte of a word stands at the even address.
#[inline]
fn flash_byte<F: Flash>(flash: &F, address: u16) -> u8
    requires { address < flash_bytes (chip_of (F.part flash.now)) }
    ensures { result ≡ book.flash_byte (F.words flash.now) address }
{
    let word = flash.word(address / 2);
    if address % 2 == 0 {
        low(word)
    } else {
        high(word)
    }
}
