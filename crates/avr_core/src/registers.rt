//! Register pairs, the status register and the results of operations.
ghost use Rattle.std.specs.Prelude.{◌≡◌, ◌<◌};
ghost use Rattle.avr_spec.specs.IoSpace.{kept_byte, sreg};
ghost use Rattle.avr_spec.specs.Memory.{pair, with_reg, with_pair, with_io_byte, has_flag, with_flag};
ghost use Rattle.avr_core.specs.Stands.{Moves, Shows};

use crate::bytes::{high, low, word};
use crate::state::Core;
use avr_io::{has_bit, with_bit};

/// The lower registers of the pointers.
pub(crate) const X: u8 = 26;

pub(crate) const Y: u8 = 28;

pub(crate) const Z: u8 = 30;

/// The I/O address of SREG, and the numbers of its bits I and T.
const SREG: u8 = 0x3F;

pub(crate) const INTERRUPTS: u8 = 7;

pub(crate) const TRANSFER: u8 = 6;

impl Core {
    /// The word of a register pair, by its lower register.
    #[inline]
    pub(crate) fn pair(&self, n: u8) -> u16
        requires { n < 31 }
        ensures { Shows self.now result (λ part p. pair p n) }
    {
        word(self.reg(n), self.reg(n + 1))
    }

    /// Puts a word into a register pair.
    #[inline]
    pub(crate) fn set_pair(&mut self, n: u8, word: u16)
        requires { n < 31 }
        ensures { Moves self.old self.new (λ part p. with_pair n word p) }
    {
        self.set_reg(n, low(word));
        self.set_reg(n + 1, high(word));
    }

    /// SREG.
    #[inline]
    pub(crate) fn sreg(&self) -> u8
        ensures { Shows self.now result (λ part p. kept_byte p.io sreg) }
    {
        self.load_io(SREG)
    }

    /// Sets SREG.
    #[inline]
    pub(crate) fn set_sreg(&mut self, status: u8)
        ensures { Moves self.old self.new (λ part p. with_io_byte sreg status p) }
    {
        self.store_io(SREG, status);
    }

    /// Bit `s` of SREG.
    #[inline]
    pub(crate) fn has_flag(&self, s: u8) -> bool
        requires { s < 8 }
        ensures { Shows self.now result (λ part p. has_flag p s) }
    {
        has_bit(self.sreg(), s)
    }

    /// Sets bit `s` of SREG as given.
    #[inline]
    pub(crate) fn set_flag(&mut self, s: u8, wanted: bool)
        requires { s < 8 }
        ensures { Moves self.old self.new (λ part p. with_flag s wanted p) }
    {
        let status = with_bit(self.sreg(), s, wanted);
        self.set_sreg(status);
    }

    /// Keeps the result of an operation: its byte in a register, and SREG.
    #[inline]
    pub(crate) fn set_result(&mut self, d: u8, after: (u8, u8))
        requires { d < 32 }
        ensures { Moves self.old self.new (λ part p. with_io_byte sreg after.1 (with_reg d after.0 p)) }
    {
        let (value, status) = after;
        self.set_reg(d, value);
        self.set_sreg(status);
    }

    /// Keeps the result of an operation on words: its word in a register pair, and SREG.
    #[inline]
    pub(crate) fn set_word_result(&mut self, d: u8, after: (u16, u8))
        requires { d < 31 }
        ensures { Moves self.old self.new (λ part p. with_io_byte sreg after.1 (with_pair d after.0 p)) }
    {
        let (value, status) = after;
        self.set_pair(d, value);
        self.set_sreg(status);
    }
}
