//! The data space: registers, I/O space and SRAM behind one another (ATmega16 datasheet, "SRAM Data Memory").
ghost use Rattle.std.specs.Prelude.{◌≡◌, ◌<◌};
ghost use Rattle.avr_spec.specs.Memory.{load, store};
ghost use Rattle.avr_core.specs.Stands.{Moves, Shows};

use crate::state::{Core, stands_for_a_state};

/// The first data address of the I/O space.
const IO_START: u16 = 0x20;

/// The first data address of SRAM.
const SRAM_START: u16 = 0x60;

impl Core {
    /// The byte that a load of a data address gives, in no cycles: 0 behind SRAM.
    #[inline]
    pub fn data_at(&self, address: u16) -> u8
        ensures { Shows self.now result (λ part p. load part address p) }
    {
        if address < SRAM_START {
            self.low_data_at(address)
        } else if address < self.sram_end() {
            self.sram_byte(address - SRAM_START)
        } else {
            0
        }
    }

    /// A register, or the byte that a load of the I/O space gives.
    fn low_data_at(&self, address: u16) -> u8
        requires { address < 0x60 }
        ensures { Shows self.now result (λ part p. load part address p) }
    {
        if address < IO_START {
            self.reg(address as u8)
        } else {
            self.load_io((address - IO_START) as u8)
        }
    }

    /// Stores a byte at a data address, in no cycles. A store behind SRAM does nothing.
    #[inline]
    pub fn set_data_at(&mut self, address: u16, v: u8)
        ensures moves { Moves self.old self.new (λ part p. store part address v p) }
        ensures part { self.new.part ≡ self.old.part }
    {
        // Told here that some state stands behind the core: that the part stays rests on it.
        stands_for_a_state(self);
        self.put_data(address, v);
    }

    /// The same store, for the core's own use.
    #[inline]
    pub(crate) fn put_data(&mut self, address: u16, v: u8)
        ensures { Moves self.old self.new (λ part p. store part address v p) }
    {
        if address < SRAM_START {
            self.set_low_data_at(address, v);
        } else if address < self.sram_end() {
            self.set_sram_byte(address - SRAM_START, v);
        }
    }

    /// Stores a byte in a register or in the I/O space.
    fn set_low_data_at(&mut self, address: u16, v: u8)
        requires { address < 0x60 }
        ensures { Moves self.old self.new (λ part p. store part address v p) }
    {
        if address < IO_START {
            self.set_reg(address as u8, v);
        } else {
            self.store_io((address - IO_START) as u8, v);
        }
    }
}
