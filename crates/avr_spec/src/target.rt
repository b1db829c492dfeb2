//! The smaller types that the definitions compute with.

ghost use Rattle.std.specs.Prelude.{◌≡◌, ◌<◌};
ghost use Rattle.part_spec.specs.Chip.{m16, chip_of, words_of};
ghost use Rattle.avr_spec.specs.Interrupts.{address_of};

use part_spec::Part;

/// An interrupt of a timer (datasheets, "Interrupt Vectors").
#[derive(Clone, Copy, Debug, PartialEq, Eq)]
pub enum Vector {
    /// Timer 2 compare match.
    Comp2,
    /// Timer 2 overflow.
    Ovf2,
    /// Timer 0 overflow.
    Ovf0,
    /// Timer 0 compare match.
    Comp0,
}

impl Vector {
    /// The word address at which the interrupt enters, on the ATmega16.
    pub fn address(&self) -> u16
        ensures { result ≡ address_of m16 self.now }
    {
        self.address_for(Part::M16)
    }

    /// The word address at which the interrupt enters on a part.
    pub fn address_for(&self, part: Part) -> u16
        ensures address { result ≡ address_of (chip_of part) self.now }
        ensures in_flash { result < words_of (chip_of part) }
    {
        match self {
            Vector::Comp2 => part.timer2_compare(),
            Vector::Ovf2 => part.timer2_overflow(),
            Vector::Ovf0 => part.timer0_overflow(),
            Vector::Comp0 => part.timer0_compare(),
        }
    }
}

/// An output write: a store to a PORTx, a DDRx or UDR.
#[derive(Clone, Copy, Debug, PartialEq, Eq)]
pub struct OutWrite {
    /// The count of cycles at the store.
    pub cycle: u64,
    /// The I/O address (0 to 63).
    pub a: u8,
    /// The byte stored.
    pub byte: u8,
}

/// What the next step of the target would meet.
#[derive(Clone, Copy, Debug, PartialEq, Eq)]
pub enum Ahead {
    /// An interrupt is due.
    Interrupt,
    /// A BREAK stands at pc.
    Break,
    /// A word without a row, or SPM, stands at pc.
    Undefined,
    /// Any other instruction.
    Ready,
}
