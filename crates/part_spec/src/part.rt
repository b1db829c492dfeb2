//! The parts that the emulator runs, and the one table of their numbers (datasheets of the ATmega16 and the ATmega32).
ghost use Rattle.std.specs.Prelude.{◌≡◌, ◌<◌};
ghost use Rattle.part_spec.specs.Chip.{chip_of, words_of, IsMask};

/// The words of a flash page, in each part ("Page Size").
pub const PAGE_WORDS: usize = 64;

/// The bytes of a flash page.
pub const PAGE_BYTES: usize = 2 * PAGE_WORDS;

/// The bytes of SRAM of the part that has most.
pub const MOST_SRAM: usize = 2048;

/// A part of the family.
#[derive(Clone, Copy, Debug, PartialEq, Eq)]
pub enum Part {
    /// The ATmega16: 16 KiB of flash and 1 KiB of SRAM.
    M16,
    /// The ATmega32: 32 KiB of flash and 2 KiB of SRAM.
    M32,
}

impl Part {
    /// The words of the part's flash ("In-System Reprogrammable Flash Program Memory").
    pub fn words(&self) -> u16
        ensures { result ≡ words_of (chip_of self.now) }
    {
        match self {
            Part::M16 => 8192,
            Part::M32 => 16384,
        }
    }

    /// The pages of the part's flash, of 64 words each ("Page Size").
    pub fn pages(&self) -> u16
        ensures { result ≡ (chip_of self.now).pages }
    {
        match self {
            Part::M16 => 128,
            Part::M32 => 256,
        }
    }

    /// The mask that takes a number modulo the words of the part's flash: in each part they are a power of two. With one bit more
    /// it does so for the bytes.
    pub fn mask(&self) -> u16
        ensures mask { IsMask (chip_of self.now) result }
        ensures small { result < 16384 }
    {
        self.words() - 1
    }

    /// The first data address behind the part's SRAM ("SRAM Data Memory").
    pub fn sram_end(&self) -> u16
        ensures { result ≡ (chip_of self.now).sram_end }
    {
        match self {
            Part::M16 => 0x460,
            Part::M32 => 0x860,
        }
    }

    /// The three signature bytes ("Signature Bytes").
    pub fn signature(&self) -> [u8; 3]
        ensures { result ≡ (chip_of self.now).signature }
    {
        match self {
            Part::M16 => [0x1E, 0x94, 0x03],
            Part::M32 => [0x1E, 0x95, 0x02],
        }
    }

    /// The word address at which the compare match of timer 2 enters ("Interrupt Vectors").
    pub fn timer2_compare(&self) -> u16
        ensures { result ≡ (chip_of self.now).vectors.timer2_compare }
    {
        match self {
            Part::M16 => 0x06,
            Part::M32 => 0x08,
        }
    }

    /// The word address at which the overflow of timer 2 enters.
    pub fn timer2_overflow(&self) -> u16
        ensures { result ≡ (chip_of self.now).vectors.timer2_overflow }
    {
        match self {
            Part::M16 => 0x08,
            Part::M32 => 0x0A,
        }
    }

    /// The word address at which the overflow of timer 0 enters.
    pub fn timer0_overflow(&self) -> u16
        ensures { result ≡ (chip_of self.now).vectors.timer0_overflow }
    {
        match self {
            Part::M16 => 0x12,
            Part::M32 => 0x16,
        }
    }

    /// The word address at which the compare match of timer 0 enters.
    pub fn timer0_compare(&self) -> u16
        ensures { result ≡ (chip_of self.now).vectors.timer0_compare }
    {
        match self {
            Part::M16 => 0x26,
            Part::M32 => 0x14,
        }
    }
}
