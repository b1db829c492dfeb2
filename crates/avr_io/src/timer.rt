//! The two timers (ATmega16 datasheet, "8-bit Timer/Counter0 with PWM", "8-bit Timer/Counter2 with PWM and Asynchronous
//! Operation").

use crate::address::{OCR0, OCR2, TCCR0, TCCR2, TCNT0, TCNT2};

/// The longest look ahead, in cycles.
pub(crate) const LONGEST: u64 = 0x1_0000_0000;

/// A timer.
#[derive(Clone, Copy)]
pub(crate) struct Timer {
    /// The I/O address of TCCRx, which chooses divisor and mode.
    pub(crate) control: u8,
    /// The I/O address of TCNTx, the counter.
    pub(crate) counter: u8,
    /// The I/O address of OCRx, the compare byte.
    pub(crate) compare: u8,
    /// The bit of the overflow flag in TIFR.
    pub(crate) overflow_flag: u8,
    /// The bit of the compare flag in TIFR.
    pub(crate) compare_flag: u8,
    /// The cycles for one count, by the low three bits of TCCRx, where 0 stands still.
    pub(crate) divisors: [u16; 8],
}

pub(crate) const TIMER0: Timer = Timer {
    control: TCCR0,
    counter: TCNT0,
    compare: OCR0,
    overflow_flag: 0,
    compare_flag: 1,
    divisors: [0, 1, 8, 64, 256, 1024, 0, 0],
};

pub(crate) const TIMER2: Timer = Timer {
    control: TCCR2,
    counter: TCNT2,
    compare: OCR2,
    overflow_flag: 6,
    compare_flag: 7,
    divisors: [0, 1, 8, 32, 64, 128, 256, 1024],
};
