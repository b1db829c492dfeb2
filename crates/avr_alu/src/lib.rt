//! Arithmetic and logic of the target: each call gives the result of one operation and the new byte of SREG.
//!
//! Every call takes all operands and all bytes of SREG, never fails and takes no memory. The bodies are bit formulas and small tables,
//! without branches; the contracts say the same in whole numbers (`avr_spec`, `Flags`). Source: AVR Instruction Set Manual.
#![tactic(auto)]

mod bitwise;
mod products;
mod shifts;
mod status;
mod sums;
#[cfg(test)]
mod tests;
mod words;

pub use bitwise::{and, com, eor, or};
pub use products::{fmul, fmuls, fmulsu, mul, muls, mulsu};
pub use shifts::{asr, lsr, ror};
pub use sums::{adc, add, dec, inc, neg, sbc, sub};
pub use words::{adiw, sbiw};
