//! The I/O space of the target: 64 bytes, two timers, and the output writes.
//!
//! What each call does is told by the book, `avr_spec` (`IoSpace`, `Timers`, `Interrupts`). An [`Io`] keeps of the output
//! writes the newest 4,096 and their number; a contract speaks of each I/O space of the book that is kept so.
#![tactic(auto)]

mod address;
mod bits;
mod io;
mod space;
#[cfg(test)]
mod tests;
mod timer;

pub use avr_spec::{OutWrite, Vector};
pub use bits::{has_bit, with_bit};
pub use io::Io;
