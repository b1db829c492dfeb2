//! The emulator: it takes the bytes of the line and the ends of runs, and gives the bytes to be sent and what is to be done next.
//!
//! What it answers is told by the book, `debug_spec` (`Commands`, `Running`, `Take`).
#![tactic(auto)]

mod answers;
mod emulator;
mod ending;
mod hearing;
mod programming;
mod running;
mod session;
mod taking;
#[cfg(test)]
mod tests;

pub use emulator::{Emulator, Input, Next, Taken};
pub use ice_answer::Out;
pub use session::{BeginError, Totals};
