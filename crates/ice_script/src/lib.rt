//! A script: the shell's lines are run over an emulator that stands in the same process.
//!
//! What it goes through is told by the book, `shell_spec` (`Script`, `Transcript`).
#![tactic(auto)]

mod queue;
mod session;
#[cfg(test)]
mod tests;
mod wire;

pub use session::{Scripted, open, run_session};
pub use wire::{Left, Wire};
