//! The core of the target: one step of an ATmega16 or an ATmega32.
//!
//! What a step does is told by the book, `avr_spec` (`Step`, `Effect`, `Memory`). A [`Core`] keeps of the output writes the newest
//! 4,096 and their number, so several states of the book look the same in it; each contract speaks of every one of them that
//! the core stands for. Of the flash a core sees what [`Flash::word`](ice_base::Flash) gives, at each step anew.
#![tactic(auto)]

mod arithmetic;
mod bytes;
mod data;
mod flow;
mod loads;
mod moves;
mod outcome;
mod registers;
mod stack;
mod state;
mod step;
#[cfg(test)]
mod tests;

pub use avr_spec::Ahead;
pub use state::{Core, stands_for_a_state};
pub use step::Stepped;
