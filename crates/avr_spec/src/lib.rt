//! The book of the target: what a program of an AVR means, as definitions in `specs/`.
//!
//! Hardly any code stands here. The types below are those that the definitions compute with, and each function of `laws` and
//! `values` is a law of the definitions: an empty body whose contract is proved. `docs/TARGET.md` tells the book in prose.
#![tactic(auto)]

mod instruction;
pub mod laws;
mod target;
pub mod values;

pub use instruction::Instr;
pub use target::{Ahead, OutWrite, Vector};
