//! The instruction decoder of the target, and the texts of its instructions (AVR Instruction Set Manual).
//!
//! What a word means is told by the instruction table of `avr_spec`, and `decode` is proved to agree with it at every pair of
//! words. A core decodes at every step, so `decode` looks at a nibble or two of the first word and then makes few tests.
#![tactic(auto)]

mod choices;
mod decoder;
mod first_word;
mod form;
mod printer;

pub use avr_spec::Instr;
pub use decoder::{decode, is_skip, two_word, words};
pub use printer::{print, print_for};

#[cfg(test)]
mod tests;
