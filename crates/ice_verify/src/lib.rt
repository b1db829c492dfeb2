//! The checker of session records: line by line it judges a record by a debugger that plants nothing.
//!
//! What a record is, and when it fits a program, is told by the book, `record_spec`; what the debugger does by `debug_spec`. Nothing
//! here writes a BREAK into the words that the target runs.
#![tactic(auto)]

mod hearing;
mod home;
mod lines;
mod plain;
mod programming;
mod running;
#[cfg(test)]
mod tests;
mod verifier;
mod words;

pub use verifier::{Verdict, Verifier};
