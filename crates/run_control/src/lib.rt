//! Runs of the target: a job is made some steps at a time, with one look at each boundary between two steps for whether it is to
//! stop. A runner takes a job out and gives back its end.
//!
//! What a run is, and where it ends, is told by the book, `debug_spec` (`Run`, `Stop`, `Looks`). A [`Job`] has the device and knows no
//! set of software breakpoints: it stops at a BREAK, and whoever planted it knows its name.
#![tactic(auto)]

mod boundary;
mod comparators;
mod inline;
mod job;
mod look;
mod runner;
#[cfg(test)]
mod tests;

pub use inline::Inline;
pub use job::{Halt, Job, Turn};
pub use look::StopLook;
pub use runner::{Done, Runner};
