//! A session that is served: the line is read on a thread of its own, and so is the target run, so that a forced stop arrives while it runs.
//! The controller takes their notes one by one.
#![tactic(auto)]

mod chunk;
mod ending;
mod note;
mod notes;
mod step;
#[cfg(test)]
mod tests;
mod threads;

pub use notes::{End, Remains, session};
pub use threads::{Desk, Served, Unserved, open_desk, serve};
