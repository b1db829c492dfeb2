//! A made session: from a seed and a count the commands of a session over one small program are made, answered, and summed up in a line.
//!
//! What the session is, and its summary, is told by the book, `shell_spec` (`Generator`, `Summary`).
#![tactic(auto)]

mod count;
mod line;
mod program;
mod session;
mod summary;
mod tally;
#[cfg(test)]
mod tests;

pub use program::made_program;
pub use session::{COUNT_LIMIT, Made, make_session};
pub use summary::SUMMARY;
