//! A session record is read from a source, and what is found of it is put to a sink: one line, which says that it fits, or which line is
//! the first that does not.
#![tactic(auto)]

mod answer;
mod checker;
mod laws;
mod stream;
#[cfg(test)]
mod tests;

pub use answer::Answer;
pub use laws::a_record_has_one_answer;
pub use stream::{CheckEnd, check_record};
