//! The book of session records: what the lines of a record are, and when a record fits a program, as definitions in `specs/`.
//!
//! No code stands here but its numbers. Each function of `laws` is a law of the definitions, and each of `rows` a record worked by hand:
//! an empty body whose contract is proved.
#![tactic(auto)]

mod laws;
pub mod limits;
pub mod rows;

pub use laws::{records_are_checked_line_by_line, true_lines_go_on};
