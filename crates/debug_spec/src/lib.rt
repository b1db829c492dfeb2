//! The book of the debugger: what a debugger over a device answers, and what it does to flash, as definitions in `specs/`.
//!
//! No code stands here. Each function of `laws` is a law of the definitions, and each of `rows` and `schedule_rows` a session worked
//! by hand: an empty body whose contract is proved.
#![tactic(auto)]

pub mod clean_laws;
pub mod clean_rows;
pub mod laws;
pub mod number_rows;
pub mod rows;
pub mod schedule_rows;
