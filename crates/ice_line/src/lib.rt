//! The two ends of a line of bytes: what comes is read from a source, some bytes at a time, and what is sent is written to a sink.
#![tactic(auto)]

mod reading;
mod writing;

pub use reading::{CHUNK, Coming, INPUT_LIMIT, next_bytes};
pub use writing::write_some;
