//! A replay: an emulator that takes the bytes of a line, with a runner that makes each run at its launch.
//!
//! What it goes through is told by the book, `debug_spec` (`Replay`, `TakeReplays`).
#![tactic(auto)]

mod chunk;
mod session;
mod settle;
mod step;

pub use chunk::{Chunk, take_chunk};
pub use session::{End, Replayed, end_line, replay};
