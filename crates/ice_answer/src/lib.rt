//! What the debugger answers where no page is written and no step is made: the tool that it keeps beside its target, replies and break
//! events, breakpoints, parameters, memories, and what is answered while a run is out.
//!
//! What it answers is told by the book, `debug_spec` (`Commands`, `Breakpoints`, `MemoryTypes`).
#![tactic(auto)]

mod away;
mod breakpoints;
mod cause;
mod commands;
mod feeding;
mod memory;
mod mode;
mod reply;
mod tool;

pub use away::refuse_bad;
pub use breakpoints::COMPARATORS;
pub use cause::Cause;
pub use commands::{allowed, read_pc, reset, sign_on, state_number, write_pc};
pub use feeding::{count_dropped, feed};
pub use memory::{ERASED, paired_page};
pub use mode::Mode;
pub use reply::{Out, okay, refuse, tell};
pub use tool::Tool;
