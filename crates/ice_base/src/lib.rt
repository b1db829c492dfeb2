//! The outside of the debugger as traits, with forms of each in memory and adapters over the standard library.
#![tactic(auto)]

mod failing;
mod flash;
mod fn_spawner;
mod gate;
mod handle_ticket;
mod link;
mod loader;
mod map_loader;
mod mem_flash;
mod mem_link;
mod mem_sink;
mod mem_source;
mod sink;
mod source;
mod spawner;
mod std_link;
mod std_loader;
mod std_sink;
mod std_source;
#[cfg(test)]
mod tests;
mod work;

pub use flash::Flash;
pub use fn_spawner::{FnSpawner, Joins};
pub use gate::{Gate, OpenGate};
pub use handle_ticket::{HandleTicket, begin_on_thread};
pub use link::Link;
pub use loader::{LoadError, Loader};
pub use map_loader::MapLoader;
pub use mem_flash::{LoggedWrite, MemFlash};
pub use mem_link::MemLink;
pub use mem_sink::MemSink;
pub use mem_source::MemSource;
pub use part_spec::Part;
pub use sink::Sink;
pub use source::Source;
pub use spawner::Spawner;
pub use std_link::StdLink;
pub use std_loader::StdLoader;
pub use std_sink::StdSink;
pub use std_source::StdSource;
pub use work::Work;

/// The one answer of a failed call on an outside object.
#[derive(Clone, Copy, Debug, PartialEq, Eq)]
pub struct Failed;
