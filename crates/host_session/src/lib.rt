//! The host end of the line: commands are sent, and replies and events are told apart (AVR067).
#![tactic(auto)]

mod awaiting;
mod error;
mod host;
mod inbox;
mod reply;
mod room;
#[cfg(test)]
mod tests;

pub use error::{HostError, NoMemory};
pub use host::Host;
pub use reply::Reply;
pub use room::Room;
