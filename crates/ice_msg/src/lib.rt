//! The bodies of frames: commands of the host, responses and events of the tool, read and written (AVR067).
#![tactic(auto)]

mod bad;
mod command;
mod event;
mod laws;
mod response;
#[cfg(test)]
mod tests;

pub use bad::Bad;
pub use command::{Command, read_command, write_command};
pub use event::{Event, read_event, write_event};
pub use laws::{
    a_command_is_read_back, a_response_is_read_back, a_written_command_is_read_back,
    an_event_is_read_back,
};
pub use line_spec::Refusal;
pub use response::{Response, SignOn, read_response, write_response};
