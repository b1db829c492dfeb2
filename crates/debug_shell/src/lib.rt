//! The debugger's shell: its lines are read, sent as commands, and answered by texts.
#![tactic(auto)]

mod answers;
mod commands;
mod dump;
mod line;
mod operands;
mod read;
mod rest;
mod run;
mod script;
mod script_end;
#[cfg(test)]
mod tests;
mod text;

pub use line::Line;
pub use read::read_line;
pub use script::run_script;
pub use script_end::{After, ScriptEnd};
pub use shell_spec::LineError;
