//! The top calls of the debugger.
#![tactic(auto)]

mod assembling;
mod call;
mod connect;
mod image_notes;
mod listing;
mod making;
mod notes;
mod numbers;
mod opening;
mod program;
mod replay;
mod script;
mod serve;
mod status;
mod stops;
mod task_kind;
mod task_said;
#[cfg(test)]
mod tests;
mod verify;
mod words;

pub use call::ice2;
pub use connect::{Connected, ice2_connect};
pub use serve::{Served, ice2_serve};
pub use status::{Ended, Status};
pub use task_kind::Task;
pub use task_said::task;
pub use words::part_of;
