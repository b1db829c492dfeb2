//! What the threads share: an inbox for notes, and a word by which a stop is raised. The works of the line and of the target stand on
//! them.
#![tactic(auto)]

mod inbox;
mod laws;
mod line_work;
mod stop_word;
mod target_work;
mod threaded;

pub use inbox::{LineSender, Note, NoteReceiver, TargetSender, make_inbox};
pub use laws::{taken_in_order_at_every_moment, the_last_note_is_all};
pub use line_work::{LineDone, LineWork};
pub use stop_word::{Asked, StopLooker, StopRaiser, StopWord};
pub use target_work::{TargetDone, TargetWork};
pub use threaded::Threaded;

#[cfg(test)]
mod tests;
