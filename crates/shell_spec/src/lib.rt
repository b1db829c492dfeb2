//! The book of the debugger's shell: what a line says, and what is printed, as definitions in `specs/`, with their laws as the
//! contracts of functions that do nothing. The types below are those that the definitions compute with.
#![tactic(auto)]

mod error;
mod generator_values;
mod laws;
mod listing_values;
mod script_values;
mod space;
mod values;
mod verb;

pub use error::LineError;
pub use generator_values::{commands_of_a_seed, generated_summaries, summary_with_an_event};
pub use laws::{
    every_stream_has_a_listing, every_text_has_a_cut, made_sessions_are_replays, one_cut_a_text,
    one_listing_a_stream, one_transcript_a_script, scripts_are_sessions, transcripts_agree,
};
pub use listing_values::{listing_of_a_damaged_frame, listing_of_a_rest, listings_of_frames};
pub use script_values::{
    script_of_a_breakpoint, script_of_lines_that_send_nothing, script_of_two_events,
    script_with_many_events, script_with_no_event,
};
pub use space::Space;
pub use values::{
    lines_of_each_form, lines_that_are_wrong, lines_that_do_nothing, lines_with_an_end,
    longest_line, texts_of_answers, texts_of_errors_and_events,
};
pub use verb::Verb;
