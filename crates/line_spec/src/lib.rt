//! The book of the debug line: the frame check, frames, the cut of a stream, and the bodies of messages, as
//! definitions in `specs/`, with their laws as the contracts of functions that do nothing.
#![tactic(auto)]

pub mod code;
mod heard;
mod laws;
pub mod limits;
mod parameters;
mod refusal;
mod values;

pub use heard::{
    bodies_that_are_no_command, each_byte_is_heard, frames_of_the_last_numbers,
    junk_goes_byte_by_byte, one_request_a_body,
};
pub use laws::{
    a_cut_goes_on, a_written_command_belongs, a_written_frame_is_read, bytes_of_the_sign_on_frame,
    check_of_nine_digits, every_stream_has_a_cut, no_frame_begins_another, one_command_a_body,
    one_cut, one_event_a_body, one_response_a_body, own_sign_on_is_a_response,
};
pub use parameters::{
    a_value_has_its_size, a_write_keeps_the_table, a_write_leaves_the_others,
    a_written_value_is_read_back, mcu_state_is_the_state,
};
pub use refusal::Refusal;
pub use values::{
    bodies_of_commands, limits_of_a_body, parameters_of_the_start, writes_of_parameters,
};
