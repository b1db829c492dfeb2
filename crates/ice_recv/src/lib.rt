//! A receiver: it cuts a stream of bytes into frames, and finds the next frame behind damaged bytes.
#![tactic(auto)]

mod held;
mod laws;
mod marks;
mod receiver;

pub use laws::handed_frames_follow_the_cut;
pub use receiver::Receiver;
