//! The listing of a stream of JTAGICE mkII bytes: a line of text for each frame, for each run of junk, and for what is held at the end.
#![tactic(auto)]

mod lines;
mod stream;

pub use stream::{ListingEnd, list_frames};
