//! Frames of the debug line: their check, and how one is written and read (AVR067, 'Message format').
#![tactic(auto)]

mod behind;
mod check;
mod frame;
mod joined;
mod scan;

pub use behind::crc_behind;
pub use check::{crc, crc_from, crc_with};
pub use frame::{Cut, Frame, may_begin, read_frame, write_frame};
pub use joined::append;
pub use scan::{Looks, Scan, Scanned};
