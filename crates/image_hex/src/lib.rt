//! Images of a program: a raw image, or a text of Intel HEX records ('Hexadecimal Object File Format Specification', Intel).
#![tactic(auto)]

mod error;
mod filling;
mod image;
mod laws;
mod line;
mod raw;
mod record;
#[cfg(test)]
mod tests;

pub use error::ImageError;
pub use image::{read_image, read_image_for};
pub use laws::a_written_program_is_read_back;
