//! Why an image is refused.
use thiserror::Error;

/// Why an image was not read. Lines are numbered from 1.
#[derive(Clone, Copy, Debug, PartialEq, Eq, Error)]
pub enum ImageError {
    /// The line is no record, or the text ended before this line with no record that ends the image.
    #[error("line {0} is no record")]
    BadRecord(u32),
    /// The bytes of the line's record do not add up to 0 modulo 256.
    #[error("the sum of line {0} is wrong")]
    BadSum(u32),
    /// The image has more bytes than the flash, or gives one behind its end.
    #[error("the image is too large")]
    TooLarge,
    /// A raw image has an odd number of bytes.
    #[error("the image has an odd number of bytes")]
    Odd,
    /// The byte at this address is given twice.
    #[error("the byte at {0} is given twice")]
    Overlap(u32),
    /// There is no memory.
    #[error("there is no memory for the image")]
    Memory,
}
