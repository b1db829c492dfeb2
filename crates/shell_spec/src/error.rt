//! What is wrong with a line.
use thiserror::Error;

/// What is wrong with a line, at its first wrong place: the column of the byte in question, from 1.
#[derive(Clone, Copy, Debug, PartialEq, Eq, Error)]
pub enum LineError {
    /// The line has more than 320 bytes.
    #[error("the line is too long")]
    Long,
    /// The first word begins no line.
    #[error("unknown word at column {0}")]
    Unknown(u16),
    /// A needed operand is not there: the column behind the last byte of the line.
    #[error("an operand is missing at column {0}")]
    Missing(u16),
    /// The word is no operand of its kind, or is above its limit.
    #[error("wrong operand at column {0}")]
    Value(u16),
    /// The line ends before this word.
    #[error("a word too much at column {0}")]
    Extra(u16),
}
