//! Why a body is no message.

/// Why a body could not be read.
#[derive(Clone, Copy, Debug, PartialEq, Eq)]
pub enum Bad {
    /// The body is empty, or its first byte is no code of the table.
    Code,
    /// The code is known, and the body has a length or a form that it never has.
    Length,
}
