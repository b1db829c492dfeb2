//! Why a text is refused.
use asm_spec::AsmKind;
use thiserror::Error;

/// Why a text has no words. Lines are numbered from 1.
#[derive(Clone, Copy, Debug, PartialEq, Eq, Error)]
pub enum AsmError {
    /// The text has more than 1,048,576 bytes.
    #[error("the text is too large")]
    Large,
    /// The first line that is wrong, and what is wrong with it.
    #[error("line {line} is wrong")]
    At {
        /// The line's number.
        line: u32,
        /// What is wrong with it.
        kind: AsmKind,
    },
    /// Memory ran out.
    #[error("out of memory")]
    Memory,
}
