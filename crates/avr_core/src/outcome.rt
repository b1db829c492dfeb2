//! What comes of an instruction.

/// What comes of an instruction, but for the ticks of its cycles.
#[derive(Clone, Copy)]
pub(crate) enum Outcome {
    /// It ran, in so many cycles.
    Took(u8),
    /// It is a BREAK, and did nothing.
    Break,
    /// It is SPM or a word without an instruction, and did nothing.
    Undefined,
}
