//! How a script ends.

/// Why a script ended: its first cause in time.
#[derive(Clone, Copy, Debug, PartialEq, Eq)]
pub enum ScriptEnd {
    /// The source gave its end and every line was run, or `quit` had its answer.
    Done,
    /// The source failed, and its count of faults rose.
    Read,
    /// The sink failed, and its count of faults rose.
    Write,
    /// The host had no answer.
    Link,
    /// The source gave more than 67,108,864 bytes.
    TooLong,
}

/// What comes behind a line.
#[derive(Clone, Copy, Debug, PartialEq, Eq)]
pub enum After {
    /// The next line.
    Goes,
    /// The end: `quit` had its answer.
    Quits,
    /// The end: the host had no answer.
    Fails,
}
