//! The numbers of records, each once: definitions and code take them from here.

/// The most bytes that one line of a record tells to have come in.
pub const IN_LIMIT: usize = 512;

/// The most bytes of a line of a record, without its line feed.
pub const LINE_LIMIT: usize = 8320;

/// The most steps that the runs of a record make together, where it is checked.
pub const STEP_LIMIT: u32 = 100_000_000;
