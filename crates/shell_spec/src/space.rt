//! The memories of the target that a line names.

/// A memory of the target.
#[derive(Clone, Copy, Debug, PartialEq, Eq)]
pub enum Space {
    /// `sram`: the data space.
    Sram,
    /// `io`: the I/O space.
    Io,
    /// `flash`: the bytes of the program.
    Flash,
    /// `page`: the program's pages, while the target is programmed.
    Page,
    /// `fuse`: the fuse bytes.
    Fuse,
    /// `lock`: the lock byte.
    Lock,
    /// `sig`: the signature bytes.
    Sig,
}
