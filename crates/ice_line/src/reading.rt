//! Bytes from a source.
ghost use Rattle.std.specs.Prelude.{◌<◌, ◌≤◌};
ghost use Rattle.ice_line.specs.Reads.{TakesNext};

use ice_base::{Failed, Source};

/// The most bytes of the line that one session takes: 64 MiB.
pub const INPUT_LIMIT: usize = 67_108_864;

/// The most bytes that one read asks for.
pub const CHUNK: usize = 512;

/// What comes next on the line.
#[derive(Clone, Copy, Debug, PartialEq, Eq)]
pub enum Coming {
    /// So many bytes, at least one.
    Bytes(usize),
    /// The end.
    End,
    /// The source failed.
    Fault,
}

/// Reads at most so many bytes into the front of the buffer.
pub fn next_bytes<S: Source>(source: &mut S, buffer: &mut [u8; CHUNK], most: usize) -> Coming
    requires least { 0 < most }
    requires room { most ≤ CHUNK }
    ensures takes { TakesNext (S.left source.old) (S.left source.new) (S.faults source.old) (S.faults source.new) most buffer.new result }
    ensures counts { S.faults source.old ≤ S.faults source.new }
{
    match source.read(&mut buffer[..most]) {
        Ok(0) => Coming::End,
        Ok(count) => Coming::Bytes(count),
        Err(Failed) => Coming::Fault,
    }
}
