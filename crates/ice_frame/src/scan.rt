//! A scan of a frame, byte by byte.
ghost use Rattle.std.specs.Prelude.{◌≡◌, ◌+◌, ◌<◌, ◌≤◌, ◌^◌, ℕ, List, [], ◌∷◌, ◌++◌, length};
ghost use Rattle.line_spec.specs.Frames.{IsBytes, IsPartial, body_limit};
ghost use Rattle.line_spec.specs.Check.{check};
ghost use Rattle.ice_frame.specs.Scans.{IsGoing, header_byte as byte_of_header, scan_of, size_more};
ghost use Rattle.ice_frame.specs.Scanned.{IsScanned, TellsHeader, TellsCheck};

use crate::check::crc_with;
use crate::frame::{HEADER, SIZE_LIMIT, START, TOKEN};
use std::marker::Model;

/// How many looks were taken: one for each byte that a scan was given.
#[derive(Drop)]
pub struct Looks {
    count: u64,
}

impl Model for Looks {
    ghost Value = { ℕ };

    ghost view = { λ looks. looks.count };
}

impl Looks {
    /// No look.
    pub fn new() -> Looks
        ensures { result ≡ 0 }
    {
        Looks { count: 0 }
    }

    /// How many looks were taken so far.
    pub fn count(&self) -> u64
        ensures { result ≡ self.now }
    {
        self.count
    }

    /// One look more.
    fn add(&mut self)
        requires { self.old < 2 ^ 62 }
        ensures { self.new ≡ self.old + 1 }
    {
        self.count += 1;
    }
}

/// What the bytes are that a scan was given since its start.
#[derive(Clone, Copy, Debug, PartialEq, Eq)]
pub enum Scanned {
    /// Less than the whole of some frame.
    More,
    /// A frame.
    Whole,
    /// Bytes that begin no frame, however they go on.
    Junk,
}

/// A scan of the bytes that it was given since its start. It keeps no body: only how many bytes there were, the size that
/// they show, and the check of what stands before the check.
#[derive(Drop)]
pub struct Scan {
    seen: usize,
    size: u32,
    register: u16,
}

impl Model for Scan {
    ghost use Rattle.ice_frame.specs.Scans.{Kept};

    ghost Value = { Kept };

    ghost view = { λ scan. record { seen = scan.seen; size = scan.size; register = scan.register } };
}

impl Scan {
    /// A scan that was given no byte.
    pub fn start() -> Scan
        ensures { result ≡ scan_of [] }
    {
        Scan {
            seen: 0,
            size: 0,
            register: 0xFFFF,
        }
    }

    /// Takes one byte more, and says what the bytes are by now. It is one look.
    pub fn byte(&mut self, b: u8, looks: &mut Looks) -> Scanned
        requires going { IsGoing self.old }
        requires least { looks.old < 2 ^ 62 }
        ensures look { looks.new ≡ looks.old + 1 }
        ensures stands { (bytes : List ℕ) → self.old ≡ scan_of bytes → IsPartial bytes
            → (self.new ≡ scan_of (bytes ++ b ∷ [])) × IsScanned (bytes ++ b ∷ []) result }
    {
        looks.add();
        let at = self.seen;
        self.seen = at + 1;
        if at < HEADER {
            self.size = with_size(self.size, at, b);
            self.register = crc_with(self.register, b);
            return in_header(self.size, at, b);
        }
        let end = HEADER + self.size as usize;
        if at < end {
            self.register = crc_with(self.register, b);
            return Scanned::More;
        }
        in_check(self.register, at == end, b)
    }

    /// How many bytes stand before the check.
    pub fn end(&self) -> usize
        ensures { result ≡ 8 + self.now.size }
    {
        HEADER + self.size as usize
    }

    /// Goes on with bytes before the check that are known by their number and their check alone, so that there are `seen` of them
    /// and those before, and their check is `register`. It looks at none.
    pub fn skip(&mut self, seen: usize, register: u16)
        ensures { (bytes more : List ℕ) → self.old ≡ scan_of bytes → IsPartial bytes → 8 ≤ length bytes → IsBytes more
            → seen ≡ length (bytes ++ more) → seen ≤ 8 + self.old.size → register ≡ check (bytes ++ more)
            → (self.new ≡ scan_of (bytes ++ more)) × IsPartial (bytes ++ more) }
    {
        self.seen = seen;
        self.register = register;
    }
}

/// The size with the byte at that place of the header.
fn with_size(size: u32, at: usize, b: u8) -> u32
    requires { size ≤ body_limit }
    ensures { result ≡ size_more at size b }
{
    match at {
        3 => size + u32::from(b),
        4 => size + u32::from(b) * 0x100,
        5 => size + u32::from(b) * 0x1_0000,
        6 => size + u32::from(b) * 0x100_0000,
        _ => size,
    }
}

/// What a byte of the header says, where the size is the one with it.
fn in_header(size: u32, at: usize, b: u8) -> Scanned
    ensures { TellsHeader at size b result }
{
    if b != header_byte(at, b) || size > SIZE_LIMIT {
        return Scanned::Junk;
    }
    Scanned::More
}

/// The byte that stands at that place of a header; numbers and sizes have any.
fn header_byte(at: usize, b: u8) -> u8
    ensures { result ≡ byte_of_header at b }
{
    match at {
        0 => START,
        7 => TOKEN,
        _ => b,
    }
}

/// What a byte of the check says: the first, or the second.
fn in_check(register: u16, first: bool, b: u8) -> Scanned
    ensures { TellsCheck register first b result }
{
    let [low, high] = register.to_le_bytes();
    if first {
        if b == low {
            return Scanned::More;
        }
    } else if b == high {
        return Scanned::Whole;
    }
    Scanned::Junk
}

#[cfg(test)]
mod tests;
