//! Frames, written and read.
ghost use Rattle.std.specs.Prelude.{◌≡◌, ◌≤◌, ◌+◌, ◌++◌, [], ◌∷◌, ◌-◌, length, slice_index, slice_index_or, drop, take, true, false};
ghost use Rattle.std.specs.Int.{w16, w32, from_le_bytes};
ghost use Rattle.line_spec.specs.Frames.{IsJunk, IsPartial, bytes_of};
ghost use Rattle.ice_frame.specs.Front.{frame_of, IsFrontOf};

use crate::{append, crc};
use arrayvec::ArrayVec;
use line_spec::limits::{BODY_LIMIT, FRAME_LIMIT};

/// The first byte of a frame.
pub(crate) const START: u8 = 0x1B;

/// The byte between the size and the body.
pub(crate) const TOKEN: u8 = 0x0E;

/// The bytes before the body: start, number, size and token.
pub(crate) const HEADER: usize = 8;

/// The most bytes that a body has, as the size in a header.
pub(crate) const SIZE_LIMIT: u32 = BODY_LIMIT as u32;

/// A frame: its sequence number and its body, of at most 4,106 bytes.
#[derive(Drop)]
pub struct Frame {
    /// The number, which a reply repeats; 0xFFFF is that of events.
    pub seq: u16,
    /// What is said.
    pub body: ArrayVec<u8, BODY_LIMIT>,
}

/// What stands at the front of some bytes.
#[derive(Drop)]
pub enum Cut {
    /// A frame, and how many bytes it takes.
    Whole(Frame, usize),
    /// Less than the whole of some frame, as the empty list is.
    Partial,
    /// Bytes that begin no frame, however they go on.
    Junk,
}

/// Leaves the bytes of the frame in `out`, which is empty before.
pub fn write_frame(frame: &Frame, out: &mut ArrayVec<u8, FRAME_LIMIT>)
    requires { out.old.items ≡ [] }
    ensures { out.new.items ≡ bytes_of (frame_of frame.now) }
{
    out.push(START);
    append(out, &frame.seq.to_le_bytes());
    let size = frame.body.len() as u32;
    append(out, &size.to_le_bytes());
    out.push(TOKEN);
    append(out, frame.body.as_slice());
    let check = crc(out.as_slice());
    append(out, &check.to_le_bytes());
}

/// Whether a frame can begin with the byte; one with which none can is junk.
pub fn may_begin(byte: u8) -> bool
    ensures begins { result ≡ true → IsPartial (byte ∷ []) }
    ensures junk { result ≡ false → IsJunk (byte ∷ []) }
{
    byte == START
}

/// What stands at the front of the bytes: a frame, the beginning of one, or junk.
/// A size above 4,106 is junk as soon as the bytes show it.
pub fn read_frame(bytes: &[u8]) -> Cut
    ensures { IsFrontOf bytes.now result }
{
    let size = shown_size(bytes);
    if at_or(bytes, 0, START) != START || size > SIZE_LIMIT || at_or(bytes, 7, TOKEN) != TOKEN {
        return Cut::Junk;
    }
    let end = HEADER + size as usize;
    if bytes.len() < end {
        return Cut::Partial;
    }
    let [low, high] = crc(&bytes[..end]).to_le_bytes();
    if at_or(bytes, end, low) != low || at_or(bytes, end + 1, high) != high {
        return Cut::Junk;
    }
    if bytes.len() < end + 2 {
        return Cut::Partial;
    }
    Cut::Whole(shown_frame(bytes, end), end + 2)
}

/// The size of the body, with 0 for each of its bytes that is missing.
fn shown_size(bytes: &[u8]) -> u32
    ensures { result ≡ from_le_bytes w32 (slice_index bytes.now 3 ∷ slice_index bytes.now 4
        ∷ slice_index bytes.now 5 ∷ slice_index bytes.now 6 ∷ []) }
{
    u32::from_le_bytes([
        at_or(bytes, 3, 0),
        at_or(bytes, 4, 0),
        at_or(bytes, 5, 0),
        at_or(bytes, 6, 0),
    ])
}

/// The number and the body of a frame whose body ends at `end`.
fn shown_frame(bytes: &[u8], end: usize) -> Frame
    requires least { 8 ≤ end }
    requires most { end ≤ 4114 }
    requires within { end ≤ length bytes.now }
    ensures number { result.seq
        ≡ from_le_bytes w16 (slice_index bytes.now 1 ∷ slice_index bytes.now 2 ∷ []) }
    ensures body { result.body.items ≡ take (end - 8) (drop 8 bytes.now) }
{
    let seq = u16::from_le_bytes([bytes[1], bytes[2]]);
    Frame {
        seq,
        body: copied(&bytes[HEADER..end]),
    }
}

fn copied(bytes: &[u8]) -> ArrayVec<u8, BODY_LIMIT>
    requires { length bytes.now ≤ BODY_LIMIT }
    ensures { result.items ≡ bytes.now }
{
    let mut body = ArrayVec::new();
    for byte in bytes {
        body.push(*byte);
    }
    body
}

/// The byte at the index, or the wanted one where it is missing.
fn at_or(bytes: &[u8], index: usize, wanted: u8) -> u8
    ensures { result ≡ slice_index_or bytes.now index wanted }
{
    if index < bytes.len() {
        bytes[index]
    } else {
        wanted
    }
}

#[cfg(test)]
mod tests;
