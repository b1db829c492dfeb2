//! The bytes held: a ring, from whose front junk and frames are dropped.
ghost use Rattle.std.specs.Prelude.{◌≡◌, ℕ, ◌+◌, ◌≤◌, ◌<◌, ◌^◌, List, [], ◌∷◌, ◌++◌, length, drop, take, slice_index};
ghost use Rattle.line_spec.specs.Frames.{Begins, IsBytes, IsPartial};
ghost use Rattle.ice_frame.specs.Front.{frame_of};
ghost use Rattle.ice_frame.specs.Scans.{scan_of};
ghost use Rattle.ice_recv.specs.Fronts.{IsFound, TellsFront};
ghost use Rattle.ice_recv.specs.Marks.{AreMarks};
ghost use Rattle.ice_recv.specs.Receiving.{StandsAt, counted, frame_limit};

use crate::marks::{check_of_front, mark_all};
use arrayvec::ArrayVec;
use circular_buffer::HeapCircularBuffer;
use ice_frame::{Frame, Looks, Scan, Scanned, append};
use line_spec::limits::BODY_LIMIT;

/// The bytes of a frame before its body: start, number, size and token.
const HEADER: usize = 8;

/// The bytes of the check, behind the body.
const CHECK: usize = 2;

/// What a scan of some bytes came to.
#[derive(Clone, Copy, Debug, PartialEq, Eq)]
pub(crate) struct Found {
    /// The last answer; More where there was no byte.
    pub answer: Scanned,
    /// How many bytes were looked at.
    pub size: usize,
}

/// Gives the bytes at these places to the scan, up to the one with which it ends.
fn scan_places(
    held: &HeapCircularBuffer<u8>,
    from: usize,
    to: usize,
    scan: &mut Scan,
    looks: &mut Looks,
) -> Found
    requires order { from ≤ to }
    requires within { to ≤ length held.now.items }
    requires stands { scan.old ≡ scan_of (take from held.now.items) }
    requires partial { IsPartial (take from held.now.items) }
    requires least { looks.old + to < 2 ^ 62 + from }
    ensures found { IsFound (take to held.now.items) result scan.new }
    ensures looks { looks.new + from ≡ looks.old + result.size }
{
    let mut place = from;
    'places: while place < to {
        let answer = scan.byte(byte_at(held, place), looks);
        place += 1;
        match answer {
            Scanned::More => {}
            Scanned::Whole => {
                return Found {
                    answer: Scanned::Whole,
                    size: place,
                };
            }
            Scanned::Junk => {
                return Found {
                    answer: Scanned::Junk,
                    size: place,
                };
            }
        }
    }
    Found {
        answer: Scanned::More,
        size: place,
    }
}

/// Scans what is held from its front on, anew. It looks at no byte of a body: the check of these bytes follows from the marks.
pub(crate) fn scan_held(
    held: &HeapCircularBuffer<u8>,
    marks: &mut HeapCircularBuffer<u16>,
    scan: &mut Scan,
    looks: &mut Looks,
) -> Found
    requires least { looks.old + length held.now.items < 2 ^ 62 }
    requires room { length held.now.items < marks.old.capacity }
    requires marks { AreMarks marks.old.items held.now.items }
    requires bytes { IsBytes held.now.items }
    ensures found { IsFound held.now.items result scan.new }
    ensures looks { looks.new ≤ looks.old + result.size }
    ensures marks { AreMarks marks.new.items held.now.items }
    ensures capacity { marks.new.capacity ≡ marks.old.capacity }
{
    *scan = Scan::start();
    let count = held.len();
    if count <= HEADER {
        return scan_places(held, 0, count, scan, looks);
    }
    let header = scan_places(held, 0, HEADER, scan, looks);
    match header.answer {
        Scanned::More => {}
        Scanned::Whole => return header,
        Scanned::Junk => return header,
    }
    mark_all(marks, held);
    let end = scan.end().min(count);
    scan.skip(end, check_of_front(marks, end));
    scan_places(held, end, count, scan, looks)
}

/// Drops the junk at the front of the bytes, counts it, and gives the size of the frame that stands behind it; None where the rest
/// is less than one, for which the scan then stands.
pub(crate) fn settle(
    held: &mut HeapCircularBuffer<u8>,
    marks: &mut HeapCircularBuffer<u16>,
    scan: &mut Scan,
    dropped: &mut u64,
    looks: &mut Looks,
) -> Option<usize>
    requires fits { length held.old.items ≤ frame_limit }
    requires room { marks.old.capacity ≡ frame_limit + 1 }
    requires marks { AreMarks marks.old.items held.old.items }
    requires bytes { IsBytes held.old.items }
    requires least { looks.old ≤ 2 ^ 61 + 2 ^ 60 }
    ensures front { TellsFront held.old.items dropped.old looks.old (record { held = held.new.items; dropped = dropped.new }) looks.new scan.new result }
    ensures capacity { held.new.capacity ≡ held.old.capacity }
    ensures room { marks.new.capacity ≡ frame_limit + 1 }
    ensures marks { AreMarks marks.new.items held.new.items }
    ensures bytes { IsBytes held.new.items }
{
    let _start = *dropped;
    'items: loop {
        let found = scan_held(held, marks, scan, looks);
        match found.answer {
            Scanned::Whole => return Some(found.size),
            Scanned::More => return None,
            Scanned::Junk => drop_first(held, marks, dropped),
        }
    }
}

/// Drops the first byte with its mark, and counts it.
pub(crate) fn drop_first(
    held: &mut HeapCircularBuffer<u8>,
    marks: &mut HeapCircularBuffer<u16>,
    dropped: &mut u64,
)
    ensures items { held.new.items ≡ drop 1 held.old.items }
    ensures marks { marks.new.items ≡ drop 1 marks.old.items }
    ensures room { marks.new.capacity ≡ marks.old.capacity }
    ensures capacity { held.new.capacity ≡ held.old.capacity }
    ensures counts { dropped.new ≡ counted dropped.old 1 }
{
    let _ = held.pop_front();
    let _ = marks.pop_front();
    *dropped = dropped.wrapping_add(1);
}

/// Drops so many bytes.
pub(crate) fn drop_front(held: &mut HeapCircularBuffer<u8>, count: usize)
    requires { count ≤ length held.old.items }
    ensures items { held.new.items ≡ drop count held.old.items }
    ensures capacity { held.new.capacity ≡ held.old.capacity }
{
    let left = held.len() - count;
    held.truncate_front(left);
}

/// Adds a byte, for which there is room.
pub(crate) fn push(held: &mut HeapCircularBuffer<u8>, byte: u8)
    requires { length held.old.items < held.old.capacity }
    ensures items { held.new.items ≡ held.old.items ++ byte ∷ [] }
    ensures capacity { held.new.capacity ≡ held.old.capacity }
{
    let _ = held.push_back(byte);
}

/// The frame of so many bytes that stands at the front.
pub(crate) fn frame_at(held: &HeapCircularBuffer<u8>, size: usize) -> Frame
    requires { StandsAt size held.now.items }
    ensures { Begins (frame_of result) held.now.items (drop size held.now.items) }
{
    let (front, back) = held.as_slices();
    let seq = u16::from_le_bytes([byte_at(held, 1), byte_at(held, 2)]);
    let end = size - CHECK;
    let mut body = ArrayVec::new();
    append(&mut body, part(front, HEADER, end));
    let passed = front.len();
    append(
        &mut body,
        part(
            back,
            HEADER.saturating_sub(passed),
            end.saturating_sub(passed),
        ),
    );
    Frame { seq, body }
}

/// The bytes between two places, as far as there are any.
fn part(bytes: &[u8], from: usize, to: usize) -> &[u8]
    ensures { result.now ≡ drop from (take to bytes.now) }
{
    let (ahead, _) = bytes.split_at(to.min(bytes.len()));
    let (_, part) = ahead.split_at(from.min(ahead.len()));
    part
}

/// The byte at the place, 0 where there is none.
pub(crate) fn byte_at(held: &HeapCircularBuffer<u8>, place: usize) -> u8
    ensures { result ≡ slice_index held.now.items place }
{
    match held.get(place) {
        Some(byte) => *byte,
        None => 0,
    }
}
