//! The lines of a listing, each put as one piece.
ghost use Rattle.std.specs.Prelude.{◌≡◌, ◌+◌, ◌*◌, ◌^◌, ◌<◌, ◌≤◌, ◌++◌, codes, length};
ghost use Rattle.ice_frame.specs.Front.{frame_of};
ghost use Rattle.ice_line.specs.Lines.{Writes};
ghost use Rattle.shell_spec.specs.Listing.{body_text, count_text, frame_text};

use arrayvec::ArrayVec;
use ice_base::Sink;
use ice_frame::Frame;
use ice_line::write_some;
use ice_text::{push_decimal, push_hex, push_text};

/// The most bytes of a frame's line: its word and number with a blank behind each, two digits for each of 4,106 bytes, and the line feed.
const FRAME_LINE: usize = 8_224;

/// The most bytes of a count's line: its word, a blank, 20 digits and the line feed.
const COUNT_LINE: usize = 32;

/// Puts the lines of a frame and of so many junk bytes ahead of it, and tells whether both were put.
pub(crate) fn put_lines<K: Sink>(junk: u64, frame: &Frame, sink: &mut K) -> bool
    ensures writes { Writes result (K.written sink.old) (K.written sink.new) (K.faults sink.old) (K.faults sink.new)
        (count_text (codes "junk") junk ++ frame_text (frame_of frame.now)) }
    ensures faults { K.faults sink.old ≤ K.faults sink.new }
{
    if !put_count(b"junk", junk, sink) {
        return false;
    }
    put_frame(frame, sink)
}

/// Puts the line of a frame, and tells whether it could be put.
fn put_frame<K: Sink>(frame: &Frame, sink: &mut K) -> bool
    ensures writes { Writes result (K.written sink.old) (K.written sink.new) (K.faults sink.old) (K.faults sink.new)
        (frame_text (frame_of frame.now)) }
    ensures faults { K.faults sink.old ≤ K.faults sink.new }
{
    let mut line: ArrayVec<u8, FRAME_LINE> = ArrayVec::new();
    push_frame(&mut line, frame);
    write_some(line.as_slice(), sink)
}

/// Appends the line of a frame to an empty line.
fn push_frame(line: &mut ArrayVec<u8, FRAME_LINE>, frame: &Frame)
    requires { length line.old.items ≡ 0 }
    ensures { line.new.items ≡ frame_text (frame_of frame.now) }
{
    push_text(line, b"frame ");
    push_hex(line, &frame.seq.to_be_bytes());
    push_text(line, b" ");
    push_body(line, frame.body.as_slice());
    push_text(line, b"\n");
}

/// Appends a body.
fn push_body(line: &mut ArrayVec<u8, FRAME_LINE>, body: &[u8])
    requires few { length body.now ≤ 4106 }
    requires room { length line.old.items + 8212 ≤ 8224 }
    ensures items { line.new.items ≡ line.old.items ++ body_text body.now }
    ensures size { length line.new.items ≤ length line.old.items + 8212 }
{
    if body.is_empty() {
        push_text(line, b"-");
        return;
    }
    push_hex(line, body);
}

/// Puts a line that says how many bytes of a kind there are, if there are any, and tells whether it could be put.
pub(crate) fn put_count<K: Sink>(kind: &[u8], count: u64, sink: &mut K) -> bool
    requires { length kind.now ≤ 4 }
    ensures writes { Writes result (K.written sink.old) (K.written sink.new) (K.faults sink.old) (K.faults sink.new)
        (count_text kind.now count) }
    ensures faults { K.faults sink.old ≤ K.faults sink.new }
{
    let mut line: ArrayVec<u8, COUNT_LINE> = ArrayVec::new();
    push_count(&mut line, kind, count);
    write_some(line.as_slice(), sink)
}

/// Appends a line that says how many bytes of a kind there are, if there are any, to an empty line.
fn push_count(line: &mut ArrayVec<u8, COUNT_LINE>, kind: &[u8], count: u64)
    requires empty { length line.old.items ≡ 0 }
    requires kind { length kind.now ≤ 4 }
    ensures { line.new.items ≡ count_text kind.now count }
{
    if count == 0 {
        return;
    }
    push_text(line, kind);
    push_text(line, b" ");
    push_decimal(line, count);
    push_text(line, b"\n");
}
