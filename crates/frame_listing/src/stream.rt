//! A stream is read to its end, and its lines are put as soon as they are known.
ghost use Rattle.std.specs.Prelude.{◌≡◌, ◌<◌, ◌≤◌, ◌+◌, ◌-◌, ◌^◌, ◌++◌, [], Bool, length, codes};
ghost use Rattle.line_spec.specs.Frames.{IsBytes, IsPartial};
ghost use Rattle.shell_spec.specs.Listing.{count_text};
ghost use Rattle.ice_line.specs.Lines.{Writes, line_at};
ghost use Rattle.frame_listing.specs.Steps.{ChunkLists, NextLists, ended};
ghost use Rattle.frame_listing.specs.Endings.{IsListed};

use crate::lines::{put_count, put_lines};
use ice_base::{Sink, Source};
use ice_line::{CHUNK, Coming, INPUT_LIMIT, next_bytes};
use ice_recv::Receiver;

/// Why a listing ended.
#[derive(Clone, Copy, Debug, PartialEq, Eq)]
pub enum ListingEnd {
    /// The stream was read to its end, and all of the listing was put.
    Okay,
    /// The source failed.
    Read,
    /// A line could not be put.
    Write,
    /// The stream has more bytes than are listed, 67,108,864.
    TooLong,
}

/// Lists the frames and the junk of a stream, which is read at most 512 bytes at a time, with a new receiver. It takes no memory.
///
/// Of a stream of more than 67,108,864 bytes these are listed. The line of a frame is put ahead of the next read, behind that of the junk
/// ahead of the frame. At the end of the stream, at a failed read, and with a byte too many, the junk that is open and the bytes that are held are listed
/// too; where these lines can't be put either, a failed read or a byte too many stays the cause.
pub fn list_frames<S: Source, K: Sink>(
    receiver: Receiver,
    source: &mut S,
    sink: &mut K,
) -> ListingEnd
    requires fresh { receiver ≡ record { held = []; dropped = 0 } }
    ensures listed { IsListed result
        (line_at (S.left source.old) (S.faults source.old) (K.written sink.old) (K.faults sink.old))
        (line_at (S.left source.new) (S.faults source.new) (K.written sink.new) (K.faults sink.new)) }
    ensures source_counts { S.faults source.old ≤ S.faults source.new }
    ensures sink_counts { K.faults sink.old ≤ K.faults sink.new }
{
    let mut receiver = receiver;
    let mut listed = 0;
    let mut buffer = [0u8; CHUNK];
    let mut allowed = INPUT_LIMIT;
    'chunks: while allowed > 0 {
        let count = match next_bytes(source, &mut buffer, allowed.min(CHUNK)) {
            Coming::Bytes(count) => count,
            Coming::End => return finish(&receiver, listed, ListingEnd::Okay, sink),
            Coming::Fault => return finish(&receiver, listed, ListingEnd::Read, sink),
        };
        allowed -= count;
        let (chunk, _) = buffer.split_at(count);
        if !list_chunk(&mut receiver, &mut listed, chunk, sink) {
            return ListingEnd::Write;
        }
    }
    match next_bytes(source, &mut buffer, 1) {
        Coming::Bytes(_) => finish(&receiver, listed, ListingEnd::TooLong, sink),
        Coming::End => finish(&receiver, listed, ListingEnd::Okay, sink),
        Coming::Fault => finish(&receiver, listed, ListingEnd::Read, sink),
    }
}

/// Lists the frames that end in the chunk, each with the junk ahead of it, up to a line that can't be put. It tells whether all were put.
/// Of the bytes dropped so many are listed; the rest is the run of junk that is open.
fn list_chunk<K: Sink>(
    receiver: &mut Receiver,
    listed: &mut u64,
    chunk: &[u8],
    sink: &mut K,
) -> bool
    requires partial { IsPartial receiver.old.held }
    requires behind { listed.old ≤ receiver.old.dropped }
    requires few { receiver.old.dropped + length receiver.old.held + length chunk.now < 2 ^ 62 }
    requires size { length chunk.now ≤ 512 }
    ensures lists { ChunkLists result receiver.old listed.old chunk.now receiver.new listed.new
        (K.written sink.old) (K.written sink.new) (K.faults sink.old) (K.faults sink.new) }
    ensures behind { listed.new ≤ receiver.new.dropped }
    ensures counts { receiver.new.dropped + length receiver.new.held ≤ receiver.old.dropped + length receiver.old.held + length chunk.now }
    ensures bytes { IsBytes chunk.now }
    ensures faults { K.faults sink.old ≤ K.faults sink.new }
{
    let mut used = 0;
    'frames: loop {
        let (_, rest) = chunk.split_at(used);
        used += receiver.feed(rest);
        match list_next(receiver, listed, sink) {
            None => return true,
            Some(true) => {}
            Some(false) => return false,
        }
    }
}

/// Lists the frame that waits, with the junk ahead of it, and tells whether both lines were put; None where no frame waits.
fn list_next<K: Sink>(receiver: &mut Receiver, listed: &mut u64, sink: &mut K) -> Option<bool>
    requires behind { listed.old ≤ receiver.old.dropped }
    requires few { receiver.old.dropped + length receiver.old.held < 2 ^ 63 }
    ensures lists { NextLists result receiver.old listed.old receiver.new listed.new
        (K.written sink.old) (K.written sink.new) (K.faults sink.old) (K.faults sink.new) }
    ensures behind { listed.new ≤ receiver.new.dropped }
    ensures counts { receiver.new.dropped + length receiver.new.held ≤ receiver.old.dropped + length receiver.old.held }
    ensures faults { K.faults sink.old ≤ K.faults sink.new }
{
    let dropped = receiver.dropped();
    match receiver.next() {
        None => None,
        Some(frame) => {
            let junk = dropped - *listed;
            *listed = dropped;
            Some(put_lines(junk, &frame, sink))
        }
    }
}

/// Puts the last lines of a listing that ended for this, and tells why it ended.
fn finish<K: Sink>(receiver: &Receiver, listed: u64, end: ListingEnd, sink: &mut K) -> ListingEnd
    requires behind { listed ≤ receiver.now.dropped }
    ensures ends { (all : Bool) × (result ≡ ended end all) ×
        Writes all (K.written sink.old) (K.written sink.new) (K.faults sink.old) (K.faults sink.new)
        (count_text (codes "junk") (receiver.now.dropped - listed) ++ count_text (codes "rest") (length receiver.now.held)) }
    ensures faults { K.faults sink.old ≤ K.faults sink.new }
{
    let all = put_last(receiver, listed, sink);
    match end {
        ListingEnd::Okay => {
            if all {
                return ListingEnd::Okay;
            }
            ListingEnd::Write
        }
        ListingEnd::Read => ListingEnd::Read,
        ListingEnd::Write => ListingEnd::Write,
        ListingEnd::TooLong => ListingEnd::TooLong,
    }
}

/// Puts the lines of the junk that is open and of the bytes that are held, and tells whether both were put.
fn put_last<K: Sink>(receiver: &Receiver, listed: u64, sink: &mut K) -> bool
    requires behind { listed ≤ receiver.now.dropped }
    ensures writes { Writes result (K.written sink.old) (K.written sink.new) (K.faults sink.old) (K.faults sink.new)
        (count_text (codes "junk") (receiver.now.dropped - listed) ++ count_text (codes "rest") (length receiver.now.held)) }
    ensures faults { K.faults sink.old ≤ K.faults sink.new }
{
    if !put_count(b"junk", receiver.dropped() - listed, sink) {
        return false;
    }
    put_count(b"rest", receiver.rest() as u64, sink)
}

#[cfg(test)]
mod tests;
