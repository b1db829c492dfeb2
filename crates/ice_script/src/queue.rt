//! The bytes that were sent and not yet received.
ghost use Rattle.std.specs.Prelude.{◌≡◌, ◌≤◌, ◌<◌, ℕ, ◌++◌, [], true, false, Some, length, take, drop, IfOk, OnOk, OnErr};
ghost use Rattle.std.specs.Io.KnownBytes.{Appends};
ghost use Rattle.ice_base.specs.Counts.{HasCause};
ghost use Rattle.line_spec.specs.Frames.{IsBytes};
ghost use Rattle.ice_script.specs.Queue.{queue_faults, room};

use circular_buffer::HeapCircularBuffer;
use ice_base::{Failed, Sink};
use std::alloc::{AllocError, Global};
use std::marker::Model;

/// The most bytes that wait: more than 66 events and a reply.
pub(crate) const ROOM: usize = 8_192;

/// Bytes that wait to be received. A put for which there is no room fills the queue, and fails.
#[derive(Drop)]
pub struct Queue {
    bytes: HeapCircularBuffer<u8>,
    /// A put has failed.
    full: bool,
}

impl Model for Queue {
    ghost use Rattle.std.specs.Prelude.{◌≡◌, ◌≤◌, true, length};
    ghost use Rattle.line_spec.specs.Frames.{IsBytes};
    ghost use Rattle.ice_script.specs.Queue.{Waiting, room};

    ghost Value = { Waiting };

    ghost view = { λ s. record { bytes = s.bytes.items; full = s.full } };

    ghost invariant = { λ s. (s.bytes.capacity ≡ room) × (s.full ≡ true → room ≤ length s.bytes.items) × IsBytes s.bytes.items };
}

impl Queue {
    /// A queue in which nothing waits. It takes all its memory here.
    pub(crate) fn new(alloc: Global) -> Result<Queue, AllocError>
        ensures { IfOk result (λ queue. queue ≡ record { bytes = []; full = false }) }
    {
        Ok(Queue {
            bytes: HeapCircularBuffer::with_capacity(alloc, ROOM)?,
            full: false,
        })
    }

    /// Takes bytes into the front of `buf`, the oldest first, as many as wait and fit.
    pub(crate) fn take(&mut self, buf: &mut [u8]) -> usize
        ensures count { result ≤ length buf.old }
        ensures taken { self.old.bytes ≡ take result buf.new ++ self.new.bytes }
        ensures rest { drop result buf.new ≡ drop result buf.old }
        ensures end { result ≡ 0 → 0 < length buf.old → self.new.bytes ≡ [] }
        ensures full { self.new.full ≡ false }
    {
        let count = take_front(&mut self.bytes, buf);
        self.full = false;
        count
    }

    /// Whether a put has failed.
    pub(crate) fn is_full(&self) -> bool
        ensures full { result ≡ self.now.full }
        ensures room { self.now.full ≡ true → room ≤ length self.now.bytes }
        ensures bytes { IsBytes self.now.bytes }
    {
        self.full
    }
}

/// Takes bytes off the front, as many as are there and fit.
fn take_front(bytes: &mut HeapCircularBuffer<u8>, buf: &mut [u8]) -> usize
    ensures capacity { bytes.new.capacity ≡ bytes.old.capacity }
    ensures count { result ≤ length buf.old }
    ensures taken { bytes.old.items ≡ take result buf.new ++ bytes.new.items }
    ensures rest { drop result buf.new ≡ drop result buf.old }
    ensures end { result ≡ 0 → 0 < length buf.old → bytes.new.items ≡ [] }
{
    let mut count = 0;
    'slots: for slot in buf.iter_mut() {
        match bytes.pop_front() {
            Some(byte) => {
                *slot = byte;
                count += 1;
            }
            None => return count,
        }
    }
    count
}

/// Adds a piece at the end, or as much of it as there is room for, and tells whether it was all.
fn append(bytes: &mut HeapCircularBuffer<u8>, piece: &[u8]) -> bool
    ensures capacity { bytes.new.capacity ≡ bytes.old.capacity }
    ensures valid { IsBytes piece.now }
    ensures all { result ≡ true → bytes.new.items ≡ bytes.old.items ++ piece.now }
    ensures front { result ≡ false → (n : ℕ) × (bytes.new.items ≡ bytes.old.items ++ take n piece.now) }
    ensures full { result ≡ false → bytes.old.capacity ≤ length bytes.new.items }
{
    'bytes: for byte in piece {
        match bytes.try_push_back(*byte) {
            Ok(()) => {}
            Err(_) => return false,
        }
    }
    true
}

impl Sink for Queue {
    ghost written = { λ s. Some s.bytes };

    ghost faults = { queue_faults };

    fn put(&mut self, piece: &[u8]) -> Result<(), Failed>
        ensures ok { OnOk result (Appends (Some self.old.bytes) (Some self.new.bytes) piece.now) }
        ensures err { OnErr result ((n : ℕ) × Appends (Some self.old.bytes) (Some self.new.bytes) (take n piece.now)) }
        ensures cause { HasCause result (queue_faults self.old) (queue_faults self.new) }
        ensures still { OnOk result (queue_faults self.new ≡ queue_faults self.old) }
    {
        if append(&mut self.bytes, piece) {
            return Ok(());
        }
        self.full = true;
        Err(Failed)
    }
}
