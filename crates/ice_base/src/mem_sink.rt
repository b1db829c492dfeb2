//! A sink in memory.
ghost use Rattle.std.specs.Prelude.{◌≡◌, ◌-◌, ◌+◌, ◌≤◌, ℕ, ◌++◌, [], Some, length, take, is_ok, IfOk, OnOk, OnErr, vec_len, vec_capacity};
ghost use Rattle.std.specs.Io.KnownBytes.{Appends};
ghost use Rattle.ice_base.specs.Counts.{HasCause};
ghost use Rattle.ice_base.specs.MemSink.{cut_piece, Puts};

use crate::failing::failing;
use crate::{Failed, Sink};
use std::alloc::{AllocError, Global};
use std::marker::Model;

/// A sink that keeps what is written, up to the room that it was made with, and fails where it is told.
#[derive(Drop)]
pub struct MemSink {
    bytes: Vec<u8>,
    room: usize,
    fails: Vec<(u64, usize)>,
    calls: u64,
    faults: u64,
}

impl Model for MemSink {
    ghost use Rattle.std.specs.Prelude.{◌≤◌, vec_len, vec_capacity};
    ghost use Rattle.ice_base.specs.MemSink.{SinkState};

    ghost Value = { SinkState };

    ghost view = { λ s. record {
      written = s.bytes.items;
      room = s.room;
      fails = s.fails.items;
      calls = s.calls;
      faults = s.faults;
    } };

    ghost invariant = { λ s. (vec_len s.bytes ≤ s.room) × (s.room ≤ vec_capacity s.bytes) };
}

impl MemSink {
    /// An empty sink with room for `room` bytes, which are reserved here. The calls that `fails` lists, by their number
    /// from 1, write the first so many bytes of their piece, as far as they are there and have room, and fail. A call that
    /// is not listed and passes the room left writes nothing and fails.
    pub fn of(alloc: Global, fails: Vec<(u64, usize)>, room: usize) -> Result<MemSink, AllocError>
        ensures { IfOk result (λ sink. sink ≡ record { written = []; room = room; fails = fails.items; calls = 0; faults = 0 }) }
    {
        let bytes = Vec::with_capacity(alloc, room)?;
        Ok(MemSink {
            bytes,
            room,
            fails,
            calls: 0,
            faults: 0,
        })
    }

    /// The bytes written so far.
    pub fn written(&self) -> &[u8]
        ensures { result.now ≡ self.now.written }
    {
        &self.bytes
    }

    /// How many calls have failed, up to the greatest u64.
    pub fn faults(&self) -> u64
        ensures { result ≡ self.now.faults }
    {
        self.faults
    }
}

/// How many bytes of a piece a call writes that fails.
fn cut_piece(amount: Option<usize>, room_left: usize, len: usize) -> Option<usize>
    ensures cut { result ≡ cut_piece amount room_left len }
{
    match amount {
        None if len <= room_left => None,
        None => Some(0),
        Some(amount) => Some(amount.min(len.min(room_left))),
    }
}

/// Appends a piece for which there is room already.
pub(crate) fn append(bytes: &mut Vec<u8>, piece: &[u8])
    requires { vec_len bytes.old + length piece.now ≤ vec_capacity bytes.old }
    ensures items { bytes.new.items ≡ bytes.old.items ++ piece.now }
    ensures len { vec_len bytes.new ≡ vec_len bytes.old + length piece.now }
    ensures capacity { vec_capacity bytes.old ≤ vec_capacity bytes.new }
{
    let _ = bytes.extend_from_slice(piece);
}

impl Sink for MemSink {
    ghost written = { λ s. Some s.written };

    ghost faults = { λ s. s.faults };

    fn put(&mut self, piece: &[u8]) -> Result<(), Failed>
        ensures ok { OnOk result (Appends (Some self.old.written) (Some self.new.written) piece.now) }
        ensures err { OnErr result ((n : ℕ) × Appends (Some self.old.written) (Some self.new.written) (take n piece.now)) }
        ensures cause { HasCause result self.old.faults self.new.faults }
        ensures puts { Puts self.old piece.now (is_ok result) self.new }
    {
        self.calls = self.calls.saturating_add(1);
        let amount = failing(&self.fails, self.calls);
        let room_left = self.room - self.bytes.len();
        match cut_piece(amount, room_left, piece.len()) {
            None => {
                append(&mut self.bytes, piece);
                Ok(())
            }
            Some(count) => {
                append(&mut self.bytes, &piece[..count]);
                self.faults = self.faults.saturating_add(1);
                Err(Failed)
            }
        }
    }
}
