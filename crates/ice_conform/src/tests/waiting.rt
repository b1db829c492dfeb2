//! Objects of a session with a client that wait for what was sent: a source and a gate. Each waits for so many looks at most, so that a
//! session in which nothing comes ends all the same.
ghost use Rattle.std.specs.Prelude.{◌≡◌, ◌≤◌, length, drop};

use ice_base::{Failed, Gate, MemSink, Sink, Source};
use std::alloc::Global;
use std::sync::Arc;
use std::sync::atomic::{AtomicU64, Ordering};

/// The most looks of one wait.
const LOOKS: u32 = 100_000_000;

/// A count of bytes that were sent, which threads share.
pub(super) type Told = Arc<AtomicU64, Global>;

/// Waits until so many bytes are told, and says whether they were.
fn are_told(told: &Told, awaited: u64) -> bool {
    for _ in 0..LOOKS {
        if told.load(Ordering::SeqCst) >= awaited {
            return true;
        }
    }
    false
}

/// A sink that tells how many bytes it was given.
#[derive(Drop)]
pub(super) struct Telling {
    sink: MemSink,
    told: Told,
}

impl Telling {
    /// Tells of this sink.
    pub(super) fn of(sink: MemSink, told: Told) -> Telling {
        Telling { sink, told }
    }

    /// What was written.
    pub(super) fn written(&self) -> &[u8] {
        self.sink.written()
    }
}

impl Sink for Telling {
    ghost use Rattle.std.specs.Prelude.{Some};

    ghost written = { λ s. Some s.sink.written };

    ghost faults = { λ s. s.sink.faults };

    fn put(&mut self, piece: &[u8]) -> Result<(), Failed> {
        let result = self.sink.put(piece);
        self.told.fetch_add(piece.len() as u64, Ordering::SeqCst);
        result
    }
}

/// A source that gives its first bytes at once, and its last ones once so many bytes are told.
#[derive(Drop)]
pub(super) struct Patient {
    first: Option<Vec<u8>>,
    last: Option<Vec<u8>>,
    told: Told,
    awaited: u64,
}

impl Patient {
    /// Its first bytes, its last ones, and how many bytes they wait for.
    pub(super) fn of(first: Vec<u8>, last: Vec<u8>, told: Told, awaited: u64) -> Patient {
        Patient {
            first: Some(first),
            last: Some(last),
            told,
            awaited,
        }
    }
}

/// These bytes, as far as there is room.
fn fill(buf: &mut [u8], bytes: &[u8]) -> usize
    ensures most { result ≤ length buf.old }
    ensures rest { drop result buf.new ≡ drop result buf.old }
{
    let count = buf.len().min(bytes.len());
    let (front, _) = buf.split_at_mut(count);
    let (given, _) = bytes.split_at(count);
    front.copy_from_slice(given);
    count
}

impl Source for Patient {
    ghost use Rattle.std.specs.Prelude.{None};

    ghost left = { λ s. None };

    ghost faults = { λ s. 0 };

    fn read(&mut self, buf: &mut [u8]) -> Result<usize, Failed> {
        if let Some(bytes) = self.first.take() {
            return Ok(fill(buf, bytes.as_slice()));
        }
        are_told(&self.told, self.awaited);
        match self.last.take() {
            Some(bytes) => Ok(fill(buf, bytes.as_slice())),
            None => Ok(0),
        }
    }
}

/// A gate that holds a run behind its first turn until so many bytes are told. It says whether they never were.
#[derive(Drop)]
pub(super) struct Holding {
    told: Told,
    awaited: u64,
    ran_out: Told,
}

impl Holding {
    /// The bytes that it waits for, and where it says that they did not come.
    pub(super) fn of(told: Told, awaited: u64, ran_out: Told) -> Holding {
        Holding {
            told,
            awaited,
            ran_out,
        }
    }
}

impl Gate for Holding {
    fn pass(&mut self, turn: u64) {
        if turn == 1 && !are_told(&self.told, self.awaited) {
            self.ran_out.fetch_add(1, Ordering::SeqCst);
        }
    }
}
