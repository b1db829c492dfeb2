//! The receiver.
ghost use Rattle.std.specs.Prelude.{◌≡◌, ◌+◌, ◌*◌, ◌^◌, ◌≤◌, ◌<◌, ◌∷◌, ◌++◌, ℕ, [], ◌⊎◌, ◌↔◌, length, take, IfOk};
ghost use Rattle.line_spec.specs.Frames.{IsPartial};
ghost use Rattle.ice_recv.specs.Receiving.{Waits, IsSettled, HasFrame, Drops, Tells, frame_limit, feed_limit, risen};
ghost use Rattle.ice_recv.specs.Handing.{Hands};
ghost use Rattle.ice_recv.specs.Fronts.{TakesByte};

use crate::held::{drop_first, drop_front, frame_at, push, settle};
use crate::marks::drop_marks;
use circular_buffer::HeapCircularBuffer;
use ice_frame::{Frame, Looks, Scan, Scanned, may_begin};
use line_spec::limits::FRAME_LIMIT;
use std::alloc::{AllocError, Global};
use std::marker::Model;

/// The most bytes that one feed considers.
const FEED: usize = 65_536;

/// A receiver of frames: it holds a whole frame that waits with what was held behind it, or less than a frame.
#[derive(Drop)]
pub struct Receiver {
    held: HeapCircularBuffer<u8>,
    /// The checks of the bytes held, as far as they were needed.
    marks: HeapCircularBuffer<u16>,
    /// It stands for the bytes held, where no frame waits.
    scan: Scan,
    /// The size of the frame that waits.
    waiting: Option<usize>,
    dropped: u64,
}

impl Model for Receiver {
    ghost use Rattle.ice_recv.specs.Received.{Received};

    ghost Value = { Received };

    ghost use Rattle.ice_recv.specs.Inside.{view_of, IsReceiver};

    ghost view = { view_of };

    ghost invariant = { IsReceiver };
}

impl Receiver {
    /// A receiver that holds nothing. It takes all its memory here, room for the 4,116 bytes of the longest frame and their checks.
    pub fn new(alloc: Global) -> Result<Receiver, AllocError>
        ensures { IfOk result (λ receiver. receiver ≡ record { held = []; dropped = 0 }) }
    {
        let held = HeapCircularBuffer::with_capacity(alloc, FRAME_LIMIT)?;
        let marks = HeapCircularBuffer::with_capacity(alloc, FRAME_LIMIT + 1)?;
        Ok(Receiver {
            held,
            marks,
            scan: Scan::start(),
            waiting: None,
            dropped: 0,
        })
    }

    /// Takes bytes from the front, and gives how many: none where a frame waits, else up to the one with which a frame waits, and where
    /// none does that all of the first 65,536.
    /// Junk ahead of the waiting frame, or of the rest, is dropped and counted.
    pub fn feed(&mut self, bytes: &[u8]) -> usize
        ensures most { (result ≤ length bytes.now) × (result ≤ feed_limit) }
        ensures none { (result ≡ 0) ↔ (Waits self.old.held ⊎ (bytes.now ≡ [])) }
        ensures drops { Drops (self.old.held ++ take result bytes.now) self.old.dropped self.new }
        ensures all { result < length bytes.now → result < feed_limit → Waits self.new.held }
        ensures first { (n : ℕ) → n < result → HasFrame (self.old.held ++ take n bytes.now) → ⊥ }
    {
        let mut looks = Looks::new();
        let (first, _) = bytes.split_at(bytes.len().min(FEED));
        self.feed_counted(first, &mut looks)
    }

    /// As `feed`, and counts its looks: at most one for each byte that is taken, and 4,116 for each junk byte that is dropped.
    pub fn feed_counted(&mut self, bytes: &[u8], looks: &mut Looks) -> usize
        requires length { length bytes.now ≤ feed_limit }
        requires least { looks.old < 2 ^ 61 }
        ensures most { (result ≤ length bytes.now) × (result ≤ feed_limit) }
        ensures none { (result ≡ 0) ↔ (Waits self.old.held ⊎ (bytes.now ≡ [])) }
        ensures drops { Drops (self.old.held ++ take result bytes.now) self.old.dropped self.new }
        ensures all { result < length bytes.now → result < feed_limit → Waits self.new.held }
        ensures first { (n : ℕ) → n < result → HasFrame (self.old.held ++ take n bytes.now) → ⊥ }
        ensures looks { looks.new ≤ looks.old + result + frame_limit * risen self.old.dropped self.new.dropped }
    {
        let mut waiting = self.waiting.is_some();
        let mut taken = 0;
        'bytes: while taken < bytes.len() && !waiting {
            waiting = self.take_byte(bytes[taken], looks);
            taken += 1;
        }
        taken
    }

    /// Takes a byte, where no frame waits, and says whether one waits now.
    fn take_byte(&mut self, byte: u8, looks: &mut Looks) -> bool
        requires partial { IsPartial self.old.held }
        requires least { looks.old < 2 ^ 61 + 2 ^ 59 }
        ensures { TakesByte (self.old.held ++ byte ∷ []) self.old.dropped looks.old self.new looks.new result }
    {
        if self.held.is_empty() && !may_begin(byte) {
            self.dropped = self.dropped.wrapping_add(1);
            return false;
        }
        let answer = self.scan.byte(byte, looks);
        push(&mut self.held, byte);
        match answer {
            Scanned::More => return false,
            Scanned::Whole => {
                self.waiting = Some(self.held.len());
                return true;
            }
            Scanned::Junk => {}
        }
        drop_first(&mut self.held, &mut self.marks, &mut self.dropped);
        self.waiting = settle(
            &mut self.held,
            &mut self.marks,
            &mut self.scan,
            &mut self.dropped,
            looks,
        );
        self.waiting.is_some()
    }

    /// The waiting frame, which is taken off; None where no frame waits.
    /// The junk ahead of the next frame, or of the rest, is dropped and counted.
    pub fn next(&mut self) -> Option<Frame>
        ensures { Hands self.old result self.new }
    {
        let mut looks = Looks::new();
        self.next_counted(&mut looks)
    }

    /// As `next`, and counts its looks: at most 4,116, and as many more for each junk byte that is dropped.
    pub fn next_counted(&mut self, looks: &mut Looks) -> Option<Frame>
        requires least { looks.old < 2 ^ 61 }
        ensures hands { Hands self.old result self.new }
        ensures looks { looks.new ≤ looks.old + frame_limit * (1 + risen self.old.dropped self.new.dropped) }
    {
        match self.waiting {
            Some(size) => {
                let frame = frame_at(&self.held, size);
                drop_front(&mut self.held, size);
                drop_marks(&mut self.marks, size);
                self.waiting = settle(
                    &mut self.held,
                    &mut self.marks,
                    &mut self.scan,
                    &mut self.dropped,
                    looks,
                );
                Some(frame)
            }
            None => None,
        }
    }

    /// Whether a whole frame waits; where none does, less than a frame is held.
    pub fn waits(&self) -> bool
        ensures { Tells result self.now.held }
    {
        self.waiting.is_some()
    }

    /// How many bytes were dropped so far, modulo 2^64.
    pub fn dropped(&self) -> u64
        ensures { result ≡ self.now.dropped }
    {
        self.dropped
    }

    /// How many bytes are held: at most 4,116, in which a whole frame waits or which are less than one.
    pub fn rest(&self) -> usize
        ensures rest { result ≡ length self.now.held }
        ensures most { result ≤ frame_limit }
        ensures settled { IsSettled self.now.held }
    {
        self.held.len()
    }
}

#[cfg(test)]
mod tests;
