//! The bytes that have come over a link, and the frames in them.
ghost use Rattle.std.specs.Prelude.{◌≡◌, ◌<◌, ◌≤◌, ◌-◌, [], length, take, drop, IfNone, IfOk};
ghost use Rattle.host_session.specs.Arriving.{ReceivesNext};
ghost use Rattle.host_session.specs.Hearing.{HandsNext, pending_of};
ghost use Rattle.host_session.specs.Words.{words_of};

use ice_base::{Failed, Link};
use ice_frame::Frame;
use ice_recv::Receiver;
use std::alloc::{AllocError, Global};
use std::marker::Model;

/// The most bytes that one receive asks for.
const CHUNK: usize = 512;

/// What a receive came to.
#[derive(Clone, Copy, Debug, PartialEq, Eq)]
pub(crate) enum Next {
    /// So many bytes.
    Bytes(usize),
    /// Nothing more comes.
    End,
    /// The link failed.
    Fault,
}

/// The bytes that have come and were not taken.
#[derive(Drop)]
pub(crate) struct Inbox {
    /// It holds those that were looked at.
    receiver: Receiver,
    /// What came last.
    chunk: [u8; CHUNK],
    /// Where in the chunk the bytes begin that were not looked at.
    from: usize,
    /// Where they end.
    to: usize,
}

impl Model for Inbox {
    ghost use Rattle.std.specs.Prelude.{◌≤◌, ◌-◌, take, drop};
    ghost use Rattle.host_session.specs.Standing.{Arrived};

    ghost Value = { Arrived };

    ghost view = { λ s. record { held = s.receiver.held; behind = take (s.to - s.from) (drop s.from s.chunk) } };

    ghost invariant = { λ s. (s.from ≤ s.to) × (s.to ≤ 512) };
}

impl Inbox {
    /// An inbox to which nothing has come. It takes all its memory here.
    pub(crate) fn new(alloc: Global) -> Result<Inbox, AllocError>
        ensures { IfOk result (λ inbox. inbox ≡ record { held = []; behind = [] }) }
    {
        let receiver = Receiver::new(alloc)?;
        Ok(Inbox {
            receiver,
            chunk: [0u8; CHUNK],
            from: 0,
            to: 0,
        })
    }

    /// The first frame that has come, which is taken off. Where it is None all bytes were looked at.
    pub(crate) fn next_frame(&mut self) -> Option<Frame>
        ensures hands { HandsNext (pending_of self.old) result (pending_of self.new) }
        ensures all { IfNone result (self.new.behind ≡ []) }
    {
        let fed = self.receiver.feed(part(&self.chunk, self.from, self.to));
        self.from += fed;
        self.receiver.next()
    }

    /// Receives at most so many bytes more, where all were looked at.
    pub(crate) fn receive<L: Link>(&mut self, link: &mut L, most: usize) -> Next
        requires least { 0 < most }
        requires all { self.old.behind ≡ [] }
        ensures receives { ReceivesNext (words_of L.sent L.incoming L.faults L.sends L.receives)
            link.old link.new most self.old self.new result }
        ensures counts { L.faults link.old ≤ L.faults link.new }
    {
        match link.receive(&mut self.chunk[..most.min(CHUNK)]) {
            Ok(0) => Next::End,
            Ok(count) => {
                self.from = 0;
                self.to = count;
                Next::Bytes(count)
            }
            Err(Failed) => Next::Fault,
        }
    }
}

/// The bytes between two places.
fn part(bytes: &[u8], from: usize, to: usize) -> &[u8]
    requires order { from ≤ to }
    requires within { to ≤ length bytes.now }
    ensures { result.now ≡ take (to - from) (drop from bytes.now) }
{
    let (_, rest) = bytes.split_at(from);
    let (part, _) = rest.split_at(to - from);
    part
}
