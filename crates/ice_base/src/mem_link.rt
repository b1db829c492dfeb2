//! A link in memory.
ghost use Rattle.std.specs.Prelude.{◌≡◌, ◌<◌, ◌≤◌, ℕ, List, [], Some, length, take, drop, is_err, IfOk, OnOk, OnErr};
ghost use Rattle.std.specs.Io.KnownBytes.{Appends, Consumes, IsAtEnd, Keeps};
ghost use Rattle.ice_base.specs.Counts.{HasCause};
ghost use Rattle.ice_base.specs.MemSource.{fails_next, read_len};
ghost use Rattle.ice_base.specs.MemLink.{send_fails, after_receive, after_failed_call, Sends, Receives};

use crate::mem_sink::append;
use crate::{Failed, Link, MemSource, Source};
use std::alloc::{AllocError, Global};
use std::marker::Model;

/// A link that gives the bytes of a list, cut as it is told, keeps what is sent, up to the room that it was made with, and
/// fails where it is told.
#[derive(Drop)]
pub struct MemLink {
    incoming: MemSource,
    sent: Vec<u8>,
    room: usize,
}

impl Model for MemLink {
    ghost use Rattle.std.specs.Prelude.{◌≤◌, vec_len, vec_capacity};
    ghost use Rattle.ice_base.specs.MemLink.{LinkState};

    ghost Value = { LinkState };

    ghost view = { λ s. record { incoming = s.incoming; sent = s.sent.items; room = s.room } };

    ghost invariant = { λ s. (vec_len s.sent ≤ s.room) × (s.room ≤ vec_capacity s.sent) };
}

impl MemLink {
    /// A link from which these bytes come, and with room for `room` sent bytes, which are reserved here. The k-th receive
    /// that does not fail, from 0, gives at most `cuts[k]` bytes (0 counts as 1); past the list, as many as fit. The calls
    /// numbered in `fails`, from 1, sends and receives counted together, fail. A send that is not listed and passes the
    /// room left fails too. A send that fails sends nothing.
    pub fn of(
        alloc: Global,
        incoming: Vec<u8>,
        cuts: Vec<usize>,
        fails: Vec<u64>,
        room: usize,
    ) -> Result<MemLink, AllocError>
        ensures { IfOk result (λ link. link ≡ record {
          incoming = record { left = incoming.items; cuts = cuts.items; fails = fails.items; calls = 0; faults = 0 };
          sent = [];
          room = room;
        }) }
    {
        let sent = Vec::with_capacity(alloc, room)?;
        Ok(MemLink {
            incoming: MemSource::of(incoming, cuts, fails),
            sent,
            room,
        })
    }

    /// The bytes still to come.
    pub fn incoming(&self) -> &[u8]
        ensures { result.now ≡ self.now.incoming.left }
    {
        self.incoming.left()
    }

    /// The bytes sent so far.
    pub fn sent(&self) -> &[u8]
        ensures { result.now ≡ self.now.sent }
    {
        &self.sent
    }

    /// How many calls have failed, up to the greatest u64.
    pub fn faults(&self) -> u64
        ensures { result ≡ self.now.incoming.faults }
    {
        self.incoming.faults()
    }
}

impl Link for MemLink {
    ghost sent = { λ s. Some s.sent };

    ghost incoming = { λ s. Some s.incoming.left };

    ghost faults = { λ s. s.incoming.faults };

    ghost sends = { Sends };

    ghost receives = { Receives };

    fn send(&mut self, piece: &[u8]) -> Result<(), Failed>
        ensures moved { OnOk result (Sends self.old piece.now self.new) }
        ensures ok { OnOk result (Appends (Some self.old.sent) (Some self.new.sent) piece.now) }
        ensures err { OnErr result ((n : ℕ) × Appends (Some self.old.sent) (Some self.new.sent) (take n piece.now)) }
        ensures answered { (bytes : List ℕ) × Appends (Some self.old.incoming.left) (Some self.new.incoming.left) bytes }
        ensures cause { HasCause result self.old.incoming.faults self.new.incoming.faults }
        ensures still { OnOk result (self.new.incoming.faults ≡ self.old.incoming.faults) }
        ensures answer { is_err result ≡ send_fails self.old piece.now }
        ensures after_err { OnErr result (self.new ≡ after_failed_call self.old) }
    {
        let fits = piece.len() <= self.room - self.sent.len();
        if self.incoming.begin_call() || !fits {
            self.incoming.count_fault();
            return Err(Failed);
        }
        append(&mut self.sent, piece);
        Ok(())
    }

    fn receive(&mut self, buf: &mut [u8]) -> Result<usize, Failed>
        ensures moved { IfOk result (λ n. Receives self.old (take n buf.new) self.new) }
        ensures count { IfOk result (λ n. n ≤ length buf.old) }
        ensures bytes { IfOk result (λ n. Consumes (Some self.old.incoming.left) (Some self.new.incoming.left) (take n buf.new)) }
        ensures rest { IfOk result (λ n. drop n buf.new ≡ drop n buf.old) }
        ensures end { IfOk result (λ n. n ≡ 0 → 0 < length buf.old → IsAtEnd (Some self.new.incoming.left)) }
        ensures err { OnErr result (Keeps (Some self.old.incoming.left) (Some self.new.incoming.left)) }
        ensures sent { Keeps (Some self.old.sent) (Some self.new.sent) }
        ensures cause { HasCause result self.old.incoming.faults self.new.incoming.faults }
        ensures still { OnOk result (self.new.incoming.faults ≡ self.old.incoming.faults) }
        ensures answer { is_err result ≡ fails_next self.old.incoming }
        ensures given { IfOk result (λ n. n ≡ read_len self.old.incoming (length buf.old)) }
        ensures after { IfOk result (λ n. self.new ≡ after_receive self.old n) }
        ensures after_err { OnErr result (self.new ≡ after_failed_call self.old) }
    {
        self.incoming.read(buf)
    }
}
