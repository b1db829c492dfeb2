//! A source in memory.
ghost use Rattle.std.specs.Prelude.{◌≡◌, ◌<◌, ◌≤◌, Some, length, take, drop, is_err, IfOk, OnErr};
ghost use Rattle.std.specs.Io.KnownBytes.{Consumes, IsAtEnd, Keeps};
ghost use Rattle.ice_base.specs.Counts.{HasCause, Rose, next_count};
ghost use Rattle.ice_base.specs.MemSource.{fails_next, read_len, cut_to, after_read, after_failed_read};

use crate::{Failed, Source};
use std::marker::Model;

/// A source that gives the bytes of a list, cut as it is told, and fails where it is told.
#[derive(Drop)]
pub struct MemSource {
    bytes: Vec<u8>,
    given: usize,
    cuts: Vec<usize>,
    reads: usize,
    fails: Vec<u64>,
    calls: u64,
    faults: u64,
}

impl Model for MemSource {
    ghost use Rattle.std.specs.Prelude.{drop, ◌≤◌, vec_len};
    ghost use Rattle.ice_base.specs.MemSource.{SourceState};

    ghost Value = { SourceState };

    ghost view = { λ s. record {
      left = drop s.given s.bytes.items;
      cuts = drop s.reads s.cuts.items;
      fails = s.fails.items;
      calls = s.calls;
      faults = s.faults;
    } };

    ghost invariant = { λ s. (s.given ≤ vec_len s.bytes) × (s.reads ≤ vec_len s.cuts) };
}

impl MemSource {
    /// A source of these bytes. The k-th read that does not fail, from 0, gives at most `cuts[k]` bytes (0 counts as 1);
    /// past the list, as many as fit. The calls numbered in `fails`, from 1, fail.
    pub fn of(bytes: Vec<u8>, cuts: Vec<usize>, fails: Vec<u64>) -> MemSource
        ensures { result ≡ record { left = bytes.items; cuts = cuts.items; fails = fails.items; calls = 0; faults = 0 } }
    {
        MemSource {
            bytes,
            given: 0,
            cuts,
            reads: 0,
            fails,
            calls: 0,
            faults: 0,
        }
    }

    /// The bytes still to come.
    pub fn left(&self) -> &[u8]
        ensures { result.now ≡ self.now.left }
    {
        &self.bytes[self.given..]
    }

    /// How many calls have failed, up to the greatest u64.
    pub fn faults(&self) -> u64
        ensures { result ≡ self.now.faults }
    {
        self.faults
    }

    /// Counts a call, and says whether it is to fail.
    pub(crate) fn begin_call(&mut self) -> bool
        ensures fails { result ≡ fails_next self.old }
        ensures after { self.new ≡ record self.old { calls = next_count self.old.calls } }
    {
        self.calls = self.calls.saturating_add(1);
        self.fails.contains(&self.calls)
    }

    /// Counts a call that failed.
    pub(crate) fn count_fault(&mut self)
        ensures after { self.new ≡ record self.old { faults = next_count self.old.faults } }
        ensures rose { (self.old.faults ≤ self.new.faults) × Rose self.old.faults self.new.faults }
    {
        self.faults = self.faults.saturating_add(1);
    }
}

/// How many of the bytes that fit a read gives by the cut at this place.
fn cut_to(cuts: &[usize], place: usize, fit: usize) -> usize
    ensures { result ≡ cut_to (drop place cuts.now) fit }
{
    match cuts.get(place) {
        None => fit,
        Some(cut) => (*cut).max(1).min(fit),
    }
}

impl Source for MemSource {
    ghost left = { λ s. Some s.left };

    ghost faults = { λ s. s.faults };

    fn read(&mut self, buf: &mut [u8]) -> Result<usize, Failed>
        ensures count { IfOk result (λ n. n ≤ length buf.old) }
        ensures bytes { IfOk result (λ n. Consumes (Some self.old.left) (Some self.new.left) (take n buf.new)) }
        ensures rest { IfOk result (λ n. drop n buf.new ≡ drop n buf.old) }
        ensures end { IfOk result (λ n. n ≡ 0 → 0 < length buf.old → IsAtEnd (Some self.new.left)) }
        ensures err { OnErr result (Keeps (Some self.old.left) (Some self.new.left)) }
        ensures cause { HasCause result self.old.faults self.new.faults }
        ensures answer { is_err result ≡ fails_next self.old }
        ensures given { IfOk result (λ n. n ≡ read_len self.old (length buf.old)) }
        ensures after { IfOk result (λ n. self.new ≡ after_read self.old n) }
        ensures after_err { OnErr result (self.new ≡ after_failed_read self.old) }
    {
        if self.begin_call() {
            self.count_fault();
            return Err(Failed);
        }
        let fit = buf.len().min(self.bytes.len() - self.given);
        let count = cut_to(&self.cuts, self.reads, fit);
        buf[..count].copy_from_slice(&self.bytes[self.given..self.given + count]);
        self.given += count;
        self.reads = (self.reads + 1).min(self.cuts.len());
        Ok(count)
    }
}
