//! A source over a reader of the standard library.
ghost use Rattle.std.specs.Prelude.{◌≡◌, ◌<◌, ◌≤◌, ◌++◌, ℕ, [], None, length, take, drop, min, IfOk, OnOk, OnErr};
ghost use Rattle.std.specs.Io.KnownBytes.{Consumes, IsAtEnd, Keeps, prepend_known};
ghost use Rattle.ice_base.specs.Counts.{HasCause, next_count};

use crate::{Failed, Source};
use std::io::{ErrorKind, Read};
use std::marker::Model;

/// How many bytes are read ahead.
const AHEAD: usize = 8192;

/// How often a read or a write that a signal interrupted is tried again.
pub(crate) const TRIES: u32 = 1000;

/// A source over a reader, of which it reads some bytes ahead.
#[derive(Drop)]
pub struct StdSource<R: Read + Drop> {
    reader: R,
    ahead: [u8; AHEAD],
    start: usize,
    end: usize,
    faults: u64,
}

// Clauses see the reader, the bytes that were read ahead, and the count of faults.
impl<R: Read + Drop> Model for StdSource<R> {
    ghost use Rattle.std.specs.Prelude.{ℕ, List, ◌-◌, ◌≤◌, take, drop};
    ghost use Rattle.ice_base.specs.declared.std_source.TheConstants.{AHEAD};

    ghost Value = { R × List ℕ × ℕ };

    ghost view = { λ s. (s.reader, take (s.end - s.start) (drop s.start s.ahead), s.faults) };

    ghost invariant = { λ s. (s.start ≤ s.end) × (s.end ≤ AHEAD) };
}

impl<R: Read + Drop> StdSource<R> {
    /// A source over this reader.
    pub fn of(reader: R) -> StdSource<R>
        ensures { result ≡ (reader, [], 0) }
    {
        StdSource {
            reader,
            ahead: [0; AHEAD],
            start: 0,
            end: 0,
            faults: 0,
        }
    }

    /// How many calls have failed, up to the greatest u64.
    pub fn faults(&self) -> u64
        ensures { result ≡ self.now.2 }
    {
        self.faults
    }

    /// Reads ahead where nothing is ahead.
    fn read_ahead(&mut self) -> Result<(), Failed>
        ensures bytes { Keeps (prepend_known self.old.1 (R.remaining self.old.0)) (prepend_known self.new.1 (R.remaining self.new.0)) }
        ensures end { OnOk result (self.new.1 ≡ [] → IsAtEnd (R.remaining self.new.0)) }
        ensures cause { HasCause result self.old.2 self.new.2 }
        ensures kept { OnOk result (self.new.2 ≡ self.old.2) }
        ensures counted { OnErr result (self.new.2 ≡ next_count self.old.2) }
    {
        if self.start < self.end {
            return Ok(());
        }
        match read_some(&mut self.reader, &mut self.ahead) {
            Ok(count) => {
                self.start = 0;
                self.end = count;
                Ok(())
            }
            Err(failed) => {
                self.faults = self.faults.saturating_add(1);
                Err(failed)
            }
        }
    }

    /// Gives bytes that were read ahead, as many as fit.
    fn give(&mut self, buf: &mut [u8]) -> usize
        ensures count { result ≡ min (length buf.old) (length self.old.1) }
        ensures buf { buf.new ≡ take result self.old.1 ++ drop result buf.old }
        ensures ahead { self.new.1 ≡ drop result self.old.1 }
        ensures reader { self.new.0 ≡ self.old.0 }
        ensures kept { self.new.2 ≡ self.old.2 }
    {
        let count = buf.len().min(self.end - self.start);
        buf[..count].copy_from_slice(&self.ahead[self.start..self.start + count]);
        self.start += count;
        count
    }
}

/// One read, which is tried again where a signal interrupted it.
fn read_some<R: Read>(reader: &mut R, buf: &mut [u8]) -> Result<usize, Failed>
    ensures count { IfOk result (λ n. n ≤ length buf.old) }
    ensures bytes { IfOk result (λ n. Consumes (R.remaining reader.old) (R.remaining reader.new) (take n buf.new)) }
    ensures end { IfOk result (λ n. n ≡ 0 → 0 < length buf.old → IsAtEnd (R.remaining reader.new)) }
    ensures err { OnErr result (Keeps (R.remaining reader.old) (R.remaining reader.new)) }
{
    for _ in 0..TRIES {
        match reader.read(buf) {
            Ok(count) => return Ok(count),
            Err(error) => {
                if error.kind() != ErrorKind::Interrupted {
                    return Err(Failed);
                }
            }
        }
    }
    Err(Failed)
}

impl<R: Read + Drop> Source for StdSource<R> {
    ghost left = { λ _. None };

    ghost faults = { λ s. s.2 };

    fn read(&mut self, buf: &mut [u8]) -> Result<usize, Failed>
        ensures count { IfOk result (λ n. n ≤ length buf.old) }
        ensures bytes { IfOk result (λ n. Consumes None None (take n buf.new)) }
        ensures rest { IfOk result (λ n. drop n buf.new ≡ drop n buf.old) }
        ensures end { IfOk result (λ n. n ≡ 0 → 0 < length buf.old → IsAtEnd None) }
        ensures err { OnErr result (Keeps None None) }
        ensures cause { HasCause result self.old.2 self.new.2 }
        ensures through { IfOk result (λ n. Consumes (prepend_known self.old.1 (R.remaining self.old.0))
            (prepend_known self.new.1 (R.remaining self.new.0)) (take n buf.new)) }
        ensures through_end { IfOk result (λ n. n ≡ 0 → 0 < length buf.old →
            IsAtEnd (prepend_known self.new.1 (R.remaining self.new.0))) }
        ensures through_err { OnErr result (Keeps (prepend_known self.old.1 (R.remaining self.old.0))
            (prepend_known self.new.1 (R.remaining self.new.0))) }
        ensures kept { OnOk result (self.new.2 ≡ self.old.2) }
        ensures counted { OnErr result (self.new.2 ≡ next_count self.old.2) }
    {
        if buf.is_empty() {
            return Ok(0);
        }
        match self.read_ahead() {
            Ok(()) => Ok(self.give(buf)),
            Err(failed) => Err(failed),
        }
    }
}
