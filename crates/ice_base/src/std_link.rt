//! A link over a stream of the standard library.
ghost use Rattle.std.specs.Prelude.{◌≡◌, ◌<◌, ◌≤◌, ℕ, List, [], None, length, take, drop, IfOk, OnOk, OnErr};
ghost use Rattle.std.specs.Io.KnownBytes.{Appends, Consumes, IsAtEnd, Keeps, prepend_known};
ghost use Rattle.ice_base.specs.Counts.{HasCause, next_count};

use crate::{Failed, Link, Sink, Source, StdSink, StdSource};
use std::io::{Read, Write};
use std::marker::Model;

/// A link over the two ends of a stream, as a socket and its clone: what is sent is passed on at once, and some bytes that
/// come are read ahead.
#[derive(Drop)]
pub struct StdLink<R: Read + Drop, W: Write + Drop> {
    source: StdSource<R>,
    sink: StdSink<W>,
    faults: u64,
}

// Clauses see the source, the sink, and the count of faults.
impl<R: Read + Drop, W: Write + Drop> Model for StdLink<R, W> {
    ghost use Rattle.std.specs.Prelude.{ℕ, List};

    ghost Value = { (R × List ℕ × ℕ) × (W × ℕ) × ℕ };

    ghost view = { λ s. (s.source, s.sink, s.faults) };
}

impl<R: Read + Drop, W: Write + Drop> StdLink<R, W> {
    /// A link that receives from this reader and sends to this writer.
    pub fn of(reader: R, writer: W) -> StdLink<R, W>
        ensures { result ≡ ((reader, [], 0), (writer, 0), 0) }
    {
        StdLink {
            source: StdSource::of(reader),
            sink: StdSink::of(writer),
            faults: 0,
        }
    }

    /// How many calls have failed, up to the greatest u64.
    pub fn faults(&self) -> u64
        ensures { result ≡ self.now.2 }
    {
        self.faults
    }
}

impl<R: Read + Drop, W: Write + Drop> Link for StdLink<R, W> {
    ghost sent = { λ _. None };

    ghost incoming = { λ _. None };

    ghost faults = { λ s. s.2 };

    ghost sends = { λ before piece after. Appends (W.contents before.1.0) (W.contents after.1.0) piece };

    ghost receives = { λ before bytes after. Consumes (prepend_known before.0.1 (R.remaining before.0.0))
        (prepend_known after.0.1 (R.remaining after.0.0)) bytes };

    fn send(&mut self, piece: &[u8]) -> Result<(), Failed>
        ensures moved { OnOk result (Appends (W.contents self.old.1.0) (W.contents self.new.1.0) piece.now) }
        ensures ok { OnOk result (Appends None None piece.now) }
        ensures err { OnErr result ((n : ℕ) × Appends None None (take n piece.now)) }
        ensures answered { (bytes : List ℕ) × Appends None None bytes }
        ensures cause { HasCause result self.old.2 self.new.2 }
        ensures still { OnOk result (self.new.2 ≡ self.old.2) }
        ensures through_err { OnErr result ((n : ℕ) × Appends (W.contents self.old.1.0) (W.contents self.new.1.0) (take n piece.now)) }
        ensures reader { self.new.0 ≡ self.old.0 }
        ensures counted { OnErr result (self.new.2 ≡ next_count self.old.2) }
    {
        match self.sink.put(piece) {
            Ok(()) => Ok(()),
            Err(failed) => {
                self.faults = self.faults.saturating_add(1);
                Err(failed)
            }
        }
    }

    fn receive(&mut self, buf: &mut [u8]) -> Result<usize, Failed>
        ensures moved { IfOk result (λ n. Consumes (prepend_known self.old.0.1 (R.remaining self.old.0.0))
            (prepend_known self.new.0.1 (R.remaining self.new.0.0)) (take n buf.new)) }
        ensures count { IfOk result (λ n. n ≤ length buf.old) }
        ensures bytes { IfOk result (λ n. Consumes None None (take n buf.new)) }
        ensures rest { IfOk result (λ n. drop n buf.new ≡ drop n buf.old) }
        ensures end { IfOk result (λ n. n ≡ 0 → 0 < length buf.old → IsAtEnd None) }
        ensures err { OnErr result (Keeps None None) }
        ensures sent { Keeps None None }
        ensures cause { HasCause result self.old.2 self.new.2 }
        ensures still { OnOk result (self.new.2 ≡ self.old.2) }
        ensures through_end { IfOk result (λ n. n ≡ 0 → 0 < length buf.old →
            IsAtEnd (prepend_known self.new.0.1 (R.remaining self.new.0.0))) }
        ensures through_err { OnErr result (Keeps (prepend_known self.old.0.1 (R.remaining self.old.0.0))
            (prepend_known self.new.0.1 (R.remaining self.new.0.0))) }
        ensures writer { self.new.1 ≡ self.old.1 }
        ensures counted { OnErr result (self.new.2 ≡ next_count self.old.2) }
    {
        match self.source.read(buf) {
            Ok(count) => Ok(count),
            Err(failed) => {
                self.faults = self.faults.saturating_add(1);
                Err(failed)
            }
        }
    }
}
