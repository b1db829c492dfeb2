//! A sink over a writer of the standard library.
ghost use Rattle.std.specs.Prelude.{◌≡◌, ◌<◌, ◌≤◌, ℕ, None, length, take, IfOk, OnOk, OnErr};
ghost use Rattle.std.specs.Io.KnownBytes.{Appends, Keeps};
ghost use Rattle.ice_base.specs.Counts.{HasCause, next_count};

use crate::std_source::TRIES;
use crate::{Failed, Sink};
use std::io::{ErrorKind, Write};
use std::marker::Model;

/// A sink over a writer, to which it writes at once: after an `Ok` the writer has passed the piece on.
#[derive(Drop)]
pub struct StdSink<W: Write + Drop> {
    writer: W,
    faults: u64,
}

// Clauses see the writer and the count of faults.
impl<W: Write + Drop> Model for StdSink<W> {
    ghost use Rattle.std.specs.Prelude.{ℕ};

    ghost Value = { W × ℕ };

    ghost view = { λ s. (s.writer, s.faults) };
}

impl<W: Write + Drop> StdSink<W> {
    /// A sink over this writer.
    pub fn of(writer: W) -> StdSink<W>
        ensures { result ≡ (writer, 0) }
    {
        StdSink { writer, faults: 0 }
    }

    /// How many calls have failed, up to the greatest u64.
    pub fn faults(&self) -> u64
        ensures { result ≡ self.now.1 }
    {
        self.faults
    }
}

/// One write of a byte at least, which is tried again where a signal interrupted it. A write that takes no byte has failed.
fn write_some<W: Write>(writer: &mut W, piece: &[u8]) -> Result<usize, Failed>
    requires { 0 < length piece.now }
    ensures count { IfOk result (λ n. (0 < n) × (n ≤ length piece.now)) }
    ensures bytes { IfOk result (λ n. Appends (W.contents writer.old) (W.contents writer.new) (take n piece.now)) }
    ensures err { OnErr result (Keeps (W.contents writer.old) (W.contents writer.new)) }
{
    for _ in 0..TRIES {
        match writer.write(piece) {
            Ok(0) => return Err(Failed),
            Ok(count) => return Ok(count),
            Err(error) => {
                if error.kind() != ErrorKind::Interrupted {
                    return Err(Failed);
                }
            }
        }
    }
    Err(Failed)
}

/// Writes all of a piece.
fn write_whole<W: Write>(writer: &mut W, piece: &[u8]) -> Result<(), Failed>
    ensures ok { OnOk result (Appends (W.contents writer.old) (W.contents writer.new) piece.now) }
    ensures err { OnErr result ((n : ℕ) × Appends (W.contents writer.old) (W.contents writer.new) (take n piece.now)) }
{
    let mut done = 0;
    while done < piece.len() {
        match write_some(writer, &piece[done..]) {
            Ok(count) => done += count,
            Err(failed) => return Err(failed),
        }
    }
    Ok(())
}

/// Writes all of a piece, and has the writer pass it on.
fn write_through<W: Write>(writer: &mut W, piece: &[u8]) -> Result<(), Failed>
    ensures ok { OnOk result (Appends (W.contents writer.old) (W.contents writer.new) piece.now) }
    ensures err { OnErr result ((n : ℕ) × Appends (W.contents writer.old) (W.contents writer.new) (take n piece.now)) }
{
    match write_whole(writer, piece) {
        Ok(()) => match writer.flush() {
            Ok(()) => Ok(()),
            Err(_) => Err(Failed),
        },
        Err(failed) => Err(failed),
    }
}

impl<W: Write + Drop> Sink for StdSink<W> {
    ghost written = { λ _. None };

    ghost faults = { λ s. s.1 };

    fn put(&mut self, piece: &[u8]) -> Result<(), Failed>
        ensures ok { OnOk result (Appends None None piece.now) }
        ensures err { OnErr result ((n : ℕ) × Appends None None (take n piece.now)) }
        ensures cause { HasCause result self.old.1 self.new.1 }
        ensures through { OnOk result (Appends (W.contents self.old.0) (W.contents self.new.0) piece.now) }
        ensures through_err { OnErr result ((n : ℕ) × Appends (W.contents self.old.0) (W.contents self.new.0) (take n piece.now)) }
        ensures kept { OnOk result (self.new.1 ≡ self.old.1) }
        ensures counted { OnErr result (self.new.1 ≡ next_count self.old.1) }
    {
        match write_through(&mut self.writer, piece) {
            Ok(()) => Ok(()),
            Err(failed) => {
                self.faults = self.faults.saturating_add(1);
                Err(failed)
            }
        }
    }
}
