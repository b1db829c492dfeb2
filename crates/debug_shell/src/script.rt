//! Scripts: the lines of a source are run, and the texts of their answers are put.
ghost use Rattle.std.specs.Prelude.{◌≡◌, ◌+◌, ◌<◌, ◌≤◌, ◌++◌, [], ◌∷◌, length};
ghost use Rattle.host_session.specs.Words.{words_of};
ghost use Rattle.debug_shell.specs.Endings.{EndsBy, scene};
ghost use Rattle.debug_shell.specs.Reads.{TakesNext};
ghost use Rattle.debug_shell.specs.Steps.{RunsLast, TakesOn, held_of, printer};

use crate::run::run_line;
use crate::script_end::ScriptEnd;
use arrayvec::ArrayVec;
use host_session::Host;
use ice_base::{Failed, Link, Sink, Source};

/// The most bytes of a script.
const INPUT_LIMIT: usize = 67_108_864;

/// The most bytes that one read asks for.
const CHUNK: usize = 512;

/// How much of a line is kept: with its end it may have 322 bytes, and with one more it is too long.
const HELD_LIMIT: usize = 323;

/// The front of a line.
type Held = ArrayVec<u8, HELD_LIMIT>;

/// What comes next from the source.
#[derive(Clone, Copy, Debug, PartialEq, Eq)]
enum Next {
    /// So many bytes.
    Bytes(usize),
    /// The end.
    End,
    /// The source failed.
    Fault,
}

/// Runs the lines of the source, in order: each makes at most one call of the host, and its text is put to the sink. It takes no memory.
///
/// A line that is wrong, or does nothing, makes no call. The script ends at the end of the source, behind the answer to `quit`, and at the
/// first answer that the host does not have; a line whose end was not read is run at the end of the source alone.
pub fn run_script<L: Link, S: Source, K: Sink>(
    host: &mut Host<L>,
    source: &mut S,
    sink: &mut K,
) -> ScriptEnd
    ensures ends { EndsBy (words_of L.sent L.incoming L.faults L.sends L.receives)
        (scene host.old (S.left source.old) (S.faults source.old) (K.written sink.old) (K.faults sink.old))
        (scene host.new (S.left source.new) (S.faults source.new) (K.written sink.new) (K.faults sink.new)) result }
    ensures source_counts { S.faults source.old ≤ S.faults source.new }
    ensures sink_counts { K.faults sink.old ≤ K.faults sink.new }
{
    let mut held = Held::new();
    let mut buffer = [0u8; CHUNK];
    let mut allowed = INPUT_LIMIT;
    'chunks: while allowed > 0 {
        let count = match next_bytes(source, &mut buffer, allowed.min(CHUNK)) {
            Next::Bytes(count) => count,
            Next::End => return run_last(host, &held, sink),
            Next::Fault => return ScriptEnd::Read,
        };
        allowed -= count;
        let (chunk, _) = buffer.split_at(count);
        match take_chunk(host, &mut held, chunk, sink) {
            None => {}
            Some(end) => return end,
        }
    }
    match next_bytes(source, &mut buffer, 1) {
        Next::Bytes(_) => ScriptEnd::TooLong,
        Next::End => run_last(host, &held, sink),
        Next::Fault => ScriptEnd::Read,
    }
}

/// Reads at most so many bytes into the front of the buffer.
fn next_bytes<S: Source>(source: &mut S, buffer: &mut [u8; CHUNK], most: usize) -> Next
    requires least { 0 < most }
    requires room { most ≤ 512 }
    ensures takes { TakesNext (record { bytes = S.left source.old; faults = S.faults source.old })
        (record { bytes = S.left source.new; faults = S.faults source.new }) most buffer.new result }
    ensures counts { S.faults source.old ≤ S.faults source.new }
{
    match source.read(&mut buffer[..most]) {
        Ok(0) => Next::End,
        Ok(count) => Next::Bytes(count),
        Err(Failed) => Next::Fault,
    }
}

/// Runs the lines that end in the chunk, and keeps the front of the one that is open behind them.
fn take_chunk<L: Link, K: Sink>(
    host: &mut Host<L>,
    held: &mut Held,
    chunk: &[u8],
    sink: &mut K,
) -> Option<ScriptEnd>
    ensures takes { TakesOn (words_of L.sent L.incoming L.faults L.sends L.receives) chunk.now
        (printer host.old (K.written sink.old) (K.faults sink.old)) (printer host.new (K.written sink.new) (K.faults sink.new))
        held.old.items held.new.items result }
    ensures counts { K.faults sink.old ≤ K.faults sink.new }
{
    'bytes: for byte in chunk {
        match take_byte(host, held, *byte, sink) {
            None => {}
            Some(end) => return Some(end),
        }
    }
    None
}

/// Takes a byte, and runs the line that it ends.
fn take_byte<L: Link, K: Sink>(
    host: &mut Host<L>,
    held: &mut Held,
    byte: u8,
    sink: &mut K,
) -> Option<ScriptEnd>
    ensures takes { TakesOn (words_of L.sent L.incoming L.faults L.sends L.receives) (byte ∷ [])
        (printer host.old (K.written sink.old) (K.faults sink.old)) (printer host.new (K.written sink.new) (K.faults sink.new))
        held.old.items held.new.items result }
    ensures counts { K.faults sink.old ≤ K.faults sink.new }
{
    keep(held, byte);
    if byte != b'\n' {
        return None;
    }
    let end = run_line(host, held.as_slice(), sink);
    held.clear();
    end
}

/// Keeps the byte, if it stands at the front of its line.
fn keep(held: &mut Held, byte: u8)
    ensures { held.new.items ≡ held_of (held.old.items ++ byte ∷ []) }
{
    if held.len() < HELD_LIMIT {
        held.push(byte);
    }
}

/// Runs the last line of the source, which has no end, if there is one.
fn run_last<L: Link, K: Sink>(host: &mut Host<L>, held: &Held, sink: &mut K) -> ScriptEnd
    ensures last { RunsLast (words_of L.sent L.incoming L.faults L.sends L.receives) held.now.items
        (printer host.old (K.written sink.old) (K.faults sink.old)) (printer host.new (K.written sink.new) (K.faults sink.new)) result }
    ensures counts { K.faults sink.old ≤ K.faults sink.new }
{
    if held.is_empty() {
        return ScriptEnd::Done;
    }
    match run_line(host, held.as_slice(), sink) {
        None => ScriptEnd::Done,
        Some(end) => end,
    }
}
