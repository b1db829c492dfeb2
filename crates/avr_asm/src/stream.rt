//! The text of a source is read whole, and its image is put to a sink.
ghost use Rattle.std.specs.Prelude.{◌≡◌, ◌≤◌, length};
ghost use Rattle.part_spec.specs.Chip.{chip_of};
ghost use Rattle.ice_line.specs.Lines.{Writes, line_at};
ghost use Rattle.asm_spec.specs.Words.{bytes_of};
ghost use Rattle.avr_asm.specs.Streams.{Fills, IsAssembled, Puts};

use crate::assembler::{Assembled, assemble};
use crate::error::AsmError;
use arrayvec::ArrayVec;
use ice_base::{Failed, Sink, Source};
use ice_frame::append;
use ice_line::write_some;
use part_spec::Part;
use std::alloc::Global;

/// The most bytes that are read, one more than a text may have.
const READ_LIMIT: usize = 1_048_577;

/// How many words are put at once.
const WORDS_AT_ONCE: usize = 2048;

/// How many bytes these are.
const BYTES_AT_ONCE: usize = 4096;

/// How the assembly of the text of a source ended.
#[derive(Clone, Copy, Debug, PartialEq, Eq)]
pub enum AssemblyEnd {
    /// The image was put.
    Okay,
    /// The source failed.
    Read,
    /// The image could not be put, or not all of it.
    Write,
    /// The text is refused.
    Refused(AsmError),
}

/// Reads the text of a source to its end, or up to the byte that is one too many, and puts its image to the sink: its words for the part
/// up to the last one given, the low byte of each first. Nothing is put of a text that is refused. All memory but that of `assemble` is
/// taken ahead of the first read.
pub fn assemble_source<S: Source, K: Sink>(
    alloc: Global,
    part: Part,
    source: &mut S,
    sink: &mut K,
) -> AssemblyEnd
    ensures assembled { IsAssembled (chip_of part) result
        (line_at (S.left source.old) (S.faults source.old) (K.written sink.old) (K.faults sink.old))
        (line_at (S.left source.new) (S.faults source.new) (K.written sink.new) (K.faults sink.new)) }
    ensures source_counts { S.faults source.old ≤ S.faults source.new }
    ensures sink_counts { K.faults sink.old ≤ K.faults sink.new }
{
    let mut buffer = match vec![in alloc; 0u8; READ_LIMIT] {
        Ok(buffer) => buffer,
        Err(_) => return AssemblyEnd::Refused(AsmError::Memory),
    };
    match read_text(source, &mut buffer) {
        Ok(count) => match assemble(alloc, part, &buffer[..count]) {
            Ok(made) => put_image(&made, sink),
            Err(error) => AssemblyEnd::Refused(error),
        },
        Err(Failed) => AssemblyEnd::Read,
    }
}

/// Reads into the buffer up to the end of the source or of the buffer, and answers how many bytes were read.
fn read_text<S: Source>(source: &mut S, buffer: &mut [u8]) -> Result<usize, Failed>
    ensures fills { Fills (S.left source.old) (S.left source.new) (S.faults source.old) (S.faults source.new) buffer.new result }
    ensures size { length buffer.new ≡ length buffer.old }
    ensures counts { S.faults source.old ≤ S.faults source.new }
{
    let mut filled = 0;
    'reads: while filled < buffer.len() {
        match source.read(&mut buffer[filled..]) {
            Ok(0) => return Ok(filled),
            Ok(count) => filled += count,
            Err(Failed) => return Err(Failed),
        }
    }
    Ok(filled)
}

/// Puts the image of what was assembled, and tells how that ended.
fn put_image<K: Sink>(made: &Assembled, sink: &mut K) -> AssemblyEnd
    ensures ends { Puts result (K.written sink.old) (K.written sink.new) (K.faults sink.old) (K.faults sink.new) made.now }
    ensures faults { K.faults sink.old ≤ K.faults sink.new }
{
    let used = (made.used as usize).min(made.words.len());
    if put_words(&made.words[..used], sink) {
        return AssemblyEnd::Okay;
    }
    AssemblyEnd::Write
}

/// Puts words, the low byte of each first, and tells whether all were put. It takes no memory.
fn put_words<K: Sink>(words: &[u16], sink: &mut K) -> bool
    ensures writes { Writes result (K.written sink.old) (K.written sink.new) (K.faults sink.old) (K.faults sink.new) (bytes_of words.now) }
    ensures faults { K.faults sink.old ≤ K.faults sink.new }
{
    let mut rest = words;
    'pieces: while !rest.is_empty() {
        let (piece, more) = rest.split_at(rest.len().min(WORDS_AT_ONCE));
        let bytes = bytes_of(piece);
        if !write_some(bytes.as_slice(), sink) {
            return false;
        }
        rest = more;
    }
    true
}

/// The bytes of a piece, the low one of each word first.
fn bytes_of(piece: &[u16]) -> ArrayVec<u8, BYTES_AT_ONCE>
    requires { length piece.now ≤ WORDS_AT_ONCE }
    ensures { result.items ≡ bytes_of piece.now }
{
    let mut bytes = ArrayVec::new();
    'words: for word in piece {
        append(&mut bytes, &word.to_le_bytes());
    }
    bytes
}
