//! The assembly of a text.
ghost use Rattle.std.specs.Prelude.{◌≡◌, ◌≤◌, ◌++◌, codes, length};
ghost use Rattle.std.specs.Fmt.{decimal};
ghost use Rattle.part_spec.specs.Chip.{chip_of};
ghost use Rattle.ice_line.specs.Lines.{line_at};
ghost use Rattle.ice_top.specs.Assemblies.{TextAssembled, status_of};
ghost use Rattle.ice_top.specs.Notes.{fault_text, kind_text, line};
ghost use Rattle.ice_top.specs.Outside.{Noted, ends_at};

use crate::Status;
use crate::notes::{LINE, refused};
use arrayvec::ArrayVec;
use avr_asm::{AsmError, AsmKind, AssemblyEnd, assemble_source};
use ice_base::{Sink, Source};
use ice_text::{push_decimal, push_text};
use part_spec::Part;
use std::alloc::Global;

/// Assembles the text of the source, and notes what is wrong with it.
pub(crate) fn assemble_text<S: Source, K: Sink, E: Sink>(
    alloc: Global,
    part: Part,
    source: &mut S,
    sink: &mut K,
    notes: &mut E,
) -> Status
    ensures assembled { TextAssembled result (chip_of part)
        (ends_at (line_at (S.left source.old) (S.faults source.old) (K.written sink.old) (K.faults sink.old))
        (E.written notes.old) (E.faults notes.old))
        (ends_at (line_at (S.left source.new) (S.faults source.new) (K.written sink.new) (K.faults sink.new))
        (E.written notes.new) (E.faults notes.new)) }
    ensures source_counts { S.faults source.old ≤ S.faults source.new }
    ensures sink_counts { K.faults sink.old ≤ K.faults sink.new }
    ensures notes_counts { E.faults notes.old ≤ E.faults notes.new }
{
    match assemble_source(alloc, part, source, sink) {
        AssemblyEnd::Okay => Status::Okay,
        AssemblyEnd::Read => Status::Read,
        AssemblyEnd::Write => Status::Write,
        AssemblyEnd::Refused(error) => refuse(error, notes),
    }
}

/// Notes why a text is refused.
fn refuse<E: Sink>(error: AsmError, notes: &mut E) -> Status
    ensures status { result ≡ status_of error }
    ensures noted { Noted (E.written notes.old) (E.written notes.new) (E.faults notes.old) (E.faults notes.new)
        (line (fault_text error)) }
    ensures counts { E.faults notes.old ≤ E.faults notes.new }
{
    match error {
        AsmError::Large => refused(Status::Image, b"asm: large\n", notes),
        AsmError::At { line, kind } => {
            let line = fault_line(line, kind);
            refused(Status::Image, line.as_slice(), notes)
        }
        AsmError::Memory => refused(Status::Memory, b"memory\n", notes),
    }
}

/// The line for what is wrong with a line of a text; its number is in decimal.
fn fault_line(number: u32, kind: AsmKind) -> ArrayVec<u8, LINE>
    ensures { result.items ≡ line (codes "asm: line " ++ decimal number ++ codes " " ++ kind_text kind) }
{
    let mut line = ArrayVec::new();
    push_text(&mut line, b"asm: line ");
    push_decimal(&mut line, u64::from(number));
    push_text(&mut line, b" ");
    push_text(&mut line, name_of(kind));
    line.push(b'\n');
    line
}

/// The word for what is wrong with a line.
fn name_of(kind: AsmKind) -> &'static [u8]
    ensures word { result.now ≡ kind_text kind }
    ensures short { length result.now ≤ 7 }
{
    match kind {
        AsmKind::Text => b"text",
        AsmKind::Value => b"value",
        AsmKind::Twice => b"twice",
        AsmKind::Place => b"place",
        AsmKind::Overlap => b"overlap",
        AsmKind::Name => b"name",
        AsmKind::Far => b"far",
    }
}
