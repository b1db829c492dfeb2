//! A record is read from a source, at most 512 bytes at a time, up to its first line that has a verdict or to its end.
ghost use Rattle.std.specs.Prelude.{◌≡◌, ◌+◌, ◌≤◌, [], List, ℕ, Option, true, false};
ghost use Rattle.part_spec.specs.declared.part.Part.{Part};
ghost use Rattle.part_spec.specs.Chip.{chip_of};
ghost use Rattle.record_spec.specs.Fits.{beginning};
ghost use Rattle.ice_line.specs.Lines.{line_at};
ghost use Rattle.ice_verify.specs.Checking.{IsSound, StandsAt};
ghost use Rattle.record_check.specs.Endings.{IsChecked, IsFound, Puts};
ghost use Rattle.record_check.specs.Taking.{HasTaken, IsGoing};

use crate::answer::{Answer, answer_line};
use crate::checker::Checker;
use ice_base::{Sink, Source};
use ice_line::{CHUNK, Coming, INPUT_LIMIT, next_bytes, write_some};
use ice_verify::Verifier;

/// How the check of a record ended.
#[derive(Clone, Copy, Debug, PartialEq, Eq)]
pub enum CheckEnd {
    /// The record fits, and that was put.
    Okay,
    /// It does not, and that was put.
    Refuted,
    /// The source failed.
    Read,
    /// What was found could not be put, or not all of it.
    Write,
    /// The source has more bytes than are checked, 67,108,864.
    TooLong,
}

/// How the reading of a record ended.
#[derive(Clone, Copy, Debug, PartialEq, Eq)]
enum Found {
    /// This was found of it.
    Answered(Answer),
    /// The source failed.
    Read,
    /// The source has more bytes than are checked.
    TooLong,
}

/// Checks the record that the source gives, with a verifier that has taken no line, and puts one line: `yes` where it fits, else `bad`,
/// `long` or `no` and the number of the first line that is wrong or missing. It takes no memory.
///
/// What the last read brought behind that line, fewer than 512 bytes, is not looked at. Where the source fails or gives more than
/// 67,108,864 bytes nothing is put.
pub fn check_record<S: Source, K: Sink>(
    verifier: Verifier,
    source: &mut S,
    sink: &mut K,
) -> CheckEnd
    requires sound { IsSound verifier }
    requires fresh { verifier.judged ≡ false }
    ensures checked { (part : Part) (prog : List ℕ) → StandsAt part verifier (beginning (chip_of part) prog) →
        IsChecked result (chip_of part) prog
        (line_at (S.left source.old) (S.faults source.old) (K.written sink.old) (K.faults sink.old))
        (line_at (S.left source.new) (S.faults source.new) (K.written sink.new) (K.faults sink.new)) }
    ensures source_counts { S.faults source.old ≤ S.faults source.new }
    ensures sink_counts { K.faults sink.old ≤ K.faults sink.new }
{
    match read_record(Checker::of(verifier), source) {
        Found::Answered(answer) => put_answer(answer, sink),
        Found::Read => CheckEnd::Read,
        Found::TooLong => CheckEnd::TooLong,
    }
}

/// Reads a record, and tells what is found of it.
fn read_record<S: Source>(checker: Checker, source: &mut S) -> Found
    requires going { IsGoing checker }
    requires none { checker.lines ≡ 0 }
    ensures found { (part : Part) (prog : List ℕ) → HasTaken part prog [] checker →
        IsFound result (chip_of part) prog (S.left source.old) (S.left source.new) (S.faults source.old) (S.faults source.new) }
    ensures counts { S.faults source.old ≤ S.faults source.new }
{
    let mut checker = checker;
    let mut buffer = [0u8; CHUNK];
    let mut allowed = INPUT_LIMIT;
    'chunks: while allowed > 0 {
        let count = match next_bytes(source, &mut buffer, allowed.min(CHUNK)) {
            Coming::Bytes(count) => count,
            Coming::End => return Found::Answered(checker.answer_at_end()),
            Coming::Fault => return Found::Read,
        };
        allowed -= count;
        let (chunk, _) = buffer.split_at(count);
        match checker.take_chunk(chunk) {
            None => {}
            Some(verdict) => return Found::Answered(checker.fails(verdict)),
        }
    }
    match next_bytes(source, &mut buffer, 1) {
        Coming::Bytes(_) => Found::TooLong,
        Coming::End => Found::Answered(checker.answer_at_end()),
        Coming::Fault => Found::Read,
    }
}

/// Puts the line that says what was found, and tells how the check ended.
fn put_answer<K: Sink>(answer: Answer, sink: &mut K) -> CheckEnd
    ensures puts { Puts result answer (K.written sink.old) (K.written sink.new) (K.faults sink.old) (K.faults sink.new) }
    ensures faults { K.faults sink.old ≤ K.faults sink.new }
{
    let line = answer_line(answer);
    if !write_some(line.as_slice(), sink) {
        return CheckEnd::Write;
    }
    match answer {
        Answer::Fits => CheckEnd::Okay,
        Answer::Fails { .. } => CheckEnd::Refuted,
    }
}
