//! The lines of a record, byte by byte.
ghost use Rattle.std.specs.Prelude.{◌≡◌, ◌+◌, ◌<◌, ◌≤◌, ◌++◌, [], ◌∷◌, false, None, List, ℕ, length};
ghost use Rattle.line_spec.specs.Frames.{IsBytes};
ghost use Rattle.part_spec.specs.declared.part.Part.{Part};
ghost use Rattle.part_spec.specs.Chip.{chip_of};
ghost use Rattle.record_spec.specs.Fits.{beginning};
ghost use Rattle.ice_verify.specs.Checking.{IsSound, StandsAt};
ghost use Rattle.record_check.specs.Answers.{AnswersAtEnd};
ghost use Rattle.record_check.specs.Taking.{HasTaken, IsGoing, Takes, TakesChunk};

use crate::answer::Answer;
use arrayvec::ArrayVec;
use ice_verify::{Verdict, Verifier};
use record_spec::limits::LINE_LIMIT;

/// The check of a record of which some bytes were taken, and no line has a verdict.
#[derive(Drop)]
pub(crate) struct Checker {
    verifier: Verifier,
    /// The front of the line that is open.
    held: ArrayVec<u8, LINE_LIMIT>,
    /// How many lines were taken.
    lines: u32,
}

impl Checker {
    /// A check that begins.
    pub(crate) fn of(verifier: Verifier) -> Checker
        requires sound { IsSound verifier }
        requires fresh { verifier.judged ≡ false }
        ensures taken { (part : Part) (prog : List ℕ) → StandsAt part verifier (beginning (chip_of part) prog) → HasTaken part prog [] result }
        ensures going { IsGoing result }
        ensures lines { result.lines ≡ 0 }
    {
        Checker {
            verifier,
            held: ArrayVec::new(),
            lines: 0,
        }
    }

    /// Takes the bytes of a chunk, up to the end of the first line that has a verdict.
    pub(crate) fn take_chunk(&mut self, chunk: &[u8]) -> Option<Verdict>
        requires going { IsGoing self.old }
        requires few { self.old.lines + length chunk.now < 4294967295 }
        ensures takes { (part : Part) (prog taken : List ℕ) → HasTaken part prog taken self.old →
            TakesChunk part prog taken chunk.now result self.new }
        ensures going { result ≡ None → IsGoing self.new }
        ensures few { self.new.lines ≤ self.old.lines + length chunk.now }
        ensures bytes { IsBytes chunk.now }
    {
        'bytes: for byte in chunk {
            match self.take_byte(*byte) {
                None => {}
                Some(verdict) => return Some(verdict),
            }
        }
        None
    }

    /// Takes a byte, and tells what is said of the line that it ends, or makes too long.
    fn take_byte(&mut self, byte: u8) -> Option<Verdict>
        requires going { IsGoing self.old }
        requires few { self.old.lines < 4294967295 }
        ensures takes { (part : Part) (prog taken : List ℕ) → HasTaken part prog taken self.old →
            Takes part prog (taken ++ byte ∷ []) result self.new }
        ensures going { result ≡ None → IsGoing self.new }
        ensures few { self.new.lines ≤ self.old.lines + 1 }
    {
        if byte == b'\n' {
            return self.take_line();
        }
        if self.held.len() == LINE_LIMIT {
            return Some(Verdict::Bad);
        }
        self.held.push(byte);
        None
    }

    /// Takes the end of the line that is open, and tells what is said of it.
    fn take_line(&mut self) -> Option<Verdict>
        requires going { IsGoing self.old }
        requires few { self.old.lines < 4294967295 }
        ensures takes { (part : Part) (prog taken : List ℕ) → HasTaken part prog taken self.old →
            Takes part prog (taken ++ 10 ∷ []) result self.new }
        ensures going { result ≡ None → IsGoing self.new }
        ensures few { self.new.lines ≤ self.old.lines + 1 }
    {
        match self.verifier.line(self.held.as_slice()) {
            None => {
                self.held.clear();
                self.lines += 1;
                None
            }
            Some(verdict) => Some(verdict),
        }
    }

    /// What is found where no byte comes any more: a line that is open is none, and a record is closed.
    pub(crate) fn answer_at_end(&self) -> Answer
        requires going { IsGoing self.now }
        requires few { self.now.lines < 4294967295 }
        ensures answers { (part : Part) (prog taken : List ℕ) → HasTaken part prog taken self.now →
            AnswersAtEnd (chip_of part) prog taken result }
    {
        if !self.held.is_empty() {
            return self.fails(Verdict::Bad);
        }
        if self.verifier.closed() {
            return Answer::Fits;
        }
        self.fails(Verdict::No)
    }

    /// What is found where this is said of the next line.
    pub(crate) fn fails(&self, verdict: Verdict) -> Answer
        requires few { self.now.lines < 4294967295 }
        ensures { result ≡ Answer.Fails verdict (self.now.lines + 1) }
    {
        Answer::Fails {
            verdict,
            number: self.lines + 1,
        }
    }
}
