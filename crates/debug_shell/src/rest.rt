//! The words of a line that are still to be read.
ghost use Rattle.std.specs.Prelude.{◌≡◌, ◌+◌, ◌<◌, ◌≤◌, ◌↔◌, [], length, IsTrue, IfOk, IfSome, position};
ghost use Rattle.std.specs.List.{position_or_len};
ghost use Rattle.shell_spec.specs.Operands.{digits_of, number_of, space_of};
ghost use Rattle.shell_spec.specs.Reading.{no_more, operand};
ghost use Rattle.shell_spec.specs.Words.{is_blank, words_from, words_of};
ghost use Rattle.debug_shell.specs.Rests.{BeginsWord, NeedsWord, Takes, TakesDigits, TakesWord, end_in, words_in};
ghost use Rattle.debug_shell.specs.Said.{IsWithin, Says, said_by};

use crate::Line;
use crate::operands::{are_digits, number_of, space_of};
use shell_spec::{LineError, Space};

/// A word, and its column.
#[derive(Clone, Copy, Debug, PartialEq, Eq)]
pub(crate) struct Word<'a> {
    pub column: u16,
    pub bytes: &'a [u8],
}

/// The bytes that are left of a line, and the column of the first of them.
#[derive(Clone, Copy, Debug, PartialEq, Eq)]
pub(crate) struct Rest<'a> {
    column: u16,
    bytes: &'a [u8],
}

impl<'a> Rest<'a> {
    /// A whole line.
    pub fn of(line: &'a [u8]) -> Rest<'a>
        ensures words { words_in result ≡ words_of line.now }
        ensures end { end_in result ≡ length line.now + 1 }
    {
        Rest {
            column: 1,
            bytes: line,
        }
    }

    /// The next word, if there is one.
    pub fn next(&mut self) -> Option<Word<'a>>
        requires { end_in self.old ≤ 321 }
        ensures takes { TakesWord self.old result self.new }
        ensures end { end_in self.new ≡ end_in self.old }
    {
        self.skip_blanks();
        if self.bytes.is_empty() {
            return None;
        }
        let (bytes, behind) = self.bytes.split_at(first_blank(self.bytes));
        let word = Word {
            column: self.column,
            bytes,
        };
        self.column += bytes.len() as u16;
        self.bytes = behind;
        Some(word)
    }

    /// Passes over the blanks ahead of the next word.
    fn skip_blanks(&mut self)
        requires { end_in self.old ≤ 321 }
        ensures words { words_in self.new ≡ words_in self.old }
        ensures end { end_in self.new ≡ end_in self.old }
        ensures ahead { BeginsWord self.new.bytes.now }
    {
        'blanks: while let [first, behind @ ..] = self.bytes {
            if !is_blank(*first) {
                return;
            }
            self.column += 1;
            self.bytes = behind;
        }
    }

    /// Whether no word is left.
    pub fn is_done(&mut self) -> bool
        requires { end_in self.old ≤ 321 }
        ensures done { IsTrue result ↔ (words_in self.old ≡ []) }
        ensures words { words_in self.new ≡ words_in self.old }
        ensures end { end_in self.new ≡ end_in self.old }
    {
        self.skip_blanks();
        self.bytes.is_empty()
    }

    /// The line, where no word is left.
    pub fn done(mut self, line: Line<'a>) -> Result<Line<'a>, LineError>
        requires { end_in self ≤ 321 }
        ensures says { Says result (no_more (said_by line.entry) (words_in self.entry)) }
        ensures within { IsWithin line.entry → IfOk result IsWithin }
    {
        match self.next() {
            Some(word) => Err(LineError::Extra(word.column)),
            None => Ok(line),
        }
    }

    /// The next word, which must be there.
    fn word(&mut self) -> Result<Word<'a>, LineError>
        requires { end_in self.old ≤ 321 }
        ensures needs { NeedsWord self.old result self.new }
        ensures end { end_in self.new ≡ end_in self.old }
    {
        match self.next() {
            Some(word) => Ok(word),
            None => Err(LineError::Missing(self.column + self.bytes.len() as u16)),
        }
    }

    /// A number of at most so much.
    pub fn number(&mut self, most: u32) -> Result<u32, LineError>
        requires { end_in self.old ≤ 321 }
        ensures takes { Takes (operand (end_in self.old) (number_of most) (words_in self.old)) result self.new }
        ensures end { end_in self.new ≡ end_in self.old }
        ensures limit { IfOk result (λ number. number ≤ most) }
    {
        let word = match self.word() {
            Ok(word) => word,
            Err(error) => return Err(error),
        };
        match number_of(word.bytes, most) {
            Some(number) => Ok(number),
            None => Err(LineError::Value(word.column)),
        }
    }

    /// One of these memories.
    pub fn space(&mut self, spaces: &[Space]) -> Result<Space, LineError>
        requires { end_in self.old ≤ 321 }
        ensures takes { Takes (operand (end_in self.old) (space_of spaces.now) (words_in self.old)) result self.new }
        ensures end { end_in self.new ≡ end_in self.old }
    {
        let word = match self.word() {
            Ok(word) => word,
            Err(error) => return Err(error),
        };
        match space_of(spaces, word.bytes) {
            Some(space) => Ok(space),
            None => Err(LineError::Value(word.column)),
        }
    }

    /// The digits of bytes, at least and at most so many.
    pub fn digits(&mut self, least: usize, most: usize) -> Result<&'a [u8], LineError>
        requires { end_in self.old ≤ 321 }
        ensures takes { TakesDigits (operand (end_in self.old) (digits_of least most) (words_in self.old)) result self.new }
        ensures end { end_in self.new ≡ end_in self.old }
        ensures limit { IfOk result (λ digits. length digits.now ≤ most) }
    {
        let word = match self.word() {
            Ok(word) => word,
            Err(error) => return Err(error),
        };
        if are_digits(word.bytes, least, most) {
            Ok(word.bytes)
        } else {
            Err(LineError::Value(word.column))
        }
    }
}

/// Whether the byte is a space or a tab.
fn is_blank(byte: u8) -> bool
    ensures { result ≡ is_blank byte }
{
    byte == b' ' || byte == b'\t'
}

/// Where the first blank stands, or else the end.
fn first_blank(bytes: &[u8]) -> usize
    ensures at { result ≡ position_or_len is_blank bytes.now }
    ensures within { result ≤ length bytes.now }
{
    match blank_in(bytes) {
        Some(end) => end,
        None => bytes.len(),
    }
}

/// Where the first blank stands, if there is one.
fn blank_in(bytes: &[u8]) -> Option<usize>
    ensures at { result ≡ position is_blank bytes.now }
    ensures within { IfSome result (λ end. end < length bytes.now) }
{
    bytes.iter().position(|byte| is_blank(*byte))
}
