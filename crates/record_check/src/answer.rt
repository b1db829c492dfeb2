//! What is found of a record, and the line that says it.
ghost use Rattle.std.specs.Prelude.{◌≡◌, ◌≤◌, length};
ghost use Rattle.record_check.specs.Answers.{answer_text, verdict_text};

use arrayvec::ArrayVec;
use ice_text::{push_decimal, push_text};
use ice_verify::Verdict;

/// The most bytes of the line: a word of at most four bytes, a blank, a number of at most 20 digits, and the line feed.
const ANSWER_LINE: usize = 32;

/// What is found of a record.
#[derive(Clone, Copy, Debug, PartialEq, Eq)]
pub enum Answer {
    /// It fits the program.
    Fits,
    /// It does not.
    Fails {
        /// What is said of the first line that is wrong or missing.
        verdict: Verdict,
        /// The number of that line, from 1 on.
        number: u32,
    },
}

/// The line that says what was found.
pub(crate) fn answer_line(answer: Answer) -> ArrayVec<u8, ANSWER_LINE>
    ensures { result.items ≡ answer_text answer }
{
    let mut line = ArrayVec::new();
    match answer {
        Answer::Fits => push_text(&mut line, b"yes"),
        Answer::Fails { verdict, number } => {
            push_text(&mut line, word_of(verdict));
            push_text(&mut line, b" ");
            push_decimal(&mut line, u64::from(number));
        }
    }
    push_text(&mut line, b"\n");
    line
}

/// The word for a verdict.
fn word_of(verdict: Verdict) -> &'static [u8]
    ensures word { result.now ≡ verdict_text verdict }
    ensures short { length result.now ≤ 4 }
{
    match verdict {
        Verdict::Bad => b"bad",
        Verdict::Long => b"long",
        Verdict::No => b"no",
    }
}
