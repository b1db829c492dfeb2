//! The lines of a text.
ghost use Rattle.std.specs.Prelude.{◌≡◌};
ghost use Rattle.asm_spec.specs.Words.{lines_of, without_return};
ghost use Rattle.avr_asm.specs.Cuts.{Leaves, rest_told};

use crate::tokens::before;

/// A text cut behind its first line.
#[derive(Clone, Copy, Debug, PartialEq, Eq)]
pub(crate) struct Cut<'a> {
    /// The line without its end.
    pub line: &'a [u8],
    /// What stands behind its line feed, if it has one.
    pub rest: Option<&'a [u8]>,
}

/// Cuts a text behind its first line.
pub(crate) fn first_line(text: &[u8]) -> Cut<'_>
    ensures { Leaves text.now result.line.now (rest_told result.rest) }
{
    let end = before(text, b'\n');
    if end == text.len() {
        return Cut {
            line: text,
            rest: None,
        };
    }
    Cut {
        line: without_return(&text[..end]),
        rest: Some(&text[end + 1..]),
    }
}

/// A line without a carriage return at its end.
fn without_return(line: &[u8]) -> &[u8]
    ensures { result.now ≡ without_return line.now }
{
    match line {
        [] => line,
        [front @ .., last] => {
            if *last == b'\r' {
                return front;
            }
            line
        }
    }
}
