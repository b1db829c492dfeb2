//! The words of a text.
ghost use Rattle.std.specs.Prelude.{◌≡◌, ◌≤◌, length};
ghost use Rattle.part_spec.specs.Chip.{chip_of};
ghost use Rattle.asm_spec.specs.Words.{Laid, laid_on, lines_of, settled, start};
ghost use Rattle.avr_asm.specs.Answers.{Answers, Gives, LaysOut, error_of};
ghost use Rattle.avr_asm.specs.Sheets.{Keeps};

use crate::cuts::first_line;
use crate::encodings::put_entries;
use crate::error::AsmError;
use crate::sheet::{Sheet, Stop, blank_sheet, lay_line};
use part_spec::Part;
use std::alloc::Global;

/// The most bytes of a text.
const LARGEST: usize = 1_048_576;

/// A word of erased flash.
const ERASED: u16 = 0xFFFF;

/// The words of a text.
#[derive(Debug, Drop)]
pub struct Assembled {
    /// The words of the part's flash, FFFF where the text gives none.
    pub words: Vec<u16>,
    /// One more than the highest place with a word, or 0.
    pub used: u32,
}

/// The words of a text for a part.
///
/// # Errors
///
/// `Large` for more than 1,048,576 bytes. `At` with the first line that is wrong by itself and what stands before it: `Text`, `Value`,
/// `Twice`, `Place` or `Overlap`; where no line is, the first with a `Name` that is no label, or one that is too `Far`.
/// `Memory` for want of memory alone.
pub fn assemble(alloc: Global, part: Part, text: &[u8]) -> Result<Assembled, AsmError>
    ensures { Answers (chip_of part) text.now result }
{
    if text.len() > LARGEST {
        return Err(AsmError::Large);
    }
    match lay_out(alloc, part, text) {
        Ok(sheet) => settled(alloc, part, &sheet),
        Err(error) => Err(error),
    }
}

/// Lays out the lines of a text.
fn lay_out<'a>(alloc: Global, part: Part, text: &'a [u8]) -> Result<Sheet<'a>, AsmError>
    requires { length text.now ≤ LARGEST }
    ensures { LaysOut (chip_of part) result (laid_on (chip_of part) 1 start (lines_of text.now)) }
{
    let mut sheet = match blank_sheet(alloc, part) {
        Ok(sheet) => sheet,
        Err(_) => return Err(AsmError::Memory),
    };
    let mut left = Some(text);
    let mut line: u32 = 1;
    'lines: while let Some(bytes) = left {
        let cut = first_line(bytes);
        match lay_line(part, line, cut.line, &mut sheet) {
            Ok(()) => {}
            Err(stop) => return Err(refused(line, stop)),
        }
        line += 1;
        left = cut.rest;
    }
    Ok(sheet)
}

/// Why a text is refused, by why a line of it is.
fn refused(line: u32, stop: Stop) -> AsmError
    ensures { result ≡ error_of line stop }
{
    match stop {
        Stop::Wrong(kind) => AsmError::At { line, kind },
        Stop::Memory => AsmError::Memory,
    }
}

/// The words of what lines have laid out.
fn settled(alloc: Global, part: Part, sheet: &Sheet<'_>) -> Result<Assembled, AsmError>
    requires { (laid : Laid) × Keeps (chip_of part) sheet.now laid }
    ensures { (laid : Laid) → Keeps (chip_of part) sheet.now laid → Gives result (settled (chip_of part) (Ok laid)) }
{
    let mut words = match vec![in alloc; ERASED; usize::from(part.words())] {
        Ok(words) => words,
        Err(_) => return Err(AsmError::Memory),
    };
    match put_entries(part, &sheet.labels, &sheet.entries, &mut words) {
        Ok(used) => Ok(Assembled {
            words,
            used: u32::from(used),
        }),
        Err(error) => Err(error),
    }
}
