//! What a line of a text says.
ghost use Rattle.std.specs.Prelude.{◌≡◌};
ghost use Rattle.part_spec.specs.Chip.{chip_of};
ghost use Rattle.asm_spec.specs.Reading.{labelled, order_in, reading, without_comment};
ghost use Rattle.avr_asm.specs.Orders.{answer_told, capped_answer};
ghost use Rattle.avr_asm.specs.Readings.{capped_line, label_told, line_told};

use crate::orders::{Order, order_of};
use crate::statements::statement_of;
use crate::tokens::{before, behind_blanks, is_name, trimmed};
use asm_spec::AsmKind;
use part_spec::Part;

/// What a line says.
#[derive(Clone, Copy, Debug, PartialEq, Eq)]
pub(crate) struct Line<'a> {
    /// Its label, if it has one.
    pub label: Option<&'a [u8]>,
    /// Its statement.
    pub order: Order<'a>,
}

/// Reads a line without its end.
///
/// # Errors
///
/// It is no line of the grammar, or has a number outside of its field.
#[tactic(auto, unfolding(asm_spec::specs::Reading::reading))]
pub(crate) fn read_line(part: Part, line: &[u8]) -> Result<Line<'_>, AsmKind>
    ensures { line_told result ≡ capped_line (reading (chip_of part) line.now) }
{
    let said = without_comment(line);
    let colon = before(said, b':');
    if colon == said.len() {
        return labelled(None, order_in(part, trimmed(said)));
    }
    let name = behind_blanks(&said[..colon]);
    if !is_name(name) {
        return Err(AsmKind::Text);
    }
    labelled(Some(name), order_in(part, trimmed(&said[colon + 1..])))
}

/// A line without its comment.
fn without_comment(line: &[u8]) -> &[u8]
    ensures { result.now ≡ without_comment line.now }
{
    &line[..before(line, b';')]
}

/// A line with this label.
fn labelled<'a>(
    label: Option<&'a [u8]>,
    said: Result<Order<'a>, AsmKind>,
) -> Result<Line<'a>, AsmKind>
    ensures { line_told result ≡ labelled (label_told label.entry) (answer_told said.entry) }
{
    match said {
        Ok(order) => Ok(Line { label, order }),
        Err(kind) => Err(kind),
    }
}

/// What stands behind a label, or all of a line that has none.
fn order_in(part: Part, bytes: &[u8]) -> Result<Order<'_>, AsmKind>
    ensures { answer_told result ≡ capped_answer (order_in (chip_of part) bytes.now) }
{
    if bytes.is_empty() {
        return Ok(Order::Nothing);
    }
    order_of(part, &statement_of(bytes))
}
