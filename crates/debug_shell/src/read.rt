//! Lines are read.
ghost use Rattle.std.specs.Prelude.{◌≡◌, ◌≤◌, ◌+◌, ◌*◌, length, IfOk};
ghost use Rattle.shell_spec.specs.Table.{form_of};
ghost use Rattle.shell_spec.specs.Words.{without_end};
ghost use Rattle.shell_spec.specs.Reading.{is_remark, line_limit, read_bare, read_form, reading};
ghost use Rattle.debug_shell.specs.Rests.{end_in, words_in};
ghost use Rattle.debug_shell.specs.Said.{IsWithin, Says};

use crate::Line;
use crate::operands::{READABLE, WRITABLE, kind_of, verb_of};
use crate::rest::Rest;
use shell_spec::{LineError, Verb};

/// The most bytes of a line, without its end.
const LINE_LIMIT: usize = 320;

/// The greatest parameter, and the greatest number of a comparator.
const BYTE: u32 = 0xFF;

/// The most bytes that a line asks for.
const COUNT: u32 = 0x1000;

/// Reads a line, with or without its end: a line feed, with or without a carriage return before it. Blanks are spaces and tabs.
///
/// # Errors
///
/// What is wrong with the line at its first wrong place, with the column of the byte in question, from 1.
pub fn read_line(line: &[u8]) -> Result<Line<'_>, LineError>
    ensures says { Says result (reading line.now) }
    ensures within { IfOk result IsWithin }
{
    read_bare(without_end(line))
}

/// The line without its end.
fn without_end(line: &[u8]) -> &[u8]
    ensures { result.now ≡ without_end line.now }
{
    if line.ends_with(b"\r\n") {
        &line[..line.len() - 2]
    } else if line.ends_with(b"\n") {
        &line[..line.len() - 1]
    } else {
        line
    }
}

/// Reads a line without its end.
fn read_bare(line: &[u8]) -> Result<Line<'_>, LineError>
    ensures says { Says result (read_bare line.now) }
    ensures within { IfOk result IsWithin }
{
    if line.len() > LINE_LIMIT {
        return Err(LineError::Long);
    }
    let mut rest = Rest::of(line);
    let Some(first) = rest.next() else {
        return Ok(Line::Nothing);
    };
    if is_remark(first.bytes) {
        return Ok(Line::Nothing);
    }
    match verb_of(first.bytes) {
        Some(verb) => read_operands(verb, rest),
        None => Err(LineError::Unknown(first.column)),
    }
}

/// Whether the word begins a line that does nothing.
fn is_remark(word: &[u8]) -> bool
    ensures { result ≡ is_remark word.now }
{
    match word {
        [first, ..] => *first == b'#',
        [] => false,
    }
}

/// Reads the words behind the first one.
fn read_operands(verb: Verb, rest: Rest<'_>) -> Result<Line<'_>, LineError>
    requires { end_in rest ≤ 321 }
    ensures says { Says result (read_form (end_in rest.entry) (form_of verb) (words_in rest.entry)) }
    ensures within { IfOk result IsWithin }
{
    match verb {
        Verb::Sign => rest.done(Line::Sign),
        Verb::Sync => rest.done(Line::Sync),
        Verb::Get => read_get(rest),
        Verb::Set => read_set(rest),
        Verb::Read => read_read(rest),
        Verb::Write => read_write(rest),
        Verb::Pc => read_pc(rest),
        Verb::Break => read_break(rest),
        Verb::Clear => read_clear(rest),
        Verb::Go => rest.done(Line::Go),
        Verb::To => read_to(rest),
        Verb::Step => rest.done(Line::Step),
        Verb::Stop => rest.done(Line::Stop),
        Verb::Reset => rest.done(Line::Reset),
        Verb::Wait => rest.done(Line::Wait),
        Verb::Quit => rest.done(Line::Quit),
        Verb::Prog => rest.done(Line::Prog),
        Verb::Leave => rest.done(Line::Leave),
        Verb::Erase => read_erase(rest),
        Verb::Page => read_page(rest),
    }
}

/// Reads `ID`.
fn read_get(mut rest: Rest<'_>) -> Result<Line<'_>, LineError>
    requires { end_in rest ≤ 321 }
    ensures says { Says result (read_form (end_in rest.entry) (form_of Verb.Get) (words_in rest.entry)) }
    ensures within { IfOk result IsWithin }
{
    let id = rest.number(BYTE)?;
    rest.done(Line::Get(id))
}

/// Reads `ID HEX`.
fn read_set(mut rest: Rest<'_>) -> Result<Line<'_>, LineError>
    requires { end_in rest ≤ 321 }
    ensures says { Says result (read_form (end_in rest.entry) (form_of Verb.Set) (words_in rest.entry)) }
    ensures within { IfOk result IsWithin }
{
    let id = rest.number(BYTE)?;
    let value = rest.digits(2, 128)?;
    rest.done(Line::Set(id, value))
}

/// Reads `SPACE ADDRESS COUNT`.
fn read_read(mut rest: Rest<'_>) -> Result<Line<'_>, LineError>
    requires { end_in rest ≤ 321 }
    ensures says { Says result (read_form (end_in rest.entry) (form_of Verb.Read) (words_in rest.entry)) }
    ensures within { IfOk result IsWithin }
{
    let space = rest.space(&READABLE)?;
    let address = rest.number(u32::MAX)?;
    let count = rest.number(COUNT)?;
    rest.done(Line::Read(kind_of(space), address, count))
}

/// Reads `SPACE ADDRESS HEX`.
fn read_write(mut rest: Rest<'_>) -> Result<Line<'_>, LineError>
    requires { end_in rest ≤ 321 }
    ensures says { Says result (read_form (end_in rest.entry) (form_of Verb.Write) (words_in rest.entry)) }
    ensures within { IfOk result IsWithin }
{
    let space = rest.space(&WRITABLE)?;
    let address = rest.number(u32::MAX)?;
    let bytes = rest.digits(2, 128)?;
    rest.done(Line::Write(kind_of(space), address, bytes))
}

/// Reads nothing, or `ADDRESS`.
fn read_pc(mut rest: Rest<'_>) -> Result<Line<'_>, LineError>
    requires { end_in rest ≤ 321 }
    ensures says { Says result (read_form (end_in rest.entry) (form_of Verb.Pc) (words_in rest.entry)) }
    ensures within { IfOk result IsWithin }
{
    if rest.is_done() {
        return Ok(Line::Pc);
    }
    let address = rest.number(u32::MAX)?;
    rest.done(Line::PcTo(address))
}

/// Reads `ADDRESS`, or `ADDRESS NUMBER`.
fn read_break(mut rest: Rest<'_>) -> Result<Line<'_>, LineError>
    requires { end_in rest ≤ 321 }
    ensures says { Says result (read_form (end_in rest.entry) (form_of Verb.Break) (words_in rest.entry)) }
    ensures within { IfOk result IsWithin }
{
    let address = rest.number(u32::MAX)?;
    if rest.is_done() {
        return Ok(Line::Break(address));
    }
    let number = rest.number(BYTE)?;
    rest.done(Line::BreakAt(address, number))
}

/// Reads `ADDRESS`, or `ADDRESS NUMBER`.
fn read_clear(mut rest: Rest<'_>) -> Result<Line<'_>, LineError>
    requires { end_in rest ≤ 321 }
    ensures says { Says result (read_form (end_in rest.entry) (form_of Verb.Clear) (words_in rest.entry)) }
    ensures within { IfOk result IsWithin }
{
    let address = rest.number(u32::MAX)?;
    if rest.is_done() {
        return Ok(Line::Clear(address));
    }
    let number = rest.number(BYTE)?;
    rest.done(Line::ClearAt(address, number))
}

/// Reads `ADDRESS`.
fn read_to(mut rest: Rest<'_>) -> Result<Line<'_>, LineError>
    requires { end_in rest ≤ 321 }
    ensures says { Says result (read_form (end_in rest.entry) (form_of Verb.To) (words_in rest.entry)) }
    ensures within { IfOk result IsWithin }
{
    let address = rest.number(u32::MAX)?;
    rest.done(Line::To(address))
}

/// Reads nothing, or `ADDRESS`.
fn read_erase(mut rest: Rest<'_>) -> Result<Line<'_>, LineError>
    requires { end_in rest ≤ 321 }
    ensures says { Says result (read_form (end_in rest.entry) (form_of Verb.Erase) (words_in rest.entry)) }
    ensures within { IfOk result IsWithin }
{
    if rest.is_done() {
        return Ok(Line::Erase);
    }
    let address = rest.number(u32::MAX)?;
    rest.done(Line::EraseAt(address))
}

/// Reads `ADDRESS HEX`.
fn read_page(mut rest: Rest<'_>) -> Result<Line<'_>, LineError>
    requires { end_in rest ≤ 321 }
    ensures says { Says result (read_form (end_in rest.entry) (form_of Verb.Page) (words_in rest.entry)) }
    ensures within { IfOk result IsWithin }
{
    let address = rest.number(u32::MAX)?;
    let bytes = rest.digits(256, 256)?;
    rest.done(Line::Page(address, bytes))
}
