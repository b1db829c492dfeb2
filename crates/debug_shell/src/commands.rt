//! The command of a line.
ghost use Rattle.std.specs.Prelude.{◌≡◌, ◌≤◌, length};
ghost use Rattle.line_spec.specs.Messages.{clear_break, set_break, set_parameter, write_memory};
ghost use Rattle.ice_msg.specs.Reading.{asked};
ghost use Rattle.shell_spec.specs.Sends.{bytes_of, dump_address};
ghost use Rattle.debug_shell.specs.Said.{IsWithin, said_by};
ghost use Rattle.debug_shell.specs.Steps.{Commands, IsSent, digits_in};

use crate::Line;
use arrayvec::ArrayVec;
use ice_msg::Command;

/// The most bytes of a line's digits: a page.
const PAGE_BYTES: usize = 128;

/// A breakpoint of the program or of a comparator.
const BREAKPOINT: u8 = 1;

/// The memory type of the flash's pages.
const PAGES: u8 = 0xB0;

/// The digits of a line, if it has any.
pub(crate) fn digits_in<'a>(line: &Line<'a>) -> &'a [u8]
    ensures digits { result.now ≡ digits_in (said_by line.now) }
    ensures limit { IsWithin line.now → length result.now ≤ 256 }
{
    match *line {
        Line::Set(_, digits) => digits,
        Line::Write(_, _, digits) => digits,
        Line::Page(_, digits) => digits,
        _ => &[],
    }
}

/// The bytes of digits, two for each.
pub(crate) fn bytes_of(digits: &[u8]) -> ArrayVec<u8, PAGE_BYTES>
    requires { length digits.now ≤ 256 }
    ensures bytes { result.items ≡ bytes_of digits.now }
    ensures limit { length result.items ≤ 128 }
{
    let mut bytes = ArrayVec::from([0; PAGE_BYTES]);
    bytes.truncate(digits.len() / 2);
    match hex::decode_to_slice(digits, bytes.as_mut_slice()) {
        Ok(()) => bytes,
        Err(_) => ArrayVec::new(),
    }
}

/// The command of a line, whose digits have these bytes.
pub(crate) fn command_of<'a>(line: Line<'_>, bytes: &'a [u8]) -> Option<Command<'a>>
    requires within { IsWithin line }
    requires bytes { bytes.now ≡ bytes_of (digits_in (said_by line)) }
    requires limit { length bytes.now ≤ 128 }
    ensures { Commands (said_by line.entry) result }
{
    match line {
        Line::Sign => Some(Command::GetSignOn),
        Line::Sync => Some(Command::GetSync),
        Line::Get(id) => Some(Command::GetParameter { id: id as u8 }),
        Line::Set(id, _) => Some(set_parameter(id, bytes)),
        Line::Read(kind, address, count) => Some(Command::ReadMemory {
            kind,
            count,
            address,
        }),
        Line::Write(kind, address, _) => Some(write_memory(kind, address, bytes)),
        Line::Pc => Some(Command::ReadPc),
        Line::PcTo(address) => Some(Command::WritePc(address)),
        Line::Break(address) => Some(set_break(0, address)),
        Line::BreakAt(address, number) => Some(set_break(number, address)),
        Line::Clear(address) => Some(clear_break(0, address)),
        Line::ClearAt(address, number) => Some(clear_break(number, address)),
        Line::Go => Some(Command::Go),
        Line::To(address) => Some(Command::RunTo(address)),
        Line::Step => Some(Command::SingleStep),
        Line::Stop => Some(Command::ForcedStop),
        Line::Reset => Some(Command::Reset),
        Line::Quit => Some(Command::SignOff),
        Line::Prog => Some(Command::EnterProg),
        Line::Leave => Some(Command::LeaveProg),
        Line::Erase => Some(Command::ChipErase),
        Line::EraseAt(address) => Some(Command::ErasePage(address)),
        Line::Page(address, _) => Some(write_memory(PAGES, address, bytes)),
        Line::Wait => None,
        Line::Nothing => None,
    }
}

/// A parameter is written.
fn set_parameter(id: u32, value: &[u8]) -> Command<'_>
    requires id { id ≤ 0xff }
    requires limit { length value.now ≤ 128 }
    ensures is { asked result ≡ set_parameter id value.now }
    ensures valid { IsSent result }
{
    Command::SetParameter {
        id: id as u8,
        value,
    }
}

/// Bytes are written to a memory.
fn write_memory(kind: u8, address: u32, bytes: &[u8]) -> Command<'_>
    requires { length bytes.now ≤ 128 }
    ensures is { asked result ≡ write_memory kind address bytes.now }
    ensures valid { IsSent result }
{
    Command::WriteMemory {
        kind,
        address,
        bytes,
    }
}

/// A breakpoint is set.
fn set_break<'a>(number: u32, address: u32) -> Command<'a>
    requires { number ≤ 0xff }
    ensures is { asked result ≡ set_break 1 number address }
    ensures valid { IsSent result }
{
    Command::SetBreak {
        kind: BREAKPOINT,
        number: number as u8,
        address,
    }
}

/// A breakpoint is cleared.
fn clear_break<'a>(number: u32, address: u32) -> Command<'a>
    requires { number ≤ 0xff }
    ensures is { asked result ≡ clear_break number address }
    ensures valid { IsSent result }
{
    Command::ClrBreak {
        number: number as u8,
        address,
    }
}

/// The address at which a dump of the line's answer begins.
pub(crate) fn dump_address(line: &Line<'_>) -> u32
    ensures { result ≡ dump_address (said_by line.now) }
{
    match *line {
        Line::Read(_, address, _) => address,
        _ => 0,
    }
}
