//! What the host may ask (AVR067, 'Commands').
ghost use Rattle.std.specs.Prelude.{◌≡◌, ◌+◌, ◌≤◌, [], ◌∷◌, ◌++◌, length};
ghost use Rattle.std.specs.Int.{w32, to_le_bytes};
ghost use Rattle.arrayvec.specs.ArrayVec.{array_vec_len};
ghost use Rattle.line_spec.specs.Messages.{IsCommand, command_body, command_code, ignored_written};
ghost use Rattle.ice_msg.specs.Readers.{IsBare, IsFlagged};
ghost use Rattle.ice_msg.specs.Reading.{asked, ReadsCommand};

use crate::Bad;
use arrayvec::ArrayVec;
use ice_frame::append;
use line_spec::code;
use line_spec::limits::BODY_LIMIT;

/// The most bytes that a parameter's value has: with the code and the number, they fill a body.
const VALUE_LIMIT: usize = BODY_LIMIT - 2;

/// The most bytes that a device descriptor has.
const DESCRIPTOR_LIMIT: usize = BODY_LIMIT - 1;

/// A command of the host. Addresses of memory are byte addresses, all others word addresses.
#[derive(Clone, Copy, Debug, PartialEq, Eq)]
pub enum Command<'a> {
    /// The session ends.
    SignOff,
    /// Asks for the versions and the name of the tool.
    GetSignOn,
    /// Writes a parameter of the tool.
    SetParameter {
        /// The parameter's number.
        id: u8,
        /// Its bytes, at most 4,104.
        value: &'a [u8],
    },
    /// Asks for a parameter of the tool.
    GetParameter {
        /// The parameter's number.
        id: u8,
    },
    /// Writes bytes to a memory, from `address` on.
    WriteMemory {
        /// The memory's type.
        kind: u8,
        /// The first byte address.
        address: u32,
        /// The bytes.
        bytes: &'a [u8],
    },
    /// Asks for `count` bytes of a memory, from `address` on.
    ReadMemory {
        /// The memory's type.
        kind: u8,
        /// How many bytes.
        count: u32,
        /// The first byte address.
        address: u32,
    },
    /// Sets the program counter.
    WritePc(u32),
    /// Asks for the program counter.
    ReadPc,
    /// Lets the target run.
    Go,
    /// Lets the target make one step.
    SingleStep,
    /// Stops the running target.
    ForcedStop,
    /// Resets the target.
    Reset,
    /// Describes the target to the tool, in at most 4,105 bytes.
    SetDeviceDescriptor(&'a [u8]),
    /// Erases the page of flash that has this byte address.
    ErasePage(u32),
    /// Asks whether the tool is there.
    GetSync,
    /// Sets a breakpoint.
    SetBreak {
        /// The breakpoint's type.
        kind: u8,
        /// 0 for a breakpoint in the program, else the comparator's number.
        number: u8,
        /// Where the target stops.
        address: u32,
    },
    /// Erases the whole flash.
    ChipErase,
    /// Begins to program the flash.
    EnterProg,
    /// Ends the programming of the flash.
    LeaveProg,
    /// Clears a breakpoint.
    ClrBreak {
        /// 0 for a breakpoint in the program, else the comparator's number.
        number: u8,
        /// Where it is set.
        address: u32,
    },
    /// Lets the target run up to an address.
    RunTo(u32),
    /// Forgets the events that wait.
    ClearEvents,
}

/// The command of a body, or what is wrong with the body.
pub fn read_command(body: &[u8]) -> Result<Command<'_>, Bad>
    ensures { ReadsCommand body.now result }
{
    let [first, rest @ ..] = body else {
        return Err(Bad::Code);
    };
    match *first {
        code::SIGN_OFF => read_bare(Command::SignOff, rest),
        code::GET_SIGN_ON => read_bare(Command::GetSignOn, rest),
        code::SET_PARAMETER => read_set_parameter(rest),
        code::GET_PARAMETER => read_get_parameter(rest),
        code::WRITE_MEMORY => read_write_memory(rest),
        code::READ_MEMORY => read_memory(rest),
        code::WRITE_PC => read_write_pc(rest),
        code::READ_PC => read_bare(Command::ReadPc, rest),
        code::GO => read_bare(Command::Go, rest),
        code::SINGLE_STEP => read_single_step(rest),
        code::FORCED_STOP => read_flagged(Command::ForcedStop, rest),
        code::RESET => read_flagged(Command::Reset, rest),
        code::SET_DEVICE_DESCRIPTOR => read_set_device_descriptor(rest),
        code::ERASEPAGE_SPM => read_erase_page(rest),
        code::GET_SYNC => read_bare(Command::GetSync, rest),
        code::SET_BREAK => read_set_break(rest),
        code::CHIP_ERASE => read_bare(Command::ChipErase, rest),
        code::ENTER_PROGMODE => read_bare(Command::EnterProg, rest),
        code::LEAVE_PROGMODE => read_bare(Command::LeaveProg, rest),
        code::CLR_BREAK => read_clear_break(rest),
        code::RUN_TO_ADDR => read_run_to(rest),
        code::CLEAR_EVENTS => read_bare(Command::ClearEvents, rest),
        _ => Err(Bad::Code),
    }
}

/// The command, if nothing stands behind its code.
fn read_bare<'a>(command: Command<'a>, rest: &[u8]) -> Result<Command<'a>, Bad>
    requires { IsBare (asked command) }
    ensures { ReadsCommand (command_code (asked command.entry) ∷ rest.now) result }
{
    if rest.is_empty() {
        Ok(command)
    } else {
        Err(Bad::Length)
    }
}

/// The command, if nothing or one byte of flags, which are ignored, stands behind its code.
fn read_flagged<'a>(command: Command<'a>, rest: &[u8]) -> Result<Command<'a>, Bad>
    requires { IsFlagged (asked command) }
    ensures { ReadsCommand (command_code (asked command.entry) ∷ rest.now) result }
{
    if rest.len() <= 1 {
        Ok(command)
    } else {
        Err(Bad::Length)
    }
}

/// SINGLE_STEP, if nothing or two bytes of flags, which are ignored, stand behind its code.
fn read_single_step(rest: &[u8]) -> Result<Command<'_>, Bad>
    ensures { ReadsCommand (0x09 ∷ rest.now) result }
{
    if rest.is_empty() || rest.len() == 2 {
        Ok(Command::SingleStep)
    } else {
        Err(Bad::Length)
    }
}

/// SET_PARAMETER of what stands behind its code: the number, and the value.
fn read_set_parameter(rest: &[u8]) -> Result<Command<'_>, Bad>
    ensures { ReadsCommand (0x02 ∷ rest.now) result }
{
    let [id, value @ ..] = rest else {
        return Err(Bad::Length);
    };
    if value.len() <= VALUE_LIMIT {
        Ok(Command::SetParameter { id: *id, value })
    } else {
        Err(Bad::Length)
    }
}

/// GET_PARAMETER of what stands behind its code.
fn read_get_parameter(rest: &[u8]) -> Result<Command<'_>, Bad>
    ensures { ReadsCommand (0x03 ∷ rest.now) result }
{
    let [id] = rest else {
        return Err(Bad::Length);
    };
    Ok(Command::GetParameter { id: *id })
}

/// WRITE_MEMORY of what stands behind its code: as many bytes as it says.
fn read_write_memory(rest: &[u8]) -> Result<Command<'_>, Bad>
    ensures { ReadsCommand (0x04 ∷ rest.now) result }
{
    let [kind, c0, c1, c2, c3, a0, a1, a2, a3, bytes @ ..] = rest else {
        return Err(Bad::Length);
    };
    let count = u32::from_le_bytes([*c0, *c1, *c2, *c3]);
    if count as usize != bytes.len() {
        return Err(Bad::Length);
    }
    Ok(Command::WriteMemory {
        kind: *kind,
        address: u32::from_le_bytes([*a0, *a1, *a2, *a3]),
        bytes,
    })
}

/// READ_MEMORY of what stands behind its code.
fn read_memory(rest: &[u8]) -> Result<Command<'_>, Bad>
    ensures { ReadsCommand (0x05 ∷ rest.now) result }
{
    let [kind, c0, c1, c2, c3, a0, a1, a2, a3] = rest else {
        return Err(Bad::Length);
    };
    Ok(Command::ReadMemory {
        kind: *kind,
        count: u32::from_le_bytes([*c0, *c1, *c2, *c3]),
        address: u32::from_le_bytes([*a0, *a1, *a2, *a3]),
    })
}

/// WRITE_PC of what stands behind its code.
fn read_write_pc(rest: &[u8]) -> Result<Command<'_>, Bad>
    ensures { ReadsCommand (0x06 ∷ rest.now) result }
{
    let [a0, a1, a2, a3] = rest else {
        return Err(Bad::Length);
    };
    Ok(Command::WritePc(u32::from_le_bytes([*a0, *a1, *a2, *a3])))
}

/// SET_DEVICE_DESCRIPTOR of what stands behind its code, up to what fits a body.
fn read_set_device_descriptor(rest: &[u8]) -> Result<Command<'_>, Bad>
    ensures { ReadsCommand (0x0C ∷ rest.now) result }
{
    if rest.len() <= DESCRIPTOR_LIMIT {
        Ok(Command::SetDeviceDescriptor(rest))
    } else {
        Err(Bad::Length)
    }
}

/// ERASEPAGE_SPM of what stands behind its code.
fn read_erase_page(rest: &[u8]) -> Result<Command<'_>, Bad>
    ensures { ReadsCommand (0x0D ∷ rest.now) result }
{
    let [a0, a1, a2, a3] = rest else {
        return Err(Bad::Length);
    };
    Ok(Command::ErasePage(u32::from_le_bytes([*a0, *a1, *a2, *a3])))
}

/// SET_BREAK of what stands behind its code; the mode behind the address is ignored.
fn read_set_break(rest: &[u8]) -> Result<Command<'_>, Bad>
    ensures { ReadsCommand (0x11 ∷ rest.now) result }
{
    let [kind, number, a0, a1, a2, a3, _mode] = rest else {
        return Err(Bad::Length);
    };
    Ok(Command::SetBreak {
        kind: *kind,
        number: *number,
        address: u32::from_le_bytes([*a0, *a1, *a2, *a3]),
    })
}

/// CLR_BREAK of what stands behind its code.
fn read_clear_break(rest: &[u8]) -> Result<Command<'_>, Bad>
    ensures { ReadsCommand (0x1A ∷ rest.now) result }
{
    let [number, a0, a1, a2, a3] = rest else {
        return Err(Bad::Length);
    };
    Ok(Command::ClrBreak {
        number: *number,
        address: u32::from_le_bytes([*a0, *a1, *a2, *a3]),
    })
}

/// RUN_TO_ADDR of what stands behind its code.
fn read_run_to(rest: &[u8]) -> Result<Command<'_>, Bad>
    ensures { ReadsCommand (0x1C ∷ rest.now) result }
{
    let [a0, a1, a2, a3] = rest else {
        return Err(Bad::Length);
    };
    Ok(Command::RunTo(u32::from_le_bytes([*a0, *a1, *a2, *a3])))
}

/// Leaves the body of the command in `out`, which is empty before. Its ignored bytes are 01 behind FORCED_STOP and RESET and
/// 00 behind SET_BREAK.
///
/// The bytes of WRITE_MEMORY are at most 4,096, and every other command is within what its fields can hold.
pub fn write_command(command: &Command<'_>, out: &mut ArrayVec<u8, BODY_LIMIT>)
    requires empty { out.old.items ≡ [] }
    requires within { IsCommand (asked command.now) }
    requires fits { length (command_body (asked command.now) (ignored_written (asked command.now))) ≤ BODY_LIMIT }
    ensures { out.new.items ≡ command_body (asked command.now) (ignored_written (asked command.now)) }
{
    match command {
        Command::SignOff => out.push(code::SIGN_OFF),
        Command::GetSignOn => out.push(code::GET_SIGN_ON),
        Command::SetParameter { id, value } => {
            out.push(code::SET_PARAMETER);
            out.push(*id);
            append(out, value);
        }
        Command::GetParameter { id } => {
            out.push(code::GET_PARAMETER);
            out.push(*id);
        }
        Command::WriteMemory {
            kind,
            address,
            bytes,
        } => {
            out.push(code::WRITE_MEMORY);
            write_range(*kind, bytes.len() as u32, *address, out);
            append(out, bytes);
        }
        Command::ReadMemory {
            kind,
            count,
            address,
        } => {
            out.push(code::READ_MEMORY);
            write_range(*kind, *count, *address, out);
        }
        Command::WritePc(address) => {
            out.push(code::WRITE_PC);
            append(out, &address.to_le_bytes());
        }
        Command::ReadPc => out.push(code::READ_PC),
        Command::Go => out.push(code::GO),
        Command::SingleStep => out.push(code::SINGLE_STEP),
        Command::ForcedStop => append(out, &[code::FORCED_STOP, 0x01]),
        Command::Reset => append(out, &[code::RESET, 0x01]),
        Command::SetDeviceDescriptor(bytes) => {
            out.push(code::SET_DEVICE_DESCRIPTOR);
            append(out, bytes);
        }
        Command::ErasePage(address) => {
            out.push(code::ERASEPAGE_SPM);
            append(out, &address.to_le_bytes());
        }
        Command::GetSync => out.push(code::GET_SYNC),
        Command::SetBreak {
            kind,
            number,
            address,
        } => {
            append(out, &[code::SET_BREAK, *kind, *number]);
            append(out, &address.to_le_bytes());
            out.push(0x00);
        }
        Command::ChipErase => out.push(code::CHIP_ERASE),
        Command::EnterProg => out.push(code::ENTER_PROGMODE),
        Command::LeaveProg => out.push(code::LEAVE_PROGMODE),
        Command::ClrBreak { number, address } => {
            append(out, &[code::CLR_BREAK, *number]);
            append(out, &address.to_le_bytes());
        }
        Command::RunTo(address) => {
            out.push(code::RUN_TO_ADDR);
            append(out, &address.to_le_bytes());
        }
        Command::ClearEvents => out.push(code::CLEAR_EVENTS),
    }
}

/// Puts a memory's type, a count and an address behind the bytes of `out`.
fn write_range(kind: u8, count: u32, address: u32, out: &mut ArrayVec<u8, BODY_LIMIT>)
    requires { array_vec_len out.old + 9 ≤ BODY_LIMIT }
    ensures { out.new.items ≡ out.old.items ++ (kind ∷ to_le_bytes w32 count ++ to_le_bytes w32 address) }
{
    out.push(kind);
    append(out, &count.to_le_bytes());
    append(out, &address.to_le_bytes());
}
