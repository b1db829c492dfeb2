//! What the debugger answers: a code that is not known is refused first, then a wrong length, then a command that the mode does not
//! allow, and then what the command itself refuses, in order.
ghost use Rattle.std.specs.Prelude.{◌≡◌, ℕ, List, Option, [], true};
ghost use Rattle.avr_spec.specs.Kept.{Kept};
ghost use Rattle.line_spec.specs.Messages.{get_sign_on, set_parameter, get_parameter, read_pc, reset};
ghost use Rattle.ice_msg.specs.Reading.{asked};
ghost use Rattle.debug_spec.specs.Debugger as debugger;
ghost use Rattle.debug_spec.specs.Commands as book;
ghost use Rattle.ice_answer.specs.Values.{mode_of};
ghost use Rattle.ice_answer.specs.Kept.{ToolState};
ghost use Rattle.ice_answer.specs.Does.{Does, DoesBeside, at};

use crate::cause::Cause;
use crate::mode::Mode;
use crate::reply::{Out, okay, refuse, reply, tell};
use crate::tool::Tool;
use avr_core::Core;
use ice_msg::{Command, Refusal, Response, SignOn};
use line_spec::limits::{OWN_HEAD, OWN_NAME};

/// The modes in which a command is allowed: while the target is stopped, while a run is out, while the flash is programmed.
#[derive(Clone, Copy, Debug, PartialEq, Eq)]
struct InModes {
    while_stopped: bool,
    while_running: bool,
    while_programming: bool,
}

/// In every mode.
const EVERYWHERE: InModes = InModes {
    while_stopped: true,
    while_running: true,
    while_programming: true,
};

/// Where no run is out.
const AT_REST: InModes = InModes {
    while_stopped: true,
    while_running: false,
    while_programming: true,
};

/// While the target is stopped alone.
const STOPPED: InModes = InModes {
    while_stopped: true,
    while_running: false,
    while_programming: false,
};

/// While a run is out alone.
const RUNNING: InModes = InModes {
    while_stopped: false,
    while_running: true,
    while_programming: false,
};

/// While the flash is programmed alone.
const PROGRAMMING: InModes = InModes {
    while_stopped: false,
    while_running: false,
    while_programming: true,
};

/// The modes in which this command is allowed.
fn allowed_by(command: &Command<'_>) -> InModes
    ensures stopped { result.while_stopped ≡ (book.allowed_by (asked command.now)).while_stopped }
    ensures running { result.while_running ≡ (book.allowed_by (asked command.now)).while_running }
    ensures programming { result.while_programming ≡ (book.allowed_by (asked command.now)).while_programming }
{
    match command {
        Command::SignOff => EVERYWHERE,
        Command::GetSignOn => EVERYWHERE,
        Command::SetParameter { id: _, value: _ } => EVERYWHERE,
        Command::GetParameter { id: _ } => EVERYWHERE,
        Command::WriteMemory {
            kind: _,
            address: _,
            bytes: _,
        } => AT_REST,
        Command::ReadMemory {
            kind: _,
            count: _,
            address: _,
        } => AT_REST,
        Command::WritePc(_) => STOPPED,
        Command::ReadPc => STOPPED,
        Command::Go => STOPPED,
        Command::SingleStep => STOPPED,
        Command::ForcedStop => RUNNING,
        Command::Reset => STOPPED,
        Command::SetDeviceDescriptor(_) => EVERYWHERE,
        Command::ErasePage(_) => PROGRAMMING,
        Command::GetSync => EVERYWHERE,
        Command::SetBreak {
            kind: _,
            number: _,
            address: _,
        } => STOPPED,
        Command::ChipErase => PROGRAMMING,
        Command::EnterProg => STOPPED,
        Command::LeaveProg => PROGRAMMING,
        Command::ClrBreak {
            number: _,
            address: _,
        } => STOPPED,
        Command::RunTo(_) => STOPPED,
        Command::ClearEvents => EVERYWHERE,
    }
}

/// A command that the mode allows.
pub fn allowed(mode: Mode, command: &Command<'_>) -> bool
    ensures { result ≡ book.allowed (mode_of mode) (asked command.now) }
{
    match mode {
        Mode::Stopped => allowed_by(command).while_stopped,
        Mode::Launching(_) => false,
        Mode::Running => allowed_by(command).while_running,
        Mode::Programming => allowed_by(command).while_programming,
        Mode::Leaving => false,
        Mode::Closed(_) => false,
    }
}

/// What the parameter 'state of the target' reads (AVR067, 'Parameters': MCU_STATE).
pub fn state_number(mode: Mode) -> u8
    ensures { result ≡ debugger.state_number (mode_of mode) }
{
    match mode {
        Mode::Stopped => 0x00,
        Mode::Launching(_) => 0x00,
        Mode::Running => 0x01,
        Mode::Programming => 0x02,
        Mode::Leaving => 0x01,
        Mode::Closed(_) => 0x00,
    }
}

/// Signs on.
pub fn sign_on(out: &mut Out, number: u16)
    requires { out.old.items ≡ [] }
    ensures { (tool : ToolState) → DoesBeside (λ part. book.carried_out true part number get_sign_on)
        tool out.old.items tool out.new.items }
{
    reply(
        out,
        number,
        &Response::SignOn(SignOn {
            head: OWN_HEAD,
            name: &OWN_NAME,
        }),
    )
}

/// Sets pc to an address of the flash.
pub fn write_pc(core: &mut Core, out: &mut Out, number: u16, address: u32)
    requires { out.old.items ≡ [] }
    ensures does { (tool : ToolState) (comparators : List (Option ℕ)) → Does (λ part. book.pc_written part number address)
        (at tool core.old comparators out.old.items) (at tool core.new comparators out.new.items) }
    ensures part { core.new.part ≡ core.old.part }
{
    if address >= u32::from(core.part().words()) {
        return refuse(out, number, Refusal::IllegalMemoryRange);
    }
    core.set_pc(address as u16);
    okay(out, number)
}

/// Reads pc.
pub fn read_pc(core: &Core, out: &mut Out, number: u16)
    requires { out.old.items ≡ [] }
    ensures { (tool : ToolState) (comparators : List (Option ℕ)) → Does (λ part. book.carried_out true part number read_pc)
        (at tool core.now comparators out.old.items) (at tool core.now comparators out.new.items) }
{
    reply(out, number, &Response::Pc(u32::from(core.pc())))
}

/// Resets the target and tells it.
pub fn reset(core: &mut Core, out: &mut Out, number: u16)
    requires { out.old.items ≡ [] }
    ensures does { (tool : ToolState) (comparators : List (Option ℕ)) → Does (λ part. book.carried_out true part number reset)
        (at tool core.old comparators out.old.items) (at tool core.new comparators out.new.items) }
    ensures part { core.new.part ≡ core.old.part }
{
    core.restart();
    okay(out, number);
    tell(out, core.pc(), Cause::Restarted)
}

impl Tool {
    /// Writes a parameter.
    pub fn set_parameter(&mut self, out: &mut Out, number: u16, id: u8, value: &[u8])
        requires { out.old.items ≡ [] }
        ensures does { DoesBeside (λ part. book.carried_out true part number (set_parameter id value.now))
            self.old out.old.items self.new out.new.items }
        ensures rest { self.new ≡ record self.old { parameters = self.new.parameters } }
    {
        match self.params.set(id, value) {
            Ok(()) => okay(out, number),
            Err(refusal) => refuse(out, number, refusal),
        }
    }

    /// Reads a parameter.
    pub fn get_parameter(&self, out: &mut Out, number: u16, id: u8)
        requires { out.old.items ≡ [] }
        ensures { DoesBeside (λ part. book.carried_out true part number (get_parameter id)) self.now out.old.items self.now out.new.items }
    {
        match self.params.get(id, state_number(self.mode)) {
            Ok(value) => reply(out, number, &Response::Parameter(value.bytes.as_slice())),
            Err(refusal) => refuse(out, number, refusal),
        }
    }
}
