//! What the tool answers to a command that it does not carry out.
ghost use Rattle.std.specs.Prelude.{◌≡◌};

use crate::code;

/// Why a command was not carried out (AVR067, 'Responses').
#[derive(Clone, Copy, Debug, PartialEq, Eq)]
pub enum Refusal {
    /// The tool failed at it, as in writing flash.
    Failed,
    /// There is no such parameter, or it may not be written.
    IllegalParameter,
    /// There is no such memory type.
    IllegalMemoryType,
    /// The address and the count pass the end of the memory.
    IllegalMemoryRange,
    /// The target is not in a mode in which the command is allowed.
    IllegalMcuState,
    /// The command has a wrong length, or a parameter a wrong value.
    IllegalValue,
    /// The breakpoint is not there, or cannot be set.
    IllegalBreakpoint,
    /// There is no such command.
    IllegalCommand,
}

impl Refusal {
    ghost use Rattle.line_spec.specs.Messages.{refusal_code};

    /// The byte that stands for it on the line, from 0xA0 to 0xAA.
    pub fn code(&self) -> u8
        ensures { result ≡ refusal_code self.now }
    {
        match self {
            Refusal::Failed => code::FAILED,
            Refusal::IllegalParameter => code::ILLEGAL_PARAMETER,
            Refusal::IllegalMemoryType => code::ILLEGAL_MEMORY_TYPE,
            Refusal::IllegalMemoryRange => code::ILLEGAL_MEMORY_RANGE,
            Refusal::IllegalMcuState => code::ILLEGAL_MCU_STATE,
            Refusal::IllegalValue => code::ILLEGAL_VALUE,
            Refusal::IllegalBreakpoint => code::ILLEGAL_BREAKPOINT,
            Refusal::IllegalCommand => code::ILLEGAL_COMMAND,
        }
    }
}
