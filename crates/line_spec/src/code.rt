//! The first bytes of bodies, by AVR067's names ('Commands', 'Responses', 'Events').

/// CMND_SIGN_OFF: the session ends.
pub const SIGN_OFF: u8 = 0x00;
/// CMND_GET_SIGN_ON: asks for the versions and the name of the tool.
pub const GET_SIGN_ON: u8 = 0x01;
/// CMND_SET_PARAMETER: writes a parameter.
pub const SET_PARAMETER: u8 = 0x02;
/// CMND_GET_PARAMETER: asks for a parameter.
pub const GET_PARAMETER: u8 = 0x03;
/// CMND_WRITE_MEMORY: writes a memory.
pub const WRITE_MEMORY: u8 = 0x04;
/// CMND_READ_MEMORY: asks for bytes of a memory.
pub const READ_MEMORY: u8 = 0x05;
/// CMND_WRITE_PC: sets the program counter.
pub const WRITE_PC: u8 = 0x06;
/// CMND_READ_PC: asks for the program counter.
pub const READ_PC: u8 = 0x07;
/// CMND_GO: lets the target run.
pub const GO: u8 = 0x08;
/// CMND_SINGLE_STEP: lets the target make one step.
pub const SINGLE_STEP: u8 = 0x09;
/// CMND_FORCED_STOP: stops the running target.
pub const FORCED_STOP: u8 = 0x0A;
/// CMND_RESET: resets the target.
pub const RESET: u8 = 0x0B;
/// CMND_SET_DEVICE_DESCRIPTOR: describes the target to the tool.
pub const SET_DEVICE_DESCRIPTOR: u8 = 0x0C;
/// CMND_ERASEPAGE_SPM: erases a page of flash.
pub const ERASEPAGE_SPM: u8 = 0x0D;
/// CMND_GET_SYNC: asks whether the tool is there.
pub const GET_SYNC: u8 = 0x0F;
/// CMND_SET_BREAK: sets a breakpoint.
pub const SET_BREAK: u8 = 0x11;
/// CMND_CHIP_ERASE: erases the flash.
pub const CHIP_ERASE: u8 = 0x13;
/// CMND_ENTER_PROGMODE: begins to program the flash.
pub const ENTER_PROGMODE: u8 = 0x14;
/// CMND_LEAVE_PROGMODE: ends the programming of the flash.
pub const LEAVE_PROGMODE: u8 = 0x15;
/// CMND_CLR_BREAK: clears a breakpoint.
pub const CLR_BREAK: u8 = 0x1A;
/// CMND_RUN_TO_ADDR: lets the target run up to an address.
pub const RUN_TO_ADDR: u8 = 0x1C;
/// CMND_CLEAR_EVENTS: forgets the events that wait.
pub const CLEAR_EVENTS: u8 = 0x22;

/// RSP_OK: the command was carried out.
pub const OK: u8 = 0x80;
/// RSP_PARAMETER: the bytes of a parameter.
pub const PARAMETER: u8 = 0x81;
/// RSP_MEMORY: the bytes of a memory.
pub const MEMORY: u8 = 0x82;
/// RSP_PC: the program counter.
pub const PC: u8 = 0x84;
/// RSP_SIGN_ON: the versions and the name of the tool.
pub const SIGN_ON: u8 = 0x86;
/// RSP_FAILED: the tool failed at the command.
pub const FAILED: u8 = 0xA0;
/// RSP_ILLEGAL_PARAMETER: there is no such parameter, or it may not be written.
pub const ILLEGAL_PARAMETER: u8 = 0xA1;
/// RSP_ILLEGAL_MEMORY_TYPE: there is no such memory type.
pub const ILLEGAL_MEMORY_TYPE: u8 = 0xA2;
/// RSP_ILLEGAL_MEMORY_RANGE: the address and the count pass the end of the memory.
pub const ILLEGAL_MEMORY_RANGE: u8 = 0xA3;
/// RSP_ILLEGAL_MCU_STATE: the command is not allowed in this mode.
pub const ILLEGAL_MCU_STATE: u8 = 0xA5;
/// RSP_ILLEGAL_VALUE: the command has a wrong length, or a parameter a wrong value.
pub const ILLEGAL_VALUE: u8 = 0xA6;
/// RSP_ILLEGAL_BREAKPOINT: the breakpoint is not there, or cannot be set.
pub const ILLEGAL_BREAKPOINT: u8 = 0xA8;
/// RSP_ILLEGAL_COMMAND: there is no such command.
pub const ILLEGAL_COMMAND: u8 = 0xAA;

/// EVT_BREAK: the target stopped.
pub const BREAK: u8 = 0xE0;
