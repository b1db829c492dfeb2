//! The parameters.
ghost use Rattle.std.specs.Prelude.{◌≡◌, ◌≤◌, length, Ok, Err, MatchResult};
ghost use Rattle.line_spec.specs.Parameters.{parameters_at_start, parameter_read, parameter_written};

use crate::id;
use crate::kept::{keep, keep_within, keep_zeros};
use arrayvec::ArrayVec;
use line_spec::Refusal;
use std::marker::Model;

/// The versions of the hardware, of the master and of the slave.
const HARDWARE_VERSION: [u8; 2] = [0x01, 0x01];

/// The versions of the firmware, each low byte first, of the master and of the slave.
const FIRMWARE_VERSION: [u8; 4] = [0x00, 0x06, 0x00, 0x06];

/// The voltage of the target: 5,000 millivolts, low byte first.
const TARGET_VOLTAGE: [u8; 2] = [0x88, 0x13];

/// No device stands before or behind the target in its chain.
const DAISY_CHAIN: [u8; 4] = [0x00; 4];

/// The value of a parameter.
#[derive(Drop)]
pub struct ParamValue {
    /// Its bytes, one to four, a number low byte first.
    pub bytes: ArrayVec<u8, 4>,
}

/// The parameters of the tool, with the values that were written to them. None has an effect on the target.
#[derive(Drop)]
pub struct Params {
    emulator_mode: u8,
    baud_rate: u8,
    jtag_clock: [u8; 1],
    timers_running: u8,
    external_reset: u8,
    flash_page_size: [u8; 2],
    eeprom_page_size: [u8; 1],
    boot_address: [u8; 4],
}

impl Model for Params {
    ghost use Rattle.std.specs.Prelude.{List};
    ghost use Rattle.line_spec.specs.Parameters.{Parameter};

    ghost Value = { List Parameter };

    ghost use Rattle.ice_params.specs.Kept.{kept_of};

    ghost view = { kept_of };
}

impl Params {
    /// The parameters at the start.
    pub fn new() -> Params
        ensures { result ≡ parameters_at_start }
    {
        Params {
            emulator_mode: 0x01,
            baud_rate: 0x04,
            jtag_clock: [0x04],
            timers_running: 0x00,
            external_reset: 0x00,
            flash_page_size: [0x80, 0x00],
            eeprom_page_size: [0x04],
            boot_address: [0x00; 4],
        }
    }

    /// The value of the parameter with this id. That of MCU_STATE is `state`.
    ///
    /// # Errors
    ///
    /// `IllegalParameter` exactly where no parameter has the id.
    pub fn get(&self, id: u8, state: u8) -> Result<ParamValue, Refusal>
        ensures { MatchResult result (λ value. parameter_read self.now state id ≡ Ok value.bytes.items)
            (λ refusal. parameter_read self.now state id ≡ Err refusal) }
    {
        match id {
            id::HARDWARE_VERSION => Ok(value_of(&HARDWARE_VERSION)),
            id::FIRMWARE_VERSION => Ok(value_of(&FIRMWARE_VERSION)),
            id::EMULATOR_MODE => Ok(value_of(&[self.emulator_mode])),
            id::BAUD_RATE => Ok(value_of(&[self.baud_rate])),
            id::TARGET_VOLTAGE => Ok(value_of(&TARGET_VOLTAGE)),
            id::JTAG_CLOCK => Ok(value_of(&self.jtag_clock)),
            id::TIMERS_RUNNING => Ok(value_of(&[self.timers_running])),
            id::EXTERNAL_RESET => Ok(value_of(&[self.external_reset])),
            id::FLASH_PAGE_SIZE => Ok(value_of(&self.flash_page_size)),
            id::EEPROM_PAGE_SIZE => Ok(value_of(&self.eeprom_page_size)),
            id::MCU_STATE => Ok(value_of(&[state])),
            id::DAISY_CHAIN => Ok(value_of(&DAISY_CHAIN)),
            id::BOOT_ADDRESS => Ok(value_of(&self.boot_address)),
            _ => Err(Refusal::IllegalParameter),
        }
    }

    /// Writes the parameter with this id, and no other. A value that is refused changes nothing.
    ///
    /// # Errors
    ///
    /// `IllegalParameter` exactly where no parameter has the id, or its parameter is read-only; else `IllegalValue`
    /// exactly where the value has not the parameter's size, or is none that it accepts.
    pub fn set(&mut self, id: u8, value: &[u8]) -> Result<(), Refusal>
        ensures { MatchResult result (λ _. parameter_written self.old id value.now ≡ Ok self.new)
            (λ refusal. (parameter_written self.old id value.now ≡ Err refusal) × (self.new ≡ self.old)) }
    {
        match id {
            id::EMULATOR_MODE => keep_within(&mut self.emulator_mode, value, 0x01, 0x01),
            id::BAUD_RATE => keep_within(&mut self.baud_rate, value, 0x01, 0x08),
            id::JTAG_CLOCK => keep(&mut self.jtag_clock, value),
            id::TIMERS_RUNNING => keep_within(&mut self.timers_running, value, 0x00, 0x01),
            id::EXTERNAL_RESET => keep_within(&mut self.external_reset, value, 0x00, 0x01),
            id::FLASH_PAGE_SIZE => keep(&mut self.flash_page_size, value),
            id::EEPROM_PAGE_SIZE => keep(&mut self.eeprom_page_size, value),
            id::DAISY_CHAIN => keep_zeros(value),
            id::BOOT_ADDRESS => keep(&mut self.boot_address, value),
            _ => Err(Refusal::IllegalParameter),
        }
    }
}

/// A value of these bytes.
fn value_of(bytes: &[u8]) -> ParamValue
    requires { length bytes.now ≤ 4 }
    ensures { result.bytes.items ≡ bytes.now }
{
    let mut value = ArrayVec::new();
    for byte in bytes {
        value.push(*byte);
    }
    ParamValue { bytes: value }
}
