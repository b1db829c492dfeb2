//! The ids of the parameters (AVR067, 'Parameters').

pub(crate) const HARDWARE_VERSION: u8 = 0x01;

pub(crate) const FIRMWARE_VERSION: u8 = 0x02;

pub(crate) const EMULATOR_MODE: u8 = 0x03;

pub(crate) const BAUD_RATE: u8 = 0x05;

pub(crate) const TARGET_VOLTAGE: u8 = 0x06;

pub(crate) const JTAG_CLOCK: u8 = 0x07;

pub(crate) const TIMERS_RUNNING: u8 = 0x09;

pub(crate) const EXTERNAL_RESET: u8 = 0x13;

pub(crate) const FLASH_PAGE_SIZE: u8 = 0x14;

pub(crate) const EEPROM_PAGE_SIZE: u8 = 0x15;

pub(crate) const MCU_STATE: u8 = 0x1A;

pub(crate) const DAISY_CHAIN: u8 = 0x1B;

pub(crate) const BOOT_ADDRESS: u8 = 0x1C;
