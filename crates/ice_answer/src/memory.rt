//! The memories that the host reads and writes, by their types.
ghost use Rattle.std.specs.Prelude.{◌≡◌, ◌<◌, ◌≤◌, ◌+◌, [], ℕ, List, Option, length, true, false, Ok};
ghost use Rattle.part_spec.specs.declared.part.Part.{Part};
ghost use Rattle.part_spec.specs.Chip.{chip_of, flash_bytes, page_bytes};
ghost use Rattle.part_spec.specs.Pages.{paired};
ghost use Rattle.avr_core.specs.Stands.{Moves};
ghost use Rattle.avr_spec.specs.Kept.{kept};
ghost use Rattle.avr_spec.specs.Memory.{store};
ghost use Rattle.avr_spec.specs.Step.{flash_byte};
ghost use Rattle.line_spec.specs.Frames.{IsBytes};
ghost use Rattle.debug_spec.specs.Debugger.{Debugger, stopped, programming};
ghost use Rattle.debug_spec.specs.MemoryTypes as book;
ghost use Rattle.ice_answer.specs.Values.{memory_of, memories_of, mode_of};
ghost use Rattle.ice_answer.specs.Kept.{ToolState, kept_tool};
ghost use Rattle.ice_answer.specs.Does.{Does, at};
ghost use Rattle.ice_answer.specs.Accesses.{reads, IsWritten};

use crate::mode::Mode;
use crate::reply::{Out, okay, refuse, reply};
use crate::tool::Tool;
use arrayvec::ArrayVec;
use avr_core::Core;
use ice_msg::{Refusal, Response};
use line_spec::limits::MEMORY_LIMIT;
use part_spec::{PAGE_BYTES, PAGE_WORDS, Part};

/// A memory.
#[derive(Clone, Copy, Debug, PartialEq, Eq)]
pub enum Memory {
    /// The data space.
    DataSpace,
    /// The I/O space.
    IoSpace,
    /// The program.
    Program,
    /// The fuses.
    Fuses,
    /// The lock bits.
    LockBits,
    /// The signature.
    Signature,
}

/// The bytes of the data space.
const DATA_BYTES: u32 = 65536;

/// The bytes of the I/O space.
const IO_BYTES: u32 = 64;

/// The data address of the first byte of the I/O space, which stands behind the registers.
const IO_START: u32 = 0x20;

/// The fuses, low, high and extended, as the part leaves the factory.
const FUSES: [u8; 3] = [0xE1, 0x99, 0xFF];

/// The lock bits, as the part leaves the factory.
const LOCK_BITS: [u8; 1] = [0xFF];

/// The memory that a type reads while the target is stopped (AVR067, 'Memory types').
fn read_stopped(kind: u8) -> Option<Memory>
    ensures { memories_of result ≡ (book.access_of stopped kind).read }
{
    match kind {
        0x20 => Some(Memory::DataSpace),
        0x30 => Some(Memory::IoSpace),
        0xA0 => Some(Memory::Program),
        0xB2 => Some(Memory::Fuses),
        0xB3 => Some(Memory::LockBits),
        0xB4 => Some(Memory::Signature),
        _ => None,
    }
}

/// The memory that a type reads while the flash is programmed.
fn read_programming(kind: u8) -> Option<Memory>
    ensures { memories_of result ≡ (book.access_of programming kind).read }
{
    match kind {
        0xA0 => Some(Memory::Program),
        0xB0 => Some(Memory::Program),
        0xB2 => Some(Memory::Fuses),
        0xB3 => Some(Memory::LockBits),
        0xB4 => Some(Memory::Signature),
        _ => None,
    }
}

/// The memory that a type writes while the target is stopped.
fn written_stopped(kind: u8) -> Option<Memory>
    ensures { memories_of result ≡ (book.access_of stopped kind).written }
{
    match kind {
        0x20 => Some(Memory::DataSpace),
        0x30 => Some(Memory::IoSpace),
        _ => None,
    }
}

/// The memory that a type writes while the flash is programmed.
fn written_programming(kind: u8) -> Option<Memory>
    ensures { memories_of result ≡ (book.access_of programming kind).written }
{
    match kind {
        0xB0 => Some(Memory::Program),
        _ => None,
    }
}

/// The memory that a type reads in a mode.
fn to_read(mode: Mode, kind: u8) -> Option<Memory>
    ensures { memories_of result ≡ (book.access_of (mode_of mode) kind).read }
{
    match mode {
        Mode::Stopped => read_stopped(kind),
        Mode::Launching(_) => None,
        Mode::Running => None,
        Mode::Programming => read_programming(kind),
        Mode::Leaving => None,
        Mode::Closed(_) => None,
    }
}

/// The memory that a type writes in a mode.
fn to_write(mode: Mode, kind: u8) -> Option<Memory>
    ensures { memories_of result ≡ (book.access_of (mode_of mode) kind).written }
{
    match mode {
        Mode::Stopped => written_stopped(kind),
        Mode::Launching(_) => None,
        Mode::Running => None,
        Mode::Programming => written_programming(kind),
        Mode::Leaving => None,
        Mode::Closed(_) => None,
    }
}

/// The bytes of a memory of a part.
fn memory_size(part: Part, memory: Memory) -> u32
    ensures size { result ≡ book.memory_size (chip_of part) (memory_of memory) }
    ensures small { result ≤ 65536 }
{
    match memory {
        Memory::DataSpace => DATA_BYTES,
        Memory::IoSpace => IO_BYTES,
        Memory::Program => 2 * u32::from(part.words()),
        Memory::Fuses => FUSES.len() as u32,
        Memory::LockBits => LOCK_BITS.len() as u32,
        Memory::Signature => part.signature().len() as u32,
    }
}

/// The program is written in whole pages, every other memory byte by byte.
fn in_whole_units(memory: Memory, address: u32, count: usize) -> bool
    ensures { result ≡ book.in_whole_units (memory_of memory) address count }
{
    match memory {
        Memory::DataSpace => true,
        Memory::IoSpace => true,
        Memory::Program => address % PAGE_BYTES as u32 == 0 && count % PAGE_BYTES == 0,
        Memory::Fuses => true,
        Memory::LockBits => true,
        Memory::Signature => true,
    }
}

/// The word of an erased flash.
pub const ERASED: u16 = 0xFFFF;

/// The words of a page, made of its bytes, the low byte of each first.
pub fn paired_page(bytes: &[u8]) -> [u16; PAGE_WORDS]
    requires { length bytes.now ≡ page_bytes }
    ensures { result ≡ paired bytes.now }
{
    let mut words = [0; PAGE_WORDS];
    for place in 0..PAGE_WORDS {
        words[place] = u16::from(bytes[2 * place]) + 256 * u16::from(bytes[2 * place + 1]);
    }
    words
}

/// Stores bytes from a data address on, in rising order.
fn store_all(core: &mut Core, address: u32, bytes: &[u8])
    requires { address + length bytes.now ≤ 65536 }
    ensures moves { Moves core.old core.new (λ part p. book.stored_from (store part) address bytes.now p) }
    ensures part { core.new.part ≡ core.old.part }
{
    for place in 0..bytes.len() {
        core.set_data_at((address + place as u32) as u16, bytes[place]);
    }
}

/// Stores bytes of the data space, and answers.
fn write_data(core: &mut Core, out: &mut Out, frame: u16, address: u32, bytes: &[u8])
    requires empty { out.old.items ≡ [] }
    requires within { address + length bytes.now ≤ 65536 }
    ensures does { (tool : ToolState) (comparators : List (Option ℕ)) →
        Does (λ part. book.written_to part book.data_space frame address bytes.now)
        (at tool core.old comparators out.old.items) (at tool core.new comparators out.new.items) }
    ensures part { core.new.part ≡ core.old.part }
{
    store_all(core, address, bytes);
    okay(out, frame)
}

/// Stores bytes of the I/O space, and answers.
fn write_io(core: &mut Core, out: &mut Out, frame: u16, address: u32, bytes: &[u8])
    requires empty { out.old.items ≡ [] }
    requires within { address + length bytes.now ≤ 64 }
    ensures does { (tool : ToolState) (comparators : List (Option ℕ)) →
        Does (λ part. book.written_to part book.io_space frame address bytes.now)
        (at tool core.old comparators out.old.items) (at tool core.new comparators out.new.items) }
    ensures part { core.new.part ≡ core.old.part }
{
    store_all(core, IO_START + address, bytes);
    okay(out, frame)
}

/// Answers a write to a memory, but for the program: of that it says that it is still to be written.
fn write_to(
    core: &mut Core,
    out: &mut Out,
    frame: u16,
    memory: Memory,
    address: u32,
    bytes: &[u8],
) -> bool
    requires empty { out.old.items ≡ [] }
    requires within { address + length bytes.now ≤ book.memory_size core.old.part (memory_of memory) }
    ensures does { result ≡ false → (tool : ToolState) (comparators : List (Option ℕ)) →
        Does (λ part. book.written_to part (memory_of memory) frame address bytes.now)
        (at tool core.old comparators out.old.items) (at tool core.new comparators out.new.items) }
    ensures left { result ≡ true → memory ≡ Memory.Program }
    ensures core { result ≡ true → core.new ≡ core.old }
    ensures out { result ≡ true → out.new.items ≡ out.old.items }
    ensures part { core.new.part ≡ core.old.part }
{
    match memory {
        Memory::DataSpace => write_data(core, out, frame, address, bytes),
        Memory::IoSpace => write_io(core, out, frame, address, bytes),
        Memory::Program => return true,
        Memory::Fuses => refuse(out, frame, Refusal::IllegalMemoryType),
        Memory::LockBits => refuse(out, frame, Refusal::IllegalMemoryType),
        Memory::Signature => refuse(out, frame, Refusal::IllegalMemoryType),
    }
    false
}

impl Tool {
    /// The byte of a memory at an address.
    fn byte_in(&self, core: &Core, memory: Memory, address: u32) -> u8
        requires { address < book.memory_size (chip_of self.now.plan.part) (memory_of memory) }
        ensures { (part : Part) (s : Debugger) → self.now ≡ kept_tool part s → core.now ≡ kept (chip_of part) s.machine →
            result ≡ book.byte_in (chip_of part) (memory_of memory) s address }
    {
        match memory {
            Memory::DataSpace => core.data_at(address as u16),
            Memory::IoSpace => core.io().load(address as u8),
            Memory::Program => self.program_byte(address),
            Memory::Fuses => FUSES[address as usize],
            Memory::LockBits => LOCK_BITS[address as usize],
            Memory::Signature => self.plan.part().signature()[address as usize],
        }
    }

    /// The byte of the program at a byte address.
    fn program_byte(&self, address: u32) -> u8
        requires { address < flash_bytes (chip_of self.now.plan.part) }
        ensures { result ≡ flash_byte self.now.plan.prog address }
    {
        let word = self.plan.program_word((address / 2) as u16);
        if address % 2 == 0 {
            (word % 256) as u8
        } else {
            (word / 256) as u8
        }
    }

    /// So many bytes of a memory, from an address on.
    fn bytes_from(
        &self,
        core: &Core,
        memory: Memory,
        address: u32,
        count: u32,
    ) -> ArrayVec<u8, MEMORY_LIMIT>
        requires few { count ≤ MEMORY_LIMIT }
        requires within { address + count ≤ book.memory_size (chip_of self.now.plan.part) (memory_of memory) }
        ensures bytes { (part : Part) (s : Debugger) → self.now ≡ kept_tool part s → core.now ≡ kept (chip_of part) s.machine →
            result.items ≡ book.bytes_from (book.byte_in (chip_of part) (memory_of memory) s) address count }
        ensures size { length result.items ≤ MEMORY_LIMIT }
        ensures range { IsBytes result.items }
    {
        let mut bytes = ArrayVec::new();
        for place in 0..count {
            bytes.push(self.byte_in(core, memory, address + place));
        }
        bytes
    }

    /// Answers a read.
    pub fn read_memory(
        &self,
        core: &Core,
        out: &mut Out,
        frame: u16,
        kind: u8,
        count: u32,
        address: u32,
    )
        requires empty { out.old.items ≡ [] }
        requires part { core.now.part ≡ chip_of self.now.plan.part }
        ensures { (comparators : List (Option ℕ)) → Does (λ part. book.memory_read part frame kind count address)
            (at self.now core.now comparators out.old.items) (at self.now core.now comparators out.new.items) }
    {
        match to_read(self.mode, kind) {
            None => refuse(out, frame, Refusal::IllegalMemoryType),
            Some(memory) => self.read_range(core, out, frame, memory, count, address),
        }
    }

    /// Answers a read of a memory.
    fn read_range(
        &self,
        core: &Core,
        out: &mut Out,
        frame: u16,
        memory: Memory,
        count: u32,
        address: u32,
    )
        requires { out.old.items ≡ [] }
        ensures { (comparators : List (Option ℕ)) → Does (reads frame (memory_of memory) count address)
            (at self.now core.now comparators out.old.items) (at self.now core.now comparators out.new.items) }
    {
        if count > MEMORY_LIMIT as u32
            || u64::from(address) + u64::from(count)
                > u64::from(memory_size(self.plan.part(), memory))
        {
            return refuse(out, frame, Refusal::IllegalMemoryRange);
        }
        let bytes = self.bytes_from(core, memory, address, count);
        reply(out, frame, &Response::Memory(bytes.as_slice()))
    }

    /// The memory that a write of so many bytes from an address on is for, or why it is refused.
    fn to_be_written(&self, kind: u8, address: u32, count: usize) -> Result<Memory, Refusal>
        ensures { IsWritten (chip_of self.now.plan.part) self.now.mode kind address count result }
    {
        let Some(memory) = to_write(self.mode, kind) else {
            return Err(Refusal::IllegalMemoryType);
        };
        let size = memory_size(self.plan.part(), memory);
        if address > size || count > (size - address) as usize {
            return Err(Refusal::IllegalMemoryRange);
        }
        if !in_whole_units(memory, address, count) {
            return Err(Refusal::IllegalMemoryRange);
        }
        Ok(memory)
    }

    /// Answers a write, but for one to the program: of that it says that it is still to be made.
    pub fn write_beside_program(
        &self,
        core: &mut Core,
        out: &mut Out,
        frame: u16,
        kind: u8,
        address: u32,
        bytes: &[u8],
    ) -> bool
        requires empty { out.old.items ≡ [] }
        requires part { core.old.part ≡ chip_of self.now.plan.part }
        ensures does { result ≡ false → (comparators : List (Option ℕ)) →
            Does (λ part. book.memory_written part frame kind address bytes.now)
            (at self.now core.old comparators out.old.items) (at self.now core.new comparators out.new.items) }
        ensures left { result ≡ true →
            IsWritten (chip_of self.now.plan.part) self.now.mode kind address (length bytes.now) (Ok Memory.Program) }
        ensures core { result ≡ true → core.new ≡ core.old }
        ensures out { result ≡ true → out.new.items ≡ out.old.items }
        ensures part { core.new.part ≡ core.old.part }
    {
        match self.to_be_written(kind, address, bytes.len()) {
            Err(refusal) => {
                refuse(out, frame, refusal);
                false
            }
            Ok(memory) => write_to(core, out, frame, memory, address, bytes),
        }
    }
}
