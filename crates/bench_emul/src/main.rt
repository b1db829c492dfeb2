//! Answers the same command again and again, and prints how often it was answered.
//!
//! `bench_emul KIND COUNT`: KIND is sync (GET_SYNC), read (256 bytes of SRAM), step (SINGLE_STEP, with its event) or sign_on. Time it from
//! outside (`bench/emul.py`).
#![tactic(auto)]

ghost use Rattle.std.specs.Prelude.{◌≡◌, true, IfOk};
ghost use Rattle.ice_emul.specs.Standing.{IsSoundEmulator};
ghost use Rattle.ice_emul.specs.Taking.{takes_line};

use arrayvec::ArrayVec;
use ice_base::{MemFlash, Part};
use ice_emul::{BeginError, Emulator, Input, Next, Out};
use ice_frame::{Frame, write_frame};
use std::alloc::{AllocError, Global};
use std::{env, io};

/// Each word of the program, a NOP.
const WORD: u16 = 0;

fn main(rt: HostRuntime) -> io::Result<()> {
    let mut given = env::args(&rt)?;
    let _program = given.next();
    let (Some(kind), Some(count)) = (given.next(), given.next()) else {
        return eprintln!(rt; "usage: bench_emul KIND COUNT");
    };
    let Ok(count) = count.as_str().parse::<u32>() else {
        return eprintln!(rt; "usage: bench_emul KIND COUNT");
    };
    let made = answered(rt.alloc(), body_of(kind.as_str()), count)?;
    println!(rt; "{made} of {count}")
}

/// The body of a command.
fn body_of(kind: &str) -> &'static [u8] {
    match kind {
        "read" => &[0x05, 0x20, 0x00, 0x01, 0x00, 0x00, 0x60, 0x00, 0x00, 0x00],
        "step" => &[0x09],
        "sign_on" => &[0x01],
        _ => &[0x0F],
    }
}

/// How often a command was answered, of so many times.
fn answered(alloc: Global, body: &[u8], count: u32) -> Result<u32, AllocError> {
    let program = vec![in alloc; WORD; usize::from(Part::M16.words())]?;
    let flash = MemFlash::of(alloc, Vec::new(alloc))?;
    match Emulator::begin(alloc, &program, flash) {
        Ok(emulator) => Ok(answer_all(emulator, body, count)),
        Err(BeginError::Memory(_)) => Err(AllocError),
        Err(BeginError::Flash(_)) => Ok(0),
    }
}

/// Answers a command so often, up to the first time that it is not answered.
fn answer_all(emulator: Emulator<MemFlash>, body: &[u8], count: u32) -> u32
    requires sound { IsSoundEmulator (λ f. f.part) emulator }
    requires takes { takes_line emulator.tool.mode ≡ true }
{
    let mut emulator = emulator;
    let line = framed(body);
    let mut made = 0;
    'rounds: while made < count {
        if !answer(&mut emulator, line.as_slice()) {
            return made;
        }
        made += 1;
    }
    made
}

/// Answers a frame.
fn answer(emulator: &mut Emulator<MemFlash>, line: &[u8]) -> bool
    requires sound { IsSoundEmulator (λ f. f.part) emulator.old }
    requires takes { takes_line emulator.old.tool.mode ≡ true }
    ensures sound { IsSoundEmulator (λ f. f.part) emulator.new }
    ensures takes { result ≡ true → takes_line emulator.new.tool.mode ≡ true }
{
    let mut out = Out::new();
    match emulator.take(Input::Bytes(line), &mut out).next {
        Next::Answered => !out.is_empty(),
        _ => false,
    }
}

/// The bytes of the frame with number 0 and this body.
fn framed(body: &[u8]) -> ArrayVec<u8, 4116> {
    let mut frame = Frame {
        seq: 0,
        body: ArrayVec::new(),
    };
    let _ = frame.body.try_extend_from_slice(body);
    let mut bytes = ArrayVec::new();
    write_frame(&frame, &mut bytes);
    bytes
}
