//! Sessions whose works are done at their start, and whose first run is refused. Those over threads are tests of `ice_conform`.
ghost use Rattle.std.specs.Prelude.{◌≡◌, ◌≤◌, ◌+◌, [], length, IfOk, vec_len};
ghost use Rattle.part_spec.specs.declared.part.Part.TheVariants.{M16};
ghost use Rattle.part_spec.specs.Chip.{chip_of, words_of};
ghost use Rattle.debug_spec.specs.Debugger.{stopped};
ghost use Rattle.ice_emul.specs.Standing.{IsSoundEmulator};

mod outside;

use crate::{End, Served, open_desk, serve};
use arrayvec::ArrayVec;
use ice_base::{MemFlash, MemSink, MemSource, OpenGate, Spawner};
use ice_emul::Emulator;
use ice_frame::{Frame, write_frame};
use ice_inbox::TargetWork;
use outside::SecondOn;
use std::alloc::Global;
use std::sync::Wait;
use std::test::Fail;

/// A program that jumps to itself, on an emulator that has begun.
fn begun(alloc: Global) -> Result<Emulator<MemFlash>, Fail>
    ensures sound { IfOk result (λ e. IsSoundEmulator (λ f. f.part) e) }
    ensures begun { IfOk result (λ e. e.tool.mode ≡ stopped) }
    ensures received { IfOk result (λ e. e.receiver ≡ record { held = []; dropped = 0 }) }
{
    let flash = MemFlash::of(alloc, Vec::new(alloc))?;
    let program = vec![in alloc; 0xCFFFu16; 8192]?;
    match Emulator::begin(alloc, program.as_slice(), flash) {
        Ok(emulator) => Ok(emulator),
        Err(_) => Err("not begun".into()),
    }
}

/// Frames with these bodies, numbered from 0.
fn frames(alloc: Global, bodies: &[&[u8]]) -> Result<Vec<u8>, Fail> {
    let mut bytes = Vec::new(alloc);
    let mut seq = 0u16;
    for body in bodies {
        push_frame(&mut bytes, seq, body)?;
        seq = seq.wrapping_add(1);
    }
    Ok(bytes)
}

/// A frame behind others.
fn push_frame(bytes: &mut Vec<u8>, seq: u16, body: &[u8]) -> Result<(), Fail> {
    let mut held = ArrayVec::new();
    let _ = held.try_extend_from_slice(body);
    let mut out = ArrayVec::new();
    write_frame(&Frame { seq, body: held }, &mut out);
    bytes.extend_from_slice(out.as_slice())?;
    Ok(())
}

/// Why a session ended, and the bytes that it sent.
type Row = (End, Vec<u8>);

/// A session of a program that jumps to itself, whose writes fail where they are listed.
fn served<P: Spawner<TargetWork<MemFlash, OpenGate, R>>, R: Wait + Copy>(
    rt: R,
    alloc: Global,
    bytes: Vec<u8>,
    fails: Vec<(u64, usize)>,
    targets: P,
) -> Result<Row, Fail>
    requires { P.sound targets }
{
    let source = MemSource::of(bytes, Vec::new(alloc), Vec::new(alloc));
    let mut sink = MemSink::of(alloc, fails, 4096)?;
    let mut lines = SecondOn::ready();
    let desk = open_desk(alloc)?;
    let emulator = begun(alloc)?;
    match serve(
        rt, emulator, desk, source, OpenGate, targets, &mut lines, &mut sink,
    ) {
        Err(_) => Err("no thread".into()),
        Ok(left) => {
            let Served { end, .. } = left;
            Ok((end, sink.written().to_vec(alloc)?))
        }
    }
}

#[test]
fn a_refused_launch_is_answered(rt: HostRuntime) -> Result<(), Fail> {
    let alloc = rt.alloc();
    let bytes = frames(alloc, &[&[0x08], &[0x03, 0x1A], &[0x00]])?;
    let (end, sent) = served(rt, alloc, bytes, Vec::new(alloc), SecondOn::refusing())?;
    assert_eq!(rt; end, End::Okay);
    let wanted = frames(alloc, &[&[0xA0], &[0x81, 0x00], &[0x80]])?;
    assert_eq!(rt; sent.as_slice(), wanted.as_slice());
    Ok(())
}

#[test]
fn a_line_that_ends_closes_the_session(rt: HostRuntime) -> Result<(), Fail> {
    let alloc = rt.alloc();
    let bytes = frames(alloc, &[&[0x0F]])?;
    let (end, sent) = served(rt, alloc, bytes, Vec::new(alloc), SecondOn::ready())?;
    assert_eq!(rt; end, End::Okay);
    assert_eq!(rt; sent.as_slice(), frames(alloc, &[&[0x80]])?.as_slice());
    Ok(())
}

#[test]
fn an_answer_that_cannot_be_written_ends_the_line(rt: HostRuntime) -> Result<(), Fail> {
    let alloc = rt.alloc();
    let bytes = frames(alloc, &[&[0x0F], &[0x0F], &[0x00]])?;
    let (end, sent) = served(
        rt,
        alloc,
        bytes,
        vec![in alloc; (2u64, 1usize)]?,
        SecondOn::ready(),
    )?;
    assert_eq!(rt; end, End::Write);
    assert_eq!(rt; sent.len(), 12usize);
    Ok(())
}
