//! Scripts over an emulator in memory.
ghost use Rattle.std.specs.Prelude.{◌≡◌, IfOk, length};

use super::*;
use arrayvec::ArrayVec;
use debug_shell::ScriptEnd;
use ice_base::{MemFlash, MemSink, MemSource, Part};
use ice_emul::Totals;
use std::alloc::{AllocError, Global};
use std::test::Fail;

/// LDI r16,1; OUT DDRB,r16; OUT PORTB,r16; RJMP to itself.
const PROGRAM: [u16; 4] = [0xE001, 0xBB07, 0xBB08, 0xCFFF];

/// The words of the part's flash.
const WORDS: usize = 8_192;

/// The output and its end.
#[derive(Drop)]
struct Ran {
    end: ScriptEnd,
    signed: bool,
    restored: bool,
    totals: Totals,
    sink: MemSink,
    flash: MemFlash,
}

/// What is read, and which calls of the objects fail.
#[derive(Drop)]
struct Given {
    source: MemSource,
    sink: MemSink,
    page_fails: Vec<(u64, usize)>,
}

/// A source of this text, that gives it whole.
fn text_of(alloc: Global, text: &str) -> Result<MemSource, AllocError> {
    Ok(MemSource::of(
        text.as_bytes().to_vec(alloc)?,
        Vec::new(alloc),
        Vec::new(alloc),
    ))
}

fn objects(alloc: Global, text: &str) -> Result<Given, AllocError> {
    Ok(Given {
        source: text_of(alloc, text)?,
        sink: MemSink::of(alloc, Vec::new(alloc), 16_384)?,
        page_fails: Vec::new(alloc),
    })
}

/// The words of the program's flash.
fn program(alloc: Global) -> Result<Vec<u16>, AllocError>
    ensures { IfOk result (λ words. length words.items ≡ 8192) }
{
    let mut words = vec![in alloc; 0xFFFF; WORDS]?;
    words[0] = PROGRAM[0];
    words[1] = PROGRAM[1];
    words[2] = PROGRAM[2];
    words[3] = PROGRAM[3];
    Ok(words)
}

/// Runs a script over the program, in which each run has 100 steps.
fn run(alloc: Global, given: Given) -> Result<Ran, Fail> {
    let Given {
        mut source,
        mut sink,
        page_fails,
    } = given;
    let program = program(alloc)?;
    let mut stops = ArrayVec::new();
    stops.push(100);
    let flash = MemFlash::logged_part(alloc, Part::M16, page_fails, 1_024)?;
    let Ok(host) = open(alloc, program.as_slice(), flash, stops) else {
        return Err("not opened".into());
    };
    let scripted = run_session(host, &mut source, &mut sink);
    Ok(Ran {
        end: scripted.end,
        signed: scripted.signed,
        restored: scripted.restored,
        totals: scripted.totals,
        sink,
        flash: scripted.flash,
    })
}

#[test]
fn a_breakpoint_is_met(rt: HostRuntime) -> Result<(), Fail> {
    let alloc = rt.alloc();
    let ran = run(
        alloc,
        objects(alloc, "break 2\ngo\nwait\npc\nread flash 0 8\nquit\nsync\n")?,
    )?;
    assert_eq!(rt; ran.end, ScriptEnd::Done);
    let wanted = b"ok\nok\nevent 0002 cause 01\npc 0002\n0000 01e007bb08bbffcf\nok\n";
    assert_eq!(rt; ran.sink.written(), wanted.as_slice());
    assert_eq!(rt;
        ran.totals,
        Totals {
            cycles: 2,
            steps: 2,
            writes: 1,
            dropped: 0
        }
    );
    assert!(rt; ran.signed);
    assert!(rt; ran.restored);
    assert_eq!(rt; ran.flash.words().len(), WORDS);
    Ok(())
}

#[test]
fn a_wait_with_no_event_ends_the_script(rt: HostRuntime) -> Result<(), Fail> {
    let alloc = rt.alloc();
    let ran = run(alloc, objects(alloc, "wait\nsync\n")?)?;
    assert_eq!(rt; ran.end, ScriptEnd::Link);
    assert_eq!(rt; ran.sink.written(), b"! closed\n".as_slice());
    assert!(rt; !ran.signed);
    assert!(rt; ran.restored);
    Ok(())
}

/// So many lines `step`, and then one more.
fn steps(alloc: Global, count: usize) -> Result<Given, AllocError> {
    let mut text = Vec::new(alloc);
    for _ in 0..count {
        text.extend_from_slice(b"step\n")?;
    }
    text.extend_from_slice(b"sync")?;
    Ok(Given {
        source: MemSource::of(text, Vec::new(alloc), Vec::new(alloc)),
        sink: MemSink::of(alloc, Vec::new(alloc), 16_384)?,
        page_fails: Vec::new(alloc),
    })
}

#[test]
fn events_wait_up_to_a_limit(rt: HostRuntime) -> Result<(), Fail> {
    let alloc = rt.alloc();
    let kept = run(alloc, steps(alloc, 64)?)?;
    assert_eq!(rt; kept.end, ScriptEnd::Done);
    assert_eq!(rt; kept.sink.written().len(), 195);
    let full = run(alloc, steps(alloc, 65)?)?;
    assert_eq!(rt; full.end, ScriptEnd::Link);
    assert_eq!(rt; full.sink.written().len(), 195 + 14);
    assert!(rt; full.sink.written().ends_with(b"! events full\n"));
    Ok(())
}

#[test]
fn the_flash_is_programmed(rt: HostRuntime) -> Result<(), Fail> {
    let alloc = rt.alloc();
    let ran = run(
        alloc,
        objects(
            alloc,
            "erase\nprog\nerase 0\nread flash 0 2\ngo\nleave\n# done\n\nbrake 2\nsync",
        )?,
    )?;
    assert_eq!(rt; ran.end, ScriptEnd::Done);
    let wanted = b"refused a5\nok\nok\n0000 ffff\nrefused a5\nok\n? unknown 1\nok\n";
    assert_eq!(rt; ran.sink.written(), wanted.as_slice());
    assert_eq!(rt; ran.flash.words().first(), Some(&0xFFFF));
    Ok(())
}

#[test]
fn a_read_or_a_put_that_fails_ends_the_script(rt: HostRuntime) -> Result<(), Fail> {
    let alloc = rt.alloc();
    let mut fails = Vec::new(alloc);
    fails.push(2)?;
    let mut cut = Vec::new(alloc);
    cut.push(5)?;
    let mut source = objects(alloc, "")?;
    source.source = MemSource::of(b"sync\nsync\n".to_vec(alloc)?, cut, fails);
    let unread = run(alloc, source)?;
    assert_eq!(rt; unread.end, ScriptEnd::Read);
    assert_eq!(rt; unread.sink.written(), b"ok\n".as_slice());
    let mut puts = Vec::new(alloc);
    puts.push((2, 1))?;
    let mut sink = objects(alloc, "sync\nsync\nsync\n")?;
    sink.sink = MemSink::of(alloc, puts, 256)?;
    let unwritten = run(alloc, sink)?;
    assert_eq!(rt; unwritten.end, ScriptEnd::Write);
    assert_eq!(rt; unwritten.sink.written(), b"ok\no".as_slice());
    assert!(rt; unwritten.restored);
    Ok(())
}

#[test]
fn a_restore_that_fails_is_told(rt: HostRuntime) -> Result<(), Fail> {
    let alloc = rt.alloc();
    let mut fails = Vec::new(alloc);
    fails.push((3, 0))?;
    let mut failing = objects(alloc, "break 2\ngo\nwait\n")?;
    failing.page_fails = fails;
    let ran = run(alloc, failing)?;
    assert_eq!(rt; ran.end, ScriptEnd::Done);
    assert_eq!(rt;
        ran.sink.written(),
        b"ok\nok\nevent 0002 cause 01\n".as_slice()
    );
    assert!(rt; !ran.restored);
    Ok(())
}
