//! Sessions with a client, whose line and target each run on a thread of its own.
ghost use Rattle.std.specs.Prelude.{IfOk};
ghost use Rattle.ice_top.specs.Words.{SaysFor, texts};

use super::held::{LOOP, LOOPED, image_of};
use super::talk::{GO, OKAY, SIGN_OFF, STOP, Talk, put_frame};
use super::waiting::{Holding, Patient, Telling, Told};
use ice_base::{FnSpawner, MapLoader, MemFlash, MemSink, MemSource, OpenGate, begin_on_thread};
use ice_inbox::{LineWork, TargetWork};
use ice_top::{Status, ice2_serve, part_of};
use part_spec::Part;
use std::alloc::{AllocError, Global};
use std::sync::Arc;
use std::sync::atomic::{AtomicU64, Ordering};
use std::test::Fail;

/// The number of bytes of a frame whose body is one byte.
const SHORT_FRAME: u64 = 11;

/// That of a break event.
const EVENT_FRAME: u64 = 16;

/// A count that threads share.
fn count(alloc: Global) -> Result<Told, AllocError> {
    Ok(Arc::new(alloc, AtomicU64::new(0))?)
}

/// The words of a session with a client.
fn call_words(alloc: Global, texts: &[&str]) -> Result<Vec<String>, AllocError> {
    let mut words = Vec::new(alloc);
    for text in texts {
        words.push(String::from_str(alloc, text)?)?;
    }
    Ok(words)
}

/// An erased flash of the part that the words say.
fn fresh_flash(alloc: Global, words: &[String]) -> Result<MemFlash, AllocError>
    ensures { IfOk result (λ flash. SaysFor (texts words.now) flash.part) }
{
    let flash = MemFlash::of_part(alloc, part_of(words), Vec::new(alloc))?;
    Ok(flash)
}

/// A loader of the program that jumps to itself.
fn loop_loader(alloc: Global) -> Result<MapLoader, AllocError> {
    let mut pairs = Vec::new(alloc);
    pairs.push((String::from_str(alloc, "p.bin")?, image_of(alloc, LOOP)?))?;
    Ok(MapLoader::of(pairs))
}

/// GO, GET_SYNC, FORCED_STOP with its event, and SIGN_OFF: the target turns once and waits until GET_SYNC is answered, and the client signs
/// off once it has the event.
#[test]
fn a_forced_stop_arrives_while_the_target_runs(rt: HostRuntime) -> Result<(), Fail> {
    let alloc = rt.alloc();
    let mut talk = Talk::of(
        alloc,
        &[
            (GO, OKAY, None),
            (&[0x0F], OKAY, None),
            (STOP, OKAY, Some((0, 0x02))),
        ],
    )?;
    let mut last = Vec::new(alloc);
    put_frame(&mut last, 3, SIGN_OFF)?;
    put_frame(&mut talk.sent, 3, OKAY)?;
    let told = count(alloc)?;
    let ran_out = count(alloc)?;
    let source = Patient::of(
        talk.line,
        last,
        Arc::try_clone(&told)?,
        3 * SHORT_FRAME + EVENT_FRAME,
    );
    let gate = Holding::of(
        Arc::try_clone(&told)?,
        2 * SHORT_FRAME,
        Arc::try_clone(&ran_out)?,
    );
    let mut sink = Telling::of(MemSink::of(alloc, Vec::new(alloc), 4096)?, told);
    let mut notes = MemSink::of(alloc, Vec::new(alloc), 256)?;
    let mut loader = loop_loader(alloc)?;
    let texts = call_words(alloc, &["serve", "4711", "p.bin"])?;
    let words = texts.as_slice();
    let flash = fresh_flash(alloc, words)?;
    let targets = FnSpawner::of(move |work: TargetWork<
        MemFlash,
        Holding,
        HostRuntime,
    >| begin_on_thread(rt, alloc, work));
    let mut lines = FnSpawner::of(move |work: LineWork<Patient, HostRuntime>| begin_on_thread(
        rt, alloc, work,
    ));
    let served = ice2_serve(
        &rt,
        alloc,
        words,
        &mut loader,
        source,
        &mut sink,
        &mut notes,
        flash,
        gate,
        targets,
        &mut lines,
    );
    assert_eq!(rt; served.status, Status::Okay);
    assert_eq!(rt; sink.written(), talk.sent.as_slice());
    assert_eq!(rt; ran_out.load(Ordering::SeqCst), 0u64);
    assert_eq!(rt; notes.written(), [].as_slice());
    let left = LOOPED.flash(alloc, Part::M16)?;
    assert!(rt; served.flash.words() == left.as_slice());
    Ok(())
}

/// Where no thread of the line can be started, the flash is the program, and nothing was read or sent.
#[test]
fn a_line_without_a_thread_is_not_served(rt: HostRuntime) -> Result<(), Fail> {
    let alloc = rt.alloc();
    let mut line = Vec::new(alloc);
    put_frame(&mut line, 0, SIGN_OFF)?;
    let all = line.len();
    let source = MemSource::of(line, Vec::new(alloc), Vec::new(alloc));
    let mut sink = MemSink::of(alloc, Vec::new(alloc), 256)?;
    let mut notes = MemSink::of(alloc, Vec::new(alloc), 256)?;
    let mut loader = loop_loader(alloc)?;
    let texts = call_words(alloc, &["serve", "1", "p.bin", "m16"])?;
    let words = texts.as_slice();
    let flash = fresh_flash(alloc, words)?;
    let targets = FnSpawner::of(move |work: TargetWork<
        MemFlash,
        OpenGate,
        HostRuntime,
    >| begin_on_thread(rt, alloc, work));
    let may_begin = false;
    let mut lines = FnSpawner::of(move |work: LineWork<MemSource, HostRuntime>| {
        if may_begin {
            return begin_on_thread(rt, alloc, work);
        }
        Err(work)
    });
    let served = ice2_serve(
        &rt,
        alloc,
        words,
        &mut loader,
        source,
        &mut sink,
        &mut notes,
        flash,
        OpenGate,
        targets,
        &mut lines,
    );
    assert_eq!(rt; served.status, Status::NoThread);
    assert_eq!(rt; notes.written(), b"thread\n".as_slice());
    assert_eq!(rt; sink.written(), [].as_slice());
    assert_eq!(rt; served.source.left().len(), all);
    let left = LOOPED.flash(alloc, Part::M16)?;
    assert!(rt; served.flash.words() == left.as_slice());
    Ok(())
}
