//! Words, openings, notes and statuses, by whole calls over objects in memory. Whole sessions are the tests of `ice_conform`.

mod openings;
mod records;
mod texts;

use crate::{Status, ice2, part_of};
use ice_base::{MapLoader, MemFlash, MemSink, MemSource};
use std::alloc::{AllocError, Global};
use std::test::Fail;

/// LDI r16,1; OUT DDRB,r16; OUT PORTB,r16; RJMP to itself.
const IMAGE: [u8; 8] = [0x01, 0xE0, 0x07, 0xBB, 0x08, 0xBB, 0xFF, 0xCF];

/// What came of a call.
#[derive(Drop)]
struct Ran {
    status: Status,
    sent: MemSink,
    notes: MemSink,
    left: usize,
    flash: MemFlash,
}

/// The objects of a call: what they hold, and which of their calls fail.
#[derive(Drop)]
struct Outside {
    image: Vec<u8>,
    source: MemSource,
    notes: MemSink,
    /// The page writes that fail, by number from 1, and how many words of the page each sets.
    fails: Vec<(u64, usize)>,
}

/// A source of a line.
fn line_in(alloc: Global, line: &[u8]) -> Result<MemSource, AllocError> {
    let bytes = line.to_vec(alloc)?;
    Ok(MemSource::of(bytes, Vec::new(alloc), Vec::new(alloc)))
}

fn objects(alloc: Global, line: &[u8]) -> Result<Outside, AllocError> {
    Ok(Outside {
        image: IMAGE.to_vec(alloc)?,
        source: line_in(alloc, line)?,
        notes: MemSink::of(alloc, Vec::new(alloc), 256)?,
        fails: Vec::new(alloc),
    })
}

/// Room for the page writes that a call makes: all pages of the larger part, and some.
const JOURNAL: usize = 320;

/// Calls `ice2` with these words, where each name that the tests use has the image's content.
fn call(alloc: Global, words: &[&str], given: Outside) -> Result<Ran, AllocError> {
    let Outside {
        image,
        mut source,
        mut notes,
        fails,
    } = given;
    let mut sink = MemSink::of(alloc, Vec::new(alloc), 256)?;
    let mut pairs = Vec::new(alloc);
    for name in ["p.bin", "p.hex", "m32"] {
        pairs.push((String::from_str(alloc, name)?, image.clone()?))?;
    }
    let mut loader = MapLoader::of(pairs);
    let texts = texts_of(alloc, words)?;
    let words = texts.as_slice();
    let part = part_of(words);
    let flash = MemFlash::logged_part(alloc, part, fails, JOURNAL)?;
    let ended = ice2(
        alloc,
        words,
        &mut loader,
        &mut source,
        &mut sink,
        &mut notes,
        flash,
    );
    Ok(Ran {
        status: ended.status,
        sent: sink,
        notes,
        left: source.left().len(),
        flash: ended.flash,
    })
}

fn texts_of(alloc: Global, words: &[&str]) -> Result<Vec<String>, AllocError> {
    let mut texts = Vec::new(alloc);
    for word in words {
        texts.push(String::from_str(alloc, word)?)?;
    }
    Ok(texts)
}

const WORDS: [&str; 3] = ["replay", "p.bin", "100"];

/// GET_SIGN_ON with number 0 and SIGN_OFF with number 1.
const SESSION: [u8; 22] = [
    0x1B, 0x00, 0x00, 0x01, 0x00, 0x00, 0x00, 0x0E, 0x01, 0xF3, 0x97, 0x1B, 0x01, 0x00, 0x01, 0x00,
    0x00, 0x00, 0x0E, 0x00, 0xC5, 0x07,
];

/// Their replies, of 38 and 11 bytes.
const REPLIES: [u8; 49] = [
    0x1B, 0x00, 0x00, 0x1C, 0x00, 0x00, 0x00, 0x0E, 0x86, 0x01, 0x01, 0x00, 0x06, 0x01, 0x01, 0x00,
    0x06, 0x01, 0x00, 0x00, 0x00, 0x00, 0x00, 0x01, 0x4A, 0x54, 0x41, 0x47, 0x49, 0x43, 0x45, 0x6D,
    0x6B, 0x49, 0x49, 0x00, 0xF8, 0x01, 0x1B, 0x01, 0x00, 0x01, 0x00, 0x00, 0x00, 0x0E, 0x80, 0xCD,
    0x83,
];

#[test]
fn a_session_is_noted(rt: HostRuntime) -> Result<(), Fail> {
    let alloc = rt.alloc();
    let ran = call(alloc, &WORDS, objects(alloc, &SESSION)?)?;
    assert_eq!(rt; ran.status, Status::Okay);
    assert_eq!(rt; ran.sent.written(), REPLIES.as_slice());
    let totals = b"cycles 0 steps 0 writes 0 dropped 0\n";
    assert_eq!(rt; ran.notes.written(), totals.as_slice());
    Ok(())
}

#[test]
fn the_notes_may_fail(rt: HostRuntime) -> Result<(), Fail> {
    let alloc = rt.alloc();
    let mut fails = Vec::new(alloc);
    fails.push((1, 7))?;
    let mut given = objects(alloc, &SESSION)?;
    given.notes = MemSink::of(alloc, fails, 256)?;
    let ran = call(alloc, &WORDS, given)?;
    assert_eq!(rt; ran.status, Status::Write);
    assert_eq!(rt; ran.sent.written(), REPLIES.as_slice());
    assert_eq!(rt; ran.notes.written(), b"cycles ".as_slice());
    Ok(())
}

#[test]
fn each_status_has_its_code(rt: HostRuntime) {
    assert_eq!(rt; Status::Okay.code(), 0);
    assert_eq!(rt; Status::Usage.code(), 2);
    assert_eq!(rt; Status::TooLong.code(), 9);
    assert_eq!(rt; Status::Link.code(), 11);
    assert_eq!(rt; Status::Refuted.code(), 14);
}
