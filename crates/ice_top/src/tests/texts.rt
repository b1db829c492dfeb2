//! Texts to assemble: which words do so, for which part, and what stands in the notes.
use super::{IMAGE, Ran, call, objects};
use crate::Status;
use ice_base::MemSource;
use std::alloc::{AllocError, Global};
use std::test::Fail;

/// Words, a text, and how the call ends.
struct Row {
    words: &'static [&'static str],
    text: &'static [u8],
    status: Status,
    note: &'static [u8],
}

static REFUSED: [Row; 7] = [
    Row {
        words: &["asm"],
        text: b"rjmp far",
        status: Status::Image,
        note: b"asm: line 1 name\n",
    },
    Row {
        words: &["asm", "m16"],
        text: b"nop\nldi r15, 1",
        status: Status::Image,
        note: b"asm: line 2 value\n",
    },
    Row {
        words: &["asm"],
        text: b"nop\n.org 0\nnop",
        status: Status::Image,
        note: b"asm: line 3 overlap\n",
    },
    Row {
        words: &["asm"],
        text: b"jmp 0x2000",
        status: Status::Image,
        note: b"asm: line 1 value\n",
    },
    Row {
        words: &["asm", "m17"],
        text: b"nop",
        status: Status::Usage,
        note: b"usage\n",
    },
    Row {
        words: &["asm", "p.bin"],
        text: b"nop",
        status: Status::Usage,
        note: b"usage\n",
    },
    Row {
        words: &["asm", "m16", "m16"],
        text: b"nop",
        status: Status::Usage,
        note: b"usage\n",
    },
];

/// What comes of these words and this text.
fn assembled(alloc: Global, words: &[&str], text: &[u8]) -> Result<Ran, AllocError> {
    call(alloc, words, objects(alloc, text)?)
}

#[test]
fn a_wrong_text_is_noted(rt: HostRuntime) -> Result<(), Fail> {
    for row in &REFUSED {
        let ran = assembled(rt.alloc(), row.words, row.text)?;
        assert_eq!(rt; ran.status, row.status);
        assert_eq!(rt; ran.notes.written(), row.note);
        assert!(rt; ran.sent.written().is_empty());
    }
    Ok(())
}

/// LDI r16,1; OUT DDRB,r16; OUT PORTB,r16; RJMP to itself.
const TEXT: &[u8] = b"start: ldi r16, 0x01\nout 0x17, r16\nout 0x18,r16\nhere: rjmp here\n";

#[test]
fn an_image_is_assembled(rt: HostRuntime) -> Result<(), Fail> {
    let ran = assembled(rt.alloc(), &["asm"], TEXT)?;
    assert_eq!(rt; ran.status, Status::Okay);
    assert_eq!(rt; ran.sent.written(), IMAGE.as_slice());
    assert!(rt; ran.notes.written().is_empty());
    assert!(rt; ran.flash.journal().is_empty());
    Ok(())
}

#[test]
fn a_text_is_for_a_part(rt: HostRuntime) -> Result<(), Fail> {
    let ran = assembled(rt.alloc(), &["asm", "m32"], b"jmp 0x2000")?;
    assert_eq!(rt; ran.status, Status::Okay);
    assert_eq!(rt; ran.sent.written(), b"\x0C\x94\x00\x20".as_slice());
    Ok(())
}

#[test]
fn a_failed_read_of_a_text_is_told(rt: HostRuntime) -> Result<(), Fail> {
    let alloc = rt.alloc();
    let mut given = objects(alloc, &[])?;
    given.source = MemSource::of(TEXT.to_vec(alloc)?, Vec::new(alloc), vec![in alloc; 1]?);
    let ran = call(alloc, &["asm"], given)?;
    assert_eq!(rt; ran.status, Status::Read);
    assert!(rt; ran.sent.written().is_empty());
    assert!(rt; ran.notes.written().is_empty());
    assert_eq!(rt; ran.left, TEXT.len());
    Ok(())
}
