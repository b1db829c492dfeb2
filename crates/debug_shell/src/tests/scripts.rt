//! Scripts over a link, a source and a sink in memory.
ghost use Rattle.std.specs.Prelude.{◌≤◌};

use crate::{ScriptEnd, run_script};
use arrayvec::ArrayVec;
use host_session::Host;
use ice_base::{MemLink, MemSink, MemSource};
use ice_frame::{Frame, write_frame};
use std::alloc::{AllocError, Global};
use std::test::Fail;

/// What the tests' links and sinks have room for.
const ROOM: usize = 4_096;

/// The number of events.
const EVENT: u16 = 0xFFFF;

/// The lines of a debug session.
const SESSION: &[u8] = b"break 2\ngo\nwait\npc\nread flash 0 8\nquit\n";

/// What comes in that session, by number and body.
const COMES: [(u16, &[u8]); 6] = [
    (0, &[0x80]),
    (1, &[0x80]),
    (EVENT, &[0xE0, 0x02, 0x00, 0x00, 0x00, 0x01]),
    (2, &[0x84, 0x02, 0x00, 0x00, 0x00]),
    (3, &[0x82, 0x01, 0xE0, 0x07, 0xBB, 0x08, 0xBB, 0xFF, 0xCF]),
    (4, &[0x80]),
];

/// What is printed in that session.
const TEXTS: [&[u8]; 6] = [
    b"ok\n",
    b"ok\n",
    b"event 0002 cause 01\n",
    b"pc 0002\n",
    b"0000 01e007bb08bbffcf\n",
    b"ok\n",
];

/// The objects of a script.
#[derive(Drop)]
struct Outside {
    link: MemLink,
    source: MemSource,
    sink: MemSink,
}

/// What came of a script.
#[derive(Drop)]
struct Ran {
    end: ScriptEnd,
    link: MemLink,
    source: MemSource,
    sink: MemSink,
}

/// Adds a frame to the bytes, of a body with at most 256 bytes.
fn add(bytes: &mut Vec<u8>, number: u16, given: &[u8]) -> Result<(), AllocError> {
    let mut body = ArrayVec::new();
    for byte in given {
        if body.len() < 256 {
            body.push(*byte);
        }
    }
    let mut out = ArrayVec::new();
    write_frame(&Frame { seq: number, body }, &mut out);
    bytes.extend_from_slice(out.as_slice())
}

/// A link from which these frames come, one in each receive, and whose calls with these numbers fail.
fn link_of(
    alloc: Global,
    frames: &[(u16, &'static [u8])],
    fails: Vec<u64>,
) -> Result<MemLink, AllocError> {
    let mut incoming = Vec::new(alloc);
    let mut cuts = Vec::new(alloc);
    for (number, body) in frames {
        let before = incoming.len();
        add(&mut incoming, *number, body)?;
        cuts.push(incoming.len().saturating_sub(before))?;
    }
    MemLink::of(alloc, incoming, cuts, fails, ROOM)
}

/// A source of these lines, in pieces of this size, whose reads with these numbers fail.
fn source_of(
    alloc: Global,
    lines: &[u8],
    piece: usize,
    fails: Vec<u64>,
) -> Result<MemSource, AllocError> {
    let cuts = vec![in alloc; piece; lines.len()]?;
    Ok(MemSource::of(lines.to_vec(alloc)?, cuts, fails))
}

/// Runs the script.
fn run(alloc: Global, given: Outside) -> Result<Ran, AllocError> {
    let Outside {
        link,
        mut source,
        mut sink,
    } = given;
    let Ok(mut host) = Host::new(alloc, link) else {
        return Err(AllocError);
    };
    let end = run_script(&mut host, &mut source, &mut sink);
    Ok(Ran {
        end,
        link: host.finish(),
        source,
        sink,
    })
}

/// Objects that do not fail.
fn objects(
    alloc: Global,
    frames: &[(u16, &'static [u8])],
    lines: &[u8],
    piece: usize,
) -> Result<Outside, AllocError> {
    Ok(Outside {
        link: link_of(alloc, frames, Vec::new(alloc))?,
        source: source_of(alloc, lines, piece, Vec::new(alloc))?,
        sink: MemSink::of(alloc, Vec::new(alloc), ROOM)?,
    })
}

/// The first texts of the session, and one more.
fn texts(alloc: Global, count: usize, last: &[u8]) -> Result<Vec<u8>, AllocError> {
    let mut bytes = Vec::new(alloc);
    for text in TEXTS.iter().take(count) {
        bytes.extend_from_slice(text)?;
    }
    bytes.extend_from_slice(last)?;
    Ok(bytes)
}

#[test]
fn a_session_is_printed_however_its_lines_are_cut(rt: HostRuntime) -> Result<(), Fail> {
    let alloc = rt.alloc();
    let wanted = texts(alloc, 6, b"")?;
    for piece in [1, 2, 7, 512] {
        let ran = run(alloc, objects(alloc, &COMES, SESSION, piece)?)?;
        assert_eq!(rt; ran.end, ScriptEnd::Done);
        assert_eq!(rt; ran.sink.written(), wanted.as_slice());
    }
    Ok(())
}

#[test]
fn commands_are_sent_with_their_numbers(rt: HostRuntime) -> Result<(), Fail> {
    let alloc = rt.alloc();
    let ran = run(alloc, objects(alloc, &COMES, SESSION, 512)?)?;
    let mut wanted = Vec::new(alloc);
    add(
        &mut wanted,
        0,
        &[0x11, 0x01, 0x00, 0x02, 0x00, 0x00, 0x00, 0x00],
    )?;
    add(&mut wanted, 1, &[0x08])?;
    add(&mut wanted, 2, &[0x07])?;
    add(
        &mut wanted,
        3,
        &[0x05, 0xA0, 0x08, 0x00, 0x00, 0x00, 0x00, 0x00, 0x00, 0x00],
    )?;
    add(&mut wanted, 4, &[0x00])?;
    assert_eq!(rt; ran.link.sent(), wanted.as_slice());
    Ok(())
}

#[test]
fn a_wait_with_no_event_ends_the_script(rt: HostRuntime) -> Result<(), Fail> {
    let alloc = rt.alloc();
    let ran = run(alloc, objects(alloc, &[], b"wait\nsync\n", 512)?)?;
    assert_eq!(rt; ran.end, ScriptEnd::Link);
    assert_eq!(rt; ran.sink.written(), b"! closed\n".as_slice());
    assert_eq!(rt; ran.link.sent().len(), 0);
    Ok(())
}

#[test]
fn each_call_of_the_link_that_fails_ends_the_script(rt: HostRuntime) -> Result<(), Fail> {
    let alloc = rt.alloc();
    let table = [0, 0, 1, 1, 2, 3, 3, 4, 4, 5, 5];
    let mut call = 0u64;
    for count in table {
        call = call.saturating_add(1);
        let mut given = objects(alloc, &COMES, SESSION, 512)?;
        given.link = link_of(alloc, &COMES, vec![in alloc; call]?)?;
        let ran = run(alloc, given)?;
        assert_eq!(rt; ran.end, ScriptEnd::Link);
        assert_eq!(rt;
            ran.sink.written(),
            texts(alloc, count, b"! link\n")?.as_slice()
        );
        assert_eq!(rt; ran.link.faults(), 1);
    }
    Ok(())
}

#[test]
fn a_put_that_fails_ends_the_script(rt: HostRuntime) -> Result<(), Fail> {
    let alloc = rt.alloc();
    for (put, taken, front) in [
        (1u64, 0, b"".as_slice()),
        (1, 2, b"ok"),
        (3, 4, b"ok\nok\neven"),
        (6, 0, b""),
    ] {
        let mut given = objects(alloc, &COMES, SESSION, 512)?;
        given.sink = MemSink::of(alloc, vec![in alloc; (put, taken)]?, ROOM)?;
        let ran = run(alloc, given)?;
        assert_eq!(rt; ran.end, ScriptEnd::Write);
        if put < 6 {
            assert_eq!(rt; ran.sink.written(), front);
        } else {
            assert_eq!(rt; ran.sink.written(), texts(alloc, 5, front)?.as_slice());
        }
    }
    Ok(())
}

#[test]
fn a_source_that_fails_leaves_its_open_line(rt: HostRuntime) -> Result<(), Fail> {
    let alloc = rt.alloc();
    let mut given = objects(alloc, &COMES, SESSION, 512)?;
    given.source = source_of(alloc, SESSION, 10, vec![in alloc; 2]?)?;
    let ran = run(alloc, given)?;
    assert_eq!(rt; ran.end, ScriptEnd::Read);
    assert_eq!(rt; ran.sink.written(), b"ok\n".as_slice());
    assert_eq!(rt; ran.source.faults(), 1);
    Ok(())
}

#[test]
fn a_last_line_needs_no_end(rt: HostRuntime) -> Result<(), Fail> {
    let alloc = rt.alloc();
    let frames: [(u16, &'static [u8]); 1] = [(0, &[0xA5])];
    let ran = run(
        alloc,
        objects(
            alloc,
            &frames,
            b"\n# nothing\r\nbrake 2\r\nbreak 2 5 7\ngo",
            7,
        )?,
    )?;
    assert_eq!(rt; ran.end, ScriptEnd::Done);
    assert_eq!(rt;
        ran.sink.written(),
        b"? unknown 1\n? extra 11\nrefused a5\n".as_slice()
    );
    let ran = run(alloc, objects(alloc, &frames, b"go\r", 512)?)?;
    assert_eq!(rt; ran.end, ScriptEnd::Done);
    assert_eq!(rt; ran.sink.written(), b"? unknown 1\n".as_slice());
    Ok(())
}

#[test]
fn what_the_tool_tells_is_printed(rt: HostRuntime) -> Result<(), Fail> {
    let alloc = rt.alloc();
    let frames: [(u16, &'static [u8]); 4] = [
        (
            0,
            b"\x86\x01\x01\x00\x06\x01\x01\x00\x06\x01\x00\x00\x00\x00\x00\x01JTAG\x07mkII\x00",
        ),
        (1, &[0x81, 0x88, 0x13]),
        (2, &[0x82]),
        (3, &[0x99]),
    ];
    let ran = run(
        alloc,
        objects(
            alloc,
            &frames,
            b"sign\nget 6\nread sram 60 0\nsync\nsync\n",
            512,
        )?,
    )?;
    assert_eq!(rt; ran.end, ScriptEnd::Link);
    assert_eq!(rt;
        ran.sink.written(),
        b"sign JTAG.mkII\nvalue 8813\n! bad reply\n".as_slice()
    );
    Ok(())
}

#[test]
fn the_flash_is_programmed(rt: HostRuntime) -> Result<(), Fail> {
    let alloc = rt.alloc();
    let mut lines = b"prog\nerase\nerase 80\npage 80 ".to_vec(alloc)?;
    for _ in 0..128u32 {
        lines.extend_from_slice(b"5A")?;
    }
    lines.extend_from_slice(b"\nleave\nquit\nsync\n")?;
    let frames: [(u16, &'static [u8]); 6] = [
        (0, &[0x80]),
        (1, &[0x80]),
        (2, &[0xA3]),
        (3, &[0x80]),
        (4, &[0x80]),
        (5, &[0x80]),
    ];
    let ran = run(alloc, objects(alloc, &frames, lines.as_slice(), 512)?)?;
    assert_eq!(rt; ran.end, ScriptEnd::Done);
    assert_eq!(rt;
        ran.sink.written(),
        b"ok\nok\nrefused a3\nok\nok\nok\n".as_slice()
    );
    let mut page = b"\x04\xB0\x80\x00\x00\x00\x80\x00\x00\x00".to_vec(alloc)?;
    for _ in 0..128u32 {
        page.push(0x5A)?;
    }
    let mut wanted = Vec::new(alloc);
    add(&mut wanted, 0, &[0x14])?;
    add(&mut wanted, 1, &[0x13])?;
    add(&mut wanted, 2, &[0x0D, 0x80, 0x00, 0x00, 0x00])?;
    add(&mut wanted, 3, page.as_slice())?;
    add(&mut wanted, 4, &[0x15])?;
    add(&mut wanted, 5, &[0x00])?;
    assert_eq!(rt; ran.link.sent(), wanted.as_slice());
    Ok(())
}

#[test]
fn a_line_of_321_bytes_is_long(rt: HostRuntime) -> Result<(), Fail> {
    let alloc = rt.alloc();
    let mut lines = vec![in alloc; b' '; 318]?;
    lines.extend_from_slice(b"go\r\n")?;
    for _ in 0..1_000u32 {
        lines.push(b' ')?;
    }
    lines.extend_from_slice(b"\n")?;
    let frames: [(u16, &'static [u8]); 1] = [(0, &[0x80])];
    let ran = run(alloc, objects(alloc, &frames, lines.as_slice(), 100)?)?;
    assert_eq!(rt; ran.end, ScriptEnd::Done);
    assert_eq!(rt; ran.sink.written(), b"ok\n? long\n".as_slice());
    Ok(())
}

#[test]
fn a_script_has_at_most_67108864_bytes(rt: HostRuntime) -> Result<(), Fail> {
    let alloc = rt.alloc();
    let mut given = objects(alloc, &[], b"", 512)?;
    let mut lines = vec![in alloc; 0u8; 67_108_865]?;
    lines[2] = b'\n';
    given.source = MemSource::of(lines, Vec::new(alloc), Vec::new(alloc));
    let ran = run(alloc, given)?;
    assert_eq!(rt; ran.end, ScriptEnd::TooLong);
    assert_eq!(rt; ran.sink.written(), b"? unknown 1\n".as_slice());
    Ok(())
}
