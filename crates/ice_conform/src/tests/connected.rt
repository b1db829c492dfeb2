//! The shell over a link to a debugger that runs elsewhere: what comes over the link is worked by hand.
use super::talk::{BREAK_AT_2, GO, LIGHT_READ, OKAY, READ_WORDS, SIGN_OFF, Talk};
use ice_base::{MemLink, MemSink, MemSource};
use ice_top::{Connected, Status, ice2_connect};
use std::alloc::{AllocError, Global};
use std::test::Fail;

/// The lines of a shell that meets the breakpoint at word 2 of the light, and what it prints.
const LINES: &str = "break 2\ngo\nwait\npc\nread flash 0 8\nquit\n";

const PRINTED: &str = "ok\nok\nevent 0002 cause 01\npc 0002\n0000 01e007bb08bbffcf\nok\n";

/// READ_PC, and its reply where the target stands at word 2.
const READ_PC: &[u8] = &[0x07];

const AT_2: &[u8] = &[0x84, 0x02, 0x00, 0x00, 0x00];

/// What the shell sends, and what comes.
fn talk_of_light(alloc: Global) -> Result<Talk, AllocError> {
    Talk::of(
        alloc,
        &[
            (BREAK_AT_2, OKAY, None),
            (GO, OKAY, Some((2, 0x01))),
            (READ_PC, AT_2, None),
            (READ_WORDS, LIGHT_READ, None),
            (SIGN_OFF, OKAY, None),
        ],
    )
}

/// What came of a shell.
#[derive(Drop)]
struct Outcome {
    status: Status,
    sent: Vec<u8>,
    printed: MemSink,
    notes: MemSink,
}

/// Runs these lines over a link from which these bytes come, whose listed calls fail.
fn shelled(
    alloc: Global,
    command: &[&str],
    incoming: Vec<u8>,
    fails: Vec<u64>,
) -> Result<Outcome, AllocError> {
    let mut words = Vec::new(alloc);
    for text in command {
        words.push(String::from_str(alloc, text)?)?;
    }
    let link = MemLink::of(alloc, incoming, Vec::new(alloc), fails, 4096)?;
    let lines = LINES.as_bytes().to_vec(alloc)?;
    let mut source = MemSource::of(lines, Vec::new(alloc), Vec::new(alloc));
    let mut printed = MemSink::of(alloc, Vec::new(alloc), 4096)?;
    let mut notes = MemSink::of(alloc, Vec::new(alloc), 256)?;
    let Connected { status, link } = ice2_connect(
        alloc,
        words.as_slice(),
        link,
        &mut source,
        &mut printed,
        &mut notes,
    );
    Ok(Outcome {
        status,
        sent: link.sent().to_vec(alloc)?,
        printed,
        notes,
    })
}

#[test]
fn lines_are_answered_from_the_other_end(rt: HostRuntime) -> Result<(), Fail> {
    let alloc = rt.alloc();
    let talk = talk_of_light(alloc)?;
    let came = shelled(alloc, &["connect", "4711"], talk.sent, Vec::new(alloc))?;
    assert_eq!(rt; came.status, Status::Okay);
    assert_eq!(rt; came.printed.written(), PRINTED.as_bytes());
    assert_eq!(rt; came.sent.as_slice(), talk.line.as_slice());
    assert_eq!(rt; came.notes.written(), [].as_slice());
    Ok(())
}

#[test]
fn a_link_that_fails_ends_the_shell(rt: HostRuntime) -> Result<(), Fail> {
    let alloc = rt.alloc();
    let talk = talk_of_light(alloc)?;
    let fails = vec![in alloc; 1u64]?;
    let came = shelled(alloc, &["connect", "4711"], talk.sent, fails)?;
    assert_eq!(rt; came.status, Status::Link);
    assert_eq!(rt; came.printed.written(), b"! link\n".as_slice());
    assert_eq!(rt; came.sent.as_slice(), [].as_slice());
    Ok(())
}

#[test]
fn other_words_are_no_shell(rt: HostRuntime) -> Result<(), Fail> {
    let alloc = rt.alloc();
    for words in [
        ["connect", "0"],
        ["connect", "65536"],
        ["connect", "04711"],
        ["frames", "4711"],
    ] {
        let came = shelled(alloc, words.as_slice(), Vec::new(alloc), Vec::new(alloc))?;
        assert_eq!(rt; came.status, Status::Usage);
        assert_eq!(rt; came.notes.written(), b"usage\n".as_slice());
        assert_eq!(rt; came.printed.written(), [].as_slice());
    }
    Ok(())
}
