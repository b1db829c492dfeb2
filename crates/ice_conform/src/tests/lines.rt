//! Lines byte for byte: frames, what stands in their place, and junk. The checks are worked out by a script of its own.
use super::call::{Case, READS, Wanted, assert_came, replay, replay_from};
use super::held::{Journal, LIGHT, LIT, OPENED, RESTORED_ONCE};
use super::talk::{OKAY, SIGN_OFF, put_frame};
use ice_base::MemSource;
use ice_top::Status;
use std::alloc::{AllocError, Global};
use std::process::Abort;
use std::test::Fail;

/// A line, and what it comes to.
struct Line {
    name: &'static str,
    line: &'static [u8],
    sent: &'static [u8],
    notes: &'static str,
    journal: Journal,
}

static LINES: [Line; 16] = [
    Line {
        name: "the empty line",
        line: &[],
        sent: &[],
        notes: "cycles 0 steps 0 writes 0 dropped 0\n",
        journal: OPENED,
    },
    Line {
        name: "sign-on",
        line: &[
            0x1B, 0x00, 0x00, 0x01, 0x00, 0x00, 0x00, 0x0E, 0x01, 0xF3, 0x97,
        ],
        sent: &[
            0x1B, 0x00, 0x00, 0x1C, 0x00, 0x00, 0x00, 0x0E, 0x86, 0x01, 0x01, 0x00, 0x06, 0x01,
            0x01, 0x00, 0x06, 0x01, 0x00, 0x00, 0x00, 0x00, 0x00, 0x01, 0x4A, 0x54, 0x41, 0x47,
            0x49, 0x43, 0x45, 0x6D, 0x6B, 0x49, 0x49, 0x00, 0xF8, 0x01,
        ],
        notes: "cycles 0 steps 0 writes 0 dropped 0\n",
        journal: OPENED,
    },
    Line {
        name: "sign-off",
        line: &[
            0x1B, 0x00, 0x00, 0x01, 0x00, 0x00, 0x00, 0x0E, 0x00, 0x7A, 0x86,
        ],
        sent: &[
            0x1B, 0x00, 0x00, 0x01, 0x00, 0x00, 0x00, 0x0E, 0x80, 0x72, 0x02,
        ],
        notes: "cycles 0 steps 0 writes 0 dropped 0\n",
        journal: OPENED,
    },
    Line {
        name: "a breakpoint is met",
        line: &[
            0x1B, 0x00, 0x00, 0x08, 0x00, 0x00, 0x00, 0x0E, 0x11, 0x01, 0x00, 0x02, 0x00, 0x00,
            0x00, 0x00, 0x1C, 0x9E, 0x1B, 0x01, 0x00, 0x01, 0x00, 0x00, 0x00, 0x0E, 0x08, 0x8D,
            0x8B, 0x1B, 0x02, 0x00, 0x01, 0x00, 0x00, 0x00, 0x0E, 0x00, 0x15, 0x8D,
        ],
        sent: &[
            0x1B, 0x00, 0x00, 0x01, 0x00, 0x00, 0x00, 0x0E, 0x80, 0x72, 0x02, 0x1B, 0x01, 0x00,
            0x01, 0x00, 0x00, 0x00, 0x0E, 0x80, 0xCD, 0x83, 0x1B, 0xFF, 0xFF, 0x06, 0x00, 0x00,
            0x00, 0x0E, 0xE0, 0x02, 0x00, 0x00, 0x00, 0x01, 0x4F, 0x2A, 0x1B, 0x02, 0x00, 0x01,
            0x00, 0x00, 0x00, 0x0E, 0x80, 0x1D, 0x09,
        ],
        notes: "cycles 2 steps 2 writes 1 dropped 0\n",
        journal: RESTORED_ONCE,
    },
    Line {
        name: "sign-on, the program, sign-off",
        line: &[
            0x1B, 0x00, 0x00, 0x01, 0x00, 0x00, 0x00, 0x0E, 0x01, 0xF3, 0x97, 0x1B, 0x01, 0x00,
            0x0A, 0x00, 0x00, 0x00, 0x0E, 0x05, 0xA0, 0x08, 0x00, 0x00, 0x00, 0x00, 0x00, 0x00,
            0x00, 0x47, 0xC7, 0x1B, 0x02, 0x00, 0x01, 0x00, 0x00, 0x00, 0x0E, 0x00, 0x15, 0x8D,
        ],
        sent: &[
            0x1B, 0x00, 0x00, 0x1C, 0x00, 0x00, 0x00, 0x0E, 0x86, 0x01, 0x01, 0x00, 0x06, 0x01,
            0x01, 0x00, 0x06, 0x01, 0x00, 0x00, 0x00, 0x00, 0x00, 0x01, 0x4A, 0x54, 0x41, 0x47,
            0x49, 0x43, 0x45, 0x6D, 0x6B, 0x49, 0x49, 0x00, 0xF8, 0x01, 0x1B, 0x01, 0x00, 0x09,
            0x00, 0x00, 0x00, 0x0E, 0x82, 0x01, 0xE0, 0x07, 0xBB, 0x08, 0xBB, 0xFF, 0xCF, 0xBD,
            0x6F, 0x1B, 0x02, 0x00, 0x01, 0x00, 0x00, 0x00, 0x0E, 0x80, 0x1D, 0x09,
        ],
        notes: "cycles 0 steps 0 writes 0 dropped 0\n",
        journal: OPENED,
    },
    Line {
        name: "an empty body",
        line: &[0x1B, 0x00, 0x00, 0x00, 0x00, 0x00, 0x00, 0x0E, 0xE6, 0x69],
        sent: &[
            0x1B, 0x00, 0x00, 0x01, 0x00, 0x00, 0x00, 0x0E, 0xAA, 0x2A, 0x8C,
        ],
        notes: "cycles 0 steps 0 writes 0 dropped 0\n",
        journal: OPENED,
    },
    Line {
        name: "the number of events",
        line: &[
            0x1B, 0xFF, 0xFF, 0x01, 0x00, 0x00, 0x00, 0x0E, 0x01, 0x7F, 0xEB,
        ],
        sent: &[],
        notes: "cycles 0 steps 0 writes 0 dropped 11\n",
        journal: OPENED,
    },
    Line {
        name: "the greatest number of a request",
        line: &[
            0x1B, 0xFE, 0xFF, 0x01, 0x00, 0x00, 0x00, 0x0E, 0x01, 0xC0, 0x6A,
        ],
        sent: &[
            0x1B, 0xFE, 0xFF, 0x1C, 0x00, 0x00, 0x00, 0x0E, 0x86, 0x01, 0x01, 0x00, 0x06, 0x01,
            0x01, 0x00, 0x06, 0x01, 0x00, 0x00, 0x00, 0x00, 0x00, 0x01, 0x4A, 0x54, 0x41, 0x47,
            0x49, 0x43, 0x45, 0x6D, 0x6B, 0x49, 0x49, 0x00, 0xF8, 0xCF,
        ],
        notes: "cycles 0 steps 0 writes 0 dropped 0\n",
        journal: OPENED,
    },
    Line {
        name: "a frame inside a damaged one",
        line: &[
            0x1B, 0x05, 0x00, 0x0B, 0x00, 0x00, 0x00, 0x0E, 0x1B, 0x00, 0x00, 0x01, 0x00, 0x00,
            0x00, 0x0E, 0x01, 0xF3, 0x97, 0x00, 0x00,
        ],
        sent: &[
            0x1B, 0x00, 0x00, 0x1C, 0x00, 0x00, 0x00, 0x0E, 0x86, 0x01, 0x01, 0x00, 0x06, 0x01,
            0x01, 0x00, 0x06, 0x01, 0x00, 0x00, 0x00, 0x00, 0x00, 0x01, 0x4A, 0x54, 0x41, 0x47,
            0x49, 0x43, 0x45, 0x6D, 0x6B, 0x49, 0x49, 0x00, 0xF8, 0x01,
        ],
        notes: "cycles 0 steps 0 writes 0 dropped 10\n",
        journal: OPENED,
    },
    Line {
        name: "the same one undamaged",
        line: &[
            0x1B, 0x05, 0x00, 0x0B, 0x00, 0x00, 0x00, 0x0E, 0x1B, 0x00, 0x00, 0x01, 0x00, 0x00,
            0x00, 0x0E, 0x01, 0xF3, 0x97, 0xA5, 0xC9,
        ],
        sent: &[
            0x1B, 0x05, 0x00, 0x01, 0x00, 0x00, 0x00, 0x0E, 0xAA, 0x4B, 0x1B,
        ],
        notes: "cycles 0 steps 0 writes 0 dropped 0\n",
        journal: OPENED,
    },
    Line {
        name: "a size that is too large",
        line: &[
            0x1B, 0x00, 0x00, 0xFF, 0xFF, 0xFF, 0xFF, 0x0E, 0x1B, 0x00, 0x00, 0x01, 0x00, 0x00,
            0x00, 0x0E, 0x01, 0xF3, 0x97,
        ],
        sent: &[
            0x1B, 0x00, 0x00, 0x1C, 0x00, 0x00, 0x00, 0x0E, 0x86, 0x01, 0x01, 0x00, 0x06, 0x01,
            0x01, 0x00, 0x06, 0x01, 0x00, 0x00, 0x00, 0x00, 0x00, 0x01, 0x4A, 0x54, 0x41, 0x47,
            0x49, 0x43, 0x45, 0x6D, 0x6B, 0x49, 0x49, 0x00, 0xF8, 0x01,
        ],
        notes: "cycles 0 steps 0 writes 0 dropped 8\n",
        journal: OPENED,
    },
    Line {
        name: "less than a frame",
        line: &[0x1B, 0x00, 0x00, 0x01, 0x00, 0x00, 0x00, 0x0E, 0x01, 0xF3],
        sent: &[],
        notes: "cycles 0 steps 0 writes 0 dropped 10\n",
        journal: OPENED,
    },
    Line {
        name: "a wrong check byte",
        line: &[
            0x1B, 0x00, 0x00, 0x01, 0x00, 0x00, 0x00, 0x0E, 0x01, 0xF3, 0x98,
        ],
        sent: &[],
        notes: "cycles 0 steps 0 writes 0 dropped 11\n",
        journal: OPENED,
    },
    Line {
        name: "a byte ahead of a frame, and two of one that does not come",
        line: &[
            0x55, 0x1B, 0x00, 0x00, 0x01, 0x00, 0x00, 0x00, 0x0E, 0x0F, 0x8D, 0x7E, 0x1B, 0x00,
        ],
        sent: &[
            0x1B, 0x00, 0x00, 0x01, 0x00, 0x00, 0x00, 0x0E, 0x80, 0x72, 0x02,
        ],
        notes: "cycles 0 steps 0 writes 0 dropped 3\n",
        journal: OPENED,
    },
    Line {
        name: "a sign-off with a frame and more behind it",
        line: &[
            0x1B, 0x00, 0x00, 0x01, 0x00, 0x00, 0x00, 0x0E, 0x00, 0x7A, 0x86, 0x1B, 0x01, 0x00,
            0x01, 0x00, 0x00, 0x00, 0x0E, 0x01, 0x4C, 0x16, 0x55, 0x1B,
        ],
        sent: &[
            0x1B, 0x00, 0x00, 0x01, 0x00, 0x00, 0x00, 0x0E, 0x80, 0x72, 0x02,
        ],
        notes: "cycles 0 steps 0 writes 0 dropped 0\n",
        journal: OPENED,
    },
    Line {
        name: "a sign-off inside a damaged frame, with a frame behind it",
        line: &[
            0x1B, 0x05, 0x00, 0x16, 0x00, 0x00, 0x00, 0x0E, 0x1B, 0x03, 0x00, 0x01, 0x00, 0x00,
            0x00, 0x0E, 0x00, 0xAA, 0x0C, 0x1B, 0x04, 0x00, 0x01, 0x00, 0x00, 0x00, 0x0E, 0x01,
            0x2D, 0x81, 0x00, 0x00,
        ],
        sent: &[
            0x1B, 0x03, 0x00, 0x01, 0x00, 0x00, 0x00, 0x0E, 0x80, 0xA2, 0x88,
        ],
        notes: "cycles 0 steps 0 writes 0 dropped 8\n",
        journal: OPENED,
    },
];

/// A replay of a line on the light's program.
pub(super) fn light_case(line: &[u8], most: usize) -> Case<'_> {
    Case {
        image: LIGHT,
        words: &["100"],
        line,
        most,
        failing_read: None,
        failing_put: None,
        failing_writes: &[],
    }
}

#[test]
fn lines_are_answered_byte_for_byte(rt: HostRuntime) -> Result<(), Fail> {
    let alloc = rt.alloc();
    for row in &LINES {
        for most in READS {
            let outcome = replay(alloc, &light_case(row.line, most))?;
            let wanted = Wanted {
                status: Status::Okay,
                sent: row.sent,
                notes: row.notes,
                journal: row.journal,
                left: LIT,
            };
            let label = format!(in alloc; "{}, by {most}", row.name)?;
            assert_came(&rt, alloc, &outcome, &wanted, label.as_str())?;
        }
    }
    Ok(())
}

/// Replays a line on the light's program that runs nothing, with the reads cut in each way.
pub(super) fn assert_answered(
    rt: &impl Abort,
    alloc: Global,
    line: &[u8],
    sent: &[u8],
    notes: &str,
) -> Result<(), AllocError> {
    let wanted = Wanted {
        status: Status::Okay,
        sent,
        notes,
        journal: OPENED,
        left: LIT,
    };
    for most in READS {
        let outcome = replay(alloc, &light_case(line, most))?;
        let label = format!(in alloc; "{notes}, by {most}")?;
        assert_came(rt, alloc, &outcome, &wanted, label.as_str())?;
    }
    Ok(())
}

/// SET_DEVICE_DESCRIPTOR with zeros behind its code.
fn descriptor(alloc: Global, zeros: usize) -> Result<Vec<u8>, AllocError> {
    let mut body = Vec::new(alloc);
    body.push(0x0C)?;
    for _ in 0..zeros {
        body.push(0x00)?;
    }
    Ok(body)
}

#[test]
fn the_longest_body_is_answered(rt: HostRuntime) -> Result<(), Fail> {
    let alloc = rt.alloc();
    let mut line = Vec::new(alloc);
    put_frame(&mut line, 0, descriptor(alloc, 4105)?.as_slice())?;
    let mut sent = Vec::new(alloc);
    put_frame(&mut sent, 0, OKAY)?;
    assert_eq!(rt; line.len(), 4116);
    assert_answered(
        &rt,
        alloc,
        line.as_slice(),
        sent.as_slice(),
        "cycles 0 steps 0 writes 0 dropped 0\n",
    )?;
    Ok(())
}

#[test]
fn a_longer_body_is_dropped(rt: HostRuntime) -> Result<(), Fail> {
    let alloc = rt.alloc();
    let mut line = Vec::new(alloc);
    line.extend_from_slice(&[0x1B, 0x00, 0x00, 0x0B, 0x10, 0x00, 0x00, 0x0E])?;
    line.extend_from_slice(descriptor(alloc, 4106)?.as_slice())?;
    line.extend_from_slice(&[0x00, 0x00])?;
    assert_answered(
        &rt,
        alloc,
        line.as_slice(),
        &[],
        "cycles 0 steps 0 writes 0 dropped 4117\n",
    )?;
    Ok(())
}

/// Zeros with some bytes behind them, of which the first read gives at most so many.
struct LongLine {
    zeros: usize,
    behind: &'static [u8],
    first: usize,
    status: Status,
    /// How many bytes are sent.
    sent: usize,
    /// How many bytes of the source are not read.
    left: usize,
    notes: &'static str,
}

/// SIGN_OFF with number 0, and three zeros.
const SIGN_OFF_AND_MORE: &[u8] = &[
    0x1B, 0x00, 0x00, 0x01, 0x00, 0x00, 0x00, 0x0E, 0x00, 0x7A, 0x86, 0x00, 0x00, 0x00,
];

/// The source of a long line.
fn source_of(alloc: Global, row: &LongLine) -> Result<MemSource, AllocError> {
    let mut bytes = vec![in alloc; 0u8; row.zeros]?;
    bytes.extend_from_slice(row.behind)?;
    let cuts = vec![in alloc; row.first; 1]?;
    Ok(MemSource::of(bytes, cuts, Vec::new(alloc)))
}

/// Replays a long line, and compares what comes of it.
fn assert_long(rt: &impl Abort, alloc: Global, row: &LongLine) -> Result<(), AllocError> {
    let outcome = replay_from(alloc, &light_case(&[], 1), source_of(alloc, row)?)?;
    assert_eq!(rt; outcome.status, row.status);
    assert_eq!(rt; outcome.sent.written().len(), row.sent);
    assert_eq!(rt; outcome.notes.written(), row.notes.as_bytes());
    assert_eq!(rt; outcome.source.left().len(), row.left);
    Ok(())
}

/// One zero more than a session takes.
static ZEROS: LongLine = LongLine {
    zeros: 67_108_865,
    behind: &[],
    first: 4096,
    status: Status::TooLong,
    sent: 0,
    left: 0,
    notes: "cycles 0 steps 0 writes 0 dropped 67108864\n",
};

#[test]
fn a_line_may_be_too_long(rt: HostRuntime) -> Result<(), Fail> {
    assert_long(&rt, rt.alloc(), &ZEROS)?;
    Ok(())
}

/// The byte after the last one that a session takes would end the sign-off.
static ENDS_LATE: LongLine = LongLine {
    zeros: 67_108_854,
    behind: SIGN_OFF_AND_MORE,
    first: 4096,
    status: Status::TooLong,
    sent: 0,
    left: 3,
    notes: "cycles 0 steps 0 writes 0 dropped 67108864\n",
};

#[test]
fn a_sign_off_may_end_a_byte_too_late(rt: HostRuntime) -> Result<(), Fail> {
    assert_long(&rt, rt.alloc(), &ENDS_LATE)?;
    Ok(())
}

/// The last byte ends it. The first read gives one byte, so the last one asks for 511.
static ENDS_IN_TIME: LongLine = LongLine {
    zeros: 67_108_853,
    behind: SIGN_OFF_AND_MORE,
    first: 1,
    status: Status::Okay,
    sent: 11,
    left: 3,
    notes: "cycles 0 steps 0 writes 0 dropped 67108853\n",
};

#[test]
fn the_last_byte_may_end_a_sign_off(rt: HostRuntime) -> Result<(), Fail> {
    assert_long(&rt, rt.alloc(), &ENDS_IN_TIME)?;
    Ok(())
}

#[test]
fn what_stands_behind_a_sign_off_is_not_answered(rt: HostRuntime) -> Result<(), Fail> {
    let alloc = rt.alloc();
    let mut line = Vec::new(alloc);
    put_frame(&mut line, 0, &[0x0F])?;
    put_frame(&mut line, 1, SIGN_OFF)?;
    put_frame(&mut line, 2, &[0x0F])?;
    put_frame(&mut line, 3, &[0x0F])?;
    let mut sent = Vec::new(alloc);
    put_frame(&mut sent, 0, OKAY)?;
    put_frame(&mut sent, 1, OKAY)?;
    // The last read may have given more than the session looks at.
    for (most, left) in [(1, 22), (2, 22), (7, 16), (4096, 0)] {
        let outcome = replay(alloc, &light_case(line.as_slice(), most))?;
        assert_eq!(rt; outcome.status, Status::Okay, "{most}");
        assert_eq!(rt; outcome.sent.written(), sent.as_slice(), "{most}");
        assert_eq!(rt; outcome.source.left().len(), left, "{most}");
    }
    Ok(())
}
