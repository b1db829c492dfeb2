//! Records of sessions, judged: each fits the light's program, and with a line changed, lost or moved it is refused at the line that the
//! definitions say.
use super::call::{Case, Wanted, assert_came, run_verify};
use super::held::{ERASED, LIGHT};
use ice_top::Status;
use std::alloc::{AllocError, Global};
use std::process::Abort;
use std::test::Fail;

/// A record by its lines; and of each line another one in its place, with what is then said of the record.
#[derive(Clone, Copy)]
struct Record {
    name: &'static str,
    /// What is said of it without its last line.
    cut: &'static str,
    lines: &'static [(&'static str, &'static str, &'static str)],
}

/// A session that only signs off.
const SIGN_OFF: Record = Record {
    name: "a sign-off",
    cut: "no 2\n",
    lines: &[
        (
            "in 1b0000010000000e007a86",
            "in 1b0000010000000e007a87",
            "no 2\n",
        ),
        (
            "out 1b0000010000000e807202",
            "out 1b0000010000000e807203",
            "no 2\n",
        ),
    ],
};

/// The line ends while a run is out, which a forced stop ends. It may come behind any number of steps, and no other cause is to be had there.
const LEFT: Record = Record {
    name: "a run that is left",
    cut: "no 6\n",
    lines: &[
        (
            "in 1b0000010000000e08320a",
            "in 1b0000010000000e08320b",
            "no 2\n",
        ),
        ("out 1b0000010000000e807202", "out -", "no 2\n"),
        ("end", "ene", "bad 3\n"),
        ("out -", "out 00", "no 4\n"),
        ("halt 02 5", "halt 01 5", "no 5\n"),
        ("out -", "out 1b", "no 6\n"),
    ],
};

/// A breakpoint at word 2 is set and met, the program counter is read, a second run is launched by a frame in two pieces, a stop is asked for, and
/// the run ends while the frame of the sign-off comes in. Six steps in place of five are as true, as the program goes round in its last word.
const BREAKPOINT: Record = Record {
    name: "a breakpoint",
    cut: "no 20\n",
    lines: &[
        (
            "in 1b0000080000000e11010002000000001c9e",
            "in 1b0000080000000e11010002000000001c9f",
            "no 2\n",
        ),
        (
            "out 1b0000010000000e807202",
            "out 1b0000010000000e817202",
            "no 2\n",
        ),
        (
            "in 1b0100010000000e088d8b",
            "in 1b0100010000000e088d8c",
            "no 4\n",
        ),
        (
            "out 1b0100010000000e80cd83",
            "out 1b0100010000000e80cd84",
            "no 4\n",
        ),
        ("halt 01 2", "halt 01 3", "no 5\n"),
        (
            "out 1bffff060000000ee002000000014f2a",
            "out 1bffff060000000ee002000000024f2a",
            "no 6\n",
        ),
        (
            "in 1b0200010000000e07aaf9",
            "in 1b0200010000000e07aaf8",
            "no 8\n",
        ),
        (
            "out 1b0200050000000e8402000000ca70",
            "out 1b0200050000000e8403000000ca70",
            "no 8\n",
        ),
        ("in 1b03000100", "in 1b03000101", "no 12\n"),
        ("out -", "out 1b", "no 10\n"),
        ("in 00000e08e280", "in 00000e08e281", "no 12\n"),
        (
            "out 1b0300010000000e80a288",
            "out 1b0300010000000e80a289",
            "no 12\n",
        ),
        (
            "in 1b0400010000000e0afe3f",
            "in 1b0400010000000e0afe3e",
            "no 14\n",
        ),
        (
            "out 1b0400010000000e80ac14",
            "out 1b0400010000000e80ac15",
            "no 14\n",
        ),
        ("in 1b05", "in 1b04", "no 20\n"),
        ("out -", "out 00", "no 16\n"),
        ("halt 02 5", "halt 02 6", "yes\n"),
        (
            "out 1bffff060000000ee003000000029013",
            "out 1bffff060000000ee002000000029013",
            "no 18\n",
        ),
        ("in 00010000000e001b11", "in 00010000000e001b10", "no 20\n"),
        (
            "out 1b0500010000000e801395",
            "out 1b0500010000000e801396",
            "no 20\n",
        ),
    ],
};

/// The records.
const RECORDS: [&Record; 3] = [&SIGN_OFF, &LEFT, &BREAKPOINT];

/// What is said of a record whose line at a place stands out of its place.
const BAD: [&str; 19] = [
    "bad 1\n", "bad 2\n", "bad 3\n", "bad 4\n", "bad 5\n", "bad 6\n", "bad 7\n", "bad 8\n",
    "bad 9\n", "bad 10\n", "bad 11\n", "bad 12\n", "bad 13\n", "bad 14\n", "bad 15\n", "bad 16\n",
    "bad 17\n", "bad 18\n", "bad 19\n",
];

/// The words behind the image's name, for each part.
const PARTS: [&[&str]; 2] = [&[], &["m32"]];

/// What is done to the lines of a record.
#[derive(Clone, Copy, Debug, PartialEq, Eq)]
enum Change {
    /// Nothing.
    None,
    /// The line at this place is another.
    Other(usize),
    /// The line at this place is lost.
    Lost(usize),
    /// The line at this place and the next are swapped.
    Swapped(usize),
}

/// Which line stands at a place of the changed record, and whether it is the other one in its place; or none does.
fn line_at(change: Change, place: usize) -> (usize, bool) {
    match change {
        Change::None => (place, false),
        Change::Other(changed) => (place, place == changed),
        Change::Lost(lost) => {
            if place >= lost {
                return (place.saturating_add(1), false);
            }
            (place, false)
        }
        Change::Swapped(first) => {
            let next = first.saturating_add(1);
            if place == first {
                return (next, false);
            }
            if place == next {
                return (first, false);
            }
            (place, false)
        }
    }
}

/// The text of a changed record.
fn text_of(alloc: Global, record: &Record, change: Change) -> Result<Vec<u8>, AllocError> {
    let mut text = Vec::new(alloc);
    for place in 0..record.lines.len() {
        let (chosen, is_other) = line_at(change, place);
        if chosen < record.lines.len() {
            let (line, other, _) = record.lines[chosen];
            let written = if is_other { other } else { line };
            text.extend_from_slice(written.as_bytes())?;
            text.push(b'\n')?;
        }
    }
    Ok(text)
}

/// Judges a changed record over the light's program, and compares what is said.
fn assert_said(
    rt: &impl Abort,
    alloc: Global,
    record: &Record,
    change: Change,
    said: &str,
) -> Result<(), AllocError> {
    let text = text_of(alloc, record, change)?;
    for words in PARTS {
        let case = Case {
            image: LIGHT,
            words,
            line: &text,
            most: 7,
            failing_read: None,
            failing_put: None,
            failing_writes: &[],
        };
        let status = if said == "yes\n" {
            Status::Okay
        } else {
            Status::Refuted
        };
        let wanted = Wanted {
            status,
            sent: said.as_bytes(),
            notes: "",
            journal: &[],
            left: ERASED,
        };
        let outcome = run_verify(alloc, &case)?;
        assert_came(rt, alloc, &outcome, &wanted, record.name)?;
    }
    Ok(())
}

/// Judges a record with each of its lines changed, and compares what is said of it.
fn assert_changed(rt: &impl Abort, alloc: Global, record: &Record) -> Result<(), AllocError> {
    for place in 0..record.lines.len() {
        let (_, _, said) = record.lines[place];
        assert_said(rt, alloc, record, Change::Other(place), said)?;
    }
    Ok(())
}

/// Judges a record without each of its lines: the next one stands out of its place. Without its last line the record ends before it is closed.
fn assert_lost(rt: &impl Abort, alloc: Global, record: &Record) -> Result<(), AllocError> {
    let last = record.lines.len().saturating_sub(1);
    for (place, said) in BAD.iter().enumerate().take(last) {
        assert_said(rt, alloc, record, Change::Lost(place), said)?;
    }
    assert_said(rt, alloc, record, Change::Lost(last), record.cut)
}

/// Judges a record with each two lines swapped: the first of them stands out of its place.
fn assert_swapped(rt: &impl Abort, alloc: Global, record: &Record) -> Result<(), AllocError> {
    let last = record.lines.len().saturating_sub(1);
    for (place, said) in BAD.iter().enumerate().take(last) {
        assert_said(rt, alloc, record, Change::Swapped(place), said)?;
    }
    Ok(())
}

#[test]
fn the_records_fit(rt: HostRuntime) -> Result<(), Fail> {
    for record in RECORDS {
        assert_said(&rt, rt.alloc(), record, Change::None, "yes\n")?;
    }
    Ok(())
}

#[test]
fn a_record_with_a_line_changed_is_refused_there_or_where_it_shows(
    rt: HostRuntime,
) -> Result<(), Fail> {
    for record in RECORDS {
        assert_changed(&rt, rt.alloc(), record)?;
    }
    Ok(())
}

#[test]
fn a_record_with_a_line_lost_or_moved_is_refused_there(rt: HostRuntime) -> Result<(), Fail> {
    for record in RECORDS {
        assert_lost(&rt, rt.alloc(), record)?;
        assert_swapped(&rt, rt.alloc(), record)?;
    }
    Ok(())
}
