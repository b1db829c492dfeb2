//! Records worked by hand, as bytes of a source, and the line that is put for each.
ghost use Rattle.std.specs.Prelude.{◌≡◌, false, IfOk};
ghost use Rattle.ice_verify.specs.Checking.{IsSound};

use crate::{CheckEnd, check_record};
use ice_base::{MemSink, MemSource};
use ice_verify::Verifier;
use part_spec::Part;
use std::test::Fail;

/// A verifier of records of an erased flash.
fn verifier(rt: &HostRuntime) -> Result<Verifier, Fail>
    ensures sound { IfOk result IsSound }
    ensures fresh { IfOk result (λ v. v.judged ≡ false) }
{
    let program = vec![in rt.alloc(); 0xFFFFu16; 8192]?;
    Ok(Verifier::begin(rt.alloc(), Part::M16, &program)?)
}

/// What is to come of a check.
#[derive(Drop)]
struct Wanted<'a> {
    end: CheckEnd,
    text: &'a [u8],
    left: usize,
}

/// Whether that comes of the check of these bytes, given in cuts of this size, with the calls failing that are to fail.
fn comes(
    rt: &HostRuntime,
    bytes: &[u8],
    cut: usize,
    failing_read: u64,
    failing_put: (u64, usize),
    wanted: Wanted,
) -> Result<bool, Fail> {
    let alloc = rt.alloc();
    let cuts = vec![in alloc; cut; bytes.len()]?;
    let mut source = MemSource::of(bytes.to_vec(alloc)?, cuts, vec![in alloc; failing_read]?);
    let mut sink = MemSink::of(alloc, vec![in alloc; failing_put]?, 64)?;
    let end = check_record(verifier(rt)?, &mut source, &mut sink);
    Ok(end == wanted.end && sink.written() == wanted.text && source.left().len() == wanted.left)
}

/// A record, and the line that is put for it.
struct Row {
    record: &'static [u8],
    text: &'static [u8],
}

/// The record of a session that only signs off.
const SIGNED: &[u8] = b"in 1b0000010000000e007a86\nout 1b0000010000000e807202\n";

static ROWS: [Row; 13] = [
    Row {
        record: SIGNED,
        text: b"yes\n",
    },
    // Another last digit.
    Row {
        record: b"in 1b0000010000000e007a86\nout 1b0000010000000e807203\n",
        text: b"no 2\n",
    },
    // A line is missing, and all are.
    Row {
        record: b"in 1b0000010000000e007a86\n",
        text: b"no 2\n",
    },
    Row {
        record: b"",
        text: b"no 1\n",
    },
    // No line feed stands behind the last line, or the first.
    Row {
        record: b"in 1b0000010000000e007a86\nout 1b0000010000000e807202",
        text: b"bad 2\n",
    },
    Row {
        record: b"e",
        text: b"bad 1\n",
    },
    // A line more than the record has.
    Row {
        record: b"in 1b0000010000000e007a86\nout 1b0000010000000e807202\nend\n",
        text: b"no 3\n",
    },
    Row {
        record: b"in 1b0000010000000e007a86\nout 1b0000010000000e807202\nout -\n",
        text: b"bad 3\n",
    },
    // Lines that are none.
    Row {
        record: b"\n",
        text: b"bad 1\n",
    },
    Row {
        record: b"in 1B0000010000000E007A86\n",
        text: b"bad 1\n",
    },
    Row {
        record: b"in 1b0000010000000e007a86\r\n",
        text: b"bad 1\n",
    },
    // A run that no record may have: GO, and what it is answered.
    Row {
        record: b"in 1b0000010000000e08320a\nout 1b0000010000000e807202\nhalt 02 100000001\n",
        text: b"long 3\n",
    },
    // The line ends in the middle of a frame.
    Row {
        record: b"in 1b00\nout -\nend\nout -\n",
        text: b"yes\n",
    },
];

/// How a check ends that puts this.
fn end_with(text: &[u8]) -> CheckEnd {
    if text == b"yes\n".as_slice() {
        return CheckEnd::Okay;
    }
    CheckEnd::Refuted
}

#[test]
fn the_line_of_each_record(rt: HostRuntime) -> Result<(), Fail> {
    for row in &ROWS {
        for cut in [1, 7, 512] {
            let wanted = Wanted {
                end: end_with(row.text),
                text: row.text,
                left: 0,
            };
            assert!(rt;
                comes(&rt, row.record, cut, 0, (0, 0), wanted)?,
                "{:?}",
                row.record
            );
        }
    }
    Ok(())
}

#[test]
fn nothing_is_read_behind_a_verdict(rt: HostRuntime) -> Result<(), Fail> {
    let wanted = Wanted {
        end: CheckEnd::Refuted,
        text: b"bad 1\n",
        left: 2,
    };
    assert!(rt; comes(&rt, b"out -\n12", 1, 0, (0, 0), wanted)?);
    Ok(())
}

#[test]
fn a_line_is_too_long(rt: HostRuntime) -> Result<(), Fail> {
    for (size, left) in [(8_320, 0), (8_321, 0), (8_322, 1)] {
        let bytes = vec![in rt.alloc(); b'0'; size]?;
        let wanted = Wanted {
            end: CheckEnd::Refuted,
            text: b"bad 1\n",
            left,
        };
        assert!(rt; comes(&rt, &bytes, 1, 0, (0, 0), wanted)?);
    }
    Ok(())
}

#[test]
fn a_read_fails(rt: HostRuntime) -> Result<(), Fail> {
    // With the first two reads the record is read, the third tells its end.
    for (failing, left) in [(1, 53), (2, 18), (3, 0)] {
        let wanted = Wanted {
            end: CheckEnd::Read,
            text: b"",
            left,
        };
        assert!(rt; comes(&rt, SIGNED, 35, failing, (0, 0), wanted)?);
    }
    Ok(())
}

#[test]
fn the_put_fails(rt: HostRuntime) -> Result<(), Fail> {
    let wanted = Wanted {
        end: CheckEnd::Write,
        text: b"ye",
        left: 0,
    };
    assert!(rt; comes(&rt, SIGNED, 512, 0, (1, 2), wanted)?);
    Ok(())
}
