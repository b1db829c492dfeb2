//! Session records: which words check one, for which part, and what stands in the sink and in the notes.
use super::{call, objects};
use crate::Status;
use ice_base::MemSource;
use std::test::Fail;

/// A record of a session that signs off, and how it is answered.
const SIGNED: &[u8] = b"in 1b0000010000000e007a86\nout 1b0000010000000e807202\n";

/// READ_MEMORY of the word at byte address 0x4000, which is erased on the ATmega32, and which the ATmega16 has not.
const LARGER: &[u8] =
    b"in 1b00000a0000000e05a00200000000400000edf7\nout 1b0000030000000e82ffff09ae\nend\nout -\n";

/// Words, a record, and how the call ends.
struct Row {
    words: &'static [&'static str],
    record: &'static [u8],
    status: Status,
    sent: &'static [u8],
    note: &'static [u8],
}

static ROWS: [Row; 10] = [
    Row {
        words: &["verify", "p.bin"],
        record: SIGNED,
        status: Status::Okay,
        sent: b"yes\n",
        note: b"",
    },
    Row {
        words: &["verify", "p.bin"],
        record: b"in 1b0000010000000e007a86\nout 1b0000010000000e807203\n",
        status: Status::Refuted,
        sent: b"no 2\n",
        note: b"",
    },
    Row {
        words: &["verify", "p.bin"],
        record: b"in 1b0000010000000e007a86\n",
        status: Status::Refuted,
        sent: b"no 2\n",
        note: b"",
    },
    Row {
        words: &["verify", "p.bin", "m16"],
        record: b"",
        status: Status::Refuted,
        sent: b"no 1\n",
        note: b"",
    },
    Row {
        words: &["verify", "p.bin", "m32"],
        record: LARGER,
        status: Status::Okay,
        sent: b"yes\n",
        note: b"",
    },
    Row {
        words: &["verify", "p.bin"],
        record: LARGER,
        status: Status::Refuted,
        sent: b"no 2\n",
        note: b"",
    },
    Row {
        words: &["verify", "q.bin"],
        record: SIGNED,
        status: Status::Loader,
        sent: b"",
        note: b"loader\n",
    },
    Row {
        words: &["verify", "p.hex"],
        record: SIGNED,
        status: Status::Image,
        sent: b"",
        note: b"image: record 1\n",
    },
    Row {
        words: &["verify", "p.bin", "5"],
        record: SIGNED,
        status: Status::Usage,
        sent: b"",
        note: b"usage\n",
    },
    Row {
        words: &["verify"],
        record: SIGNED,
        status: Status::Usage,
        sent: b"",
        note: b"usage\n",
    },
];

#[test]
fn a_record_is_checked(rt: HostRuntime) -> Result<(), Fail> {
    for row in &ROWS {
        let ran = call(rt.alloc(), row.words, objects(rt.alloc(), row.record)?)?;
        assert_eq!(rt; ran.status, row.status, "{:?}", row.words);
        assert_eq!(rt; ran.sent.written(), row.sent, "{:?}", row.words);
        assert_eq!(rt; ran.notes.written(), row.note, "{:?}", row.words);
        assert!(rt; ran.flash.journal().is_empty());
    }
    Ok(())
}

#[test]
fn a_failed_read_of_a_record_is_told(rt: HostRuntime) -> Result<(), Fail> {
    let alloc = rt.alloc();
    let mut given = objects(alloc, &[])?;
    given.source = MemSource::of(SIGNED.to_vec(alloc)?, Vec::new(alloc), vec![in alloc; 1]?);
    let ran = call(alloc, &["verify", "p.bin"], given)?;
    assert_eq!(rt; ran.status, Status::Read);
    assert!(rt; ran.sent.written().is_empty());
    assert!(rt; ran.notes.written().is_empty());
    assert_eq!(rt; ran.left, SIGNED.len());
    Ok(())
}
