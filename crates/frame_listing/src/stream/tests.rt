use super::*;
use ice_base::{MemSink, MemSource};
use std::test::Fail;

/// A frame whose size is wrong, with a sign-on frame inside it, and two bytes behind that.
const DAMAGED: [u8; 21] = [
    0x1B, 0x05, 0x00, 0x0B, 0x00, 0x00, 0x00, 0x0E, 0x1B, 0x00, 0x00, 0x01, 0x00, 0x00, 0x00, 0x0E,
    0x01, 0xF3, 0x97, 0x00, 0x00,
];

/// A sign-on frame without its last byte.
const OPEN: [u8; 10] = [0x1B, 0x00, 0x00, 0x01, 0x00, 0x00, 0x00, 0x0E, 0x01, 0xF3];

/// A frame with number ffff and an empty body.
const EMPTY: [u8; 10] = [0x1B, 0xFF, 0xFF, 0x00, 0x00, 0x00, 0x00, 0x0E, 0x69, 0x1A];

/// What a listing is to be.
#[derive(Drop)]
struct Wanted<'a> {
    end: ListingEnd,
    text: &'a [u8],
    left: usize,
}

/// Lists these bytes, given in cuts of this size, with the calls failing that are to fail.
fn lists(
    rt: &HostRuntime,
    bytes: &[u8],
    cut: usize,
    failing_read: u64,
    failing_put: (u64, usize),
    wanted: Wanted,
) -> Result<bool, Fail> {
    let alloc = rt.alloc();
    let receiver = Receiver::new(alloc)?;
    let cuts = vec![in alloc; cut; bytes.len()]?;
    let mut source = MemSource::of(bytes.to_vec(alloc)?, cuts, vec![in alloc; failing_read]?);
    let mut sink = MemSink::of(alloc, vec![in alloc; failing_put]?, 1_000)?;
    let end = list_frames(receiver, &mut source, &mut sink);
    Ok(end == wanted.end && sink.written() == wanted.text && source.left().len() == wanted.left)
}

/// The listing of the damaged frame and what stands behind it.
const DAMAGED_TEXT: &[u8] = b"junk 8\nframe 0000 01\njunk 2\n";

#[test]
fn a_frame_within_a_damaged_one(rt: HostRuntime) -> Result<(), Fail> {
    for cut in [1, 2, 7, 512] {
        let wanted = Wanted {
            end: ListingEnd::Okay,
            text: DAMAGED_TEXT,
            left: 0,
        };
        assert!(rt; lists(&rt, &DAMAGED, cut, 0, (0, 0), wanted)?);
    }
    Ok(())
}

#[test]
fn less_than_a_frame(rt: HostRuntime) -> Result<(), Fail> {
    for cut in [1, 2, 7, 512] {
        let wanted = Wanted {
            end: ListingEnd::Okay,
            text: b"rest 10\n",
            left: 0,
        };
        assert!(rt; lists(&rt, &OPEN, cut, 0, (0, 0), wanted)?);
    }
    Ok(())
}

#[test]
fn nothing_and_an_empty_body(rt: HostRuntime) -> Result<(), Fail> {
    let nothing = Wanted {
        end: ListingEnd::Okay,
        text: b"",
        left: 0,
    };
    assert!(rt; lists(&rt, &[], 512, 0, (0, 0), nothing)?);
    let empty = Wanted {
        end: ListingEnd::Okay,
        text: b"frame ffff -\n",
        left: 0,
    };
    assert!(rt; lists(&rt, &EMPTY, 512, 0, (0, 0), empty)?);
    Ok(())
}

#[test]
fn junk_across_chunks(rt: HostRuntime) -> Result<(), Fail> {
    let wanted = Wanted {
        end: ListingEnd::Okay,
        text: b"junk 1300\n",
        left: 0,
    };
    assert!(rt; lists(&rt, &[0; 1300], 512, 0, (0, 0), wanted)?);
    Ok(())
}

#[test]
fn a_read_fails(rt: HostRuntime) -> Result<(), Fail> {
    let first = Wanted {
        end: ListingEnd::Read,
        text: b"",
        left: 21,
    };
    assert!(rt; lists(&rt, &DAMAGED, 7, 1, (0, 0), first)?);
    let third = Wanted {
        end: ListingEnd::Read,
        text: b"rest 14\n",
        left: 7,
    };
    assert!(rt; lists(&rt, &DAMAGED, 7, 3, (0, 0), third)?);
    let both = Wanted {
        end: ListingEnd::Read,
        text: b"re",
        left: 7,
    };
    assert!(rt; lists(&rt, &DAMAGED, 7, 3, (1, 2), both)?);
    Ok(())
}

#[test]
fn a_put_fails(rt: HostRuntime) -> Result<(), Fail> {
    let first = Wanted {
        end: ListingEnd::Write,
        text: b"junk",
        left: 0,
    };
    assert!(rt; lists(&rt, &DAMAGED, 512, 0, (1, 4), first)?);
    let second = Wanted {
        end: ListingEnd::Write,
        text: b"junk 8\nframe 0",
        left: 1,
    };
    assert!(rt; lists(&rt, &DAMAGED, 10, 0, (2, 7), second)?);
    let last = Wanted {
        end: ListingEnd::Write,
        text: b"junk 8\nframe 0000 01\n",
        left: 0,
    };
    assert!(rt; lists(&rt, &DAMAGED, 512, 0, (3, 0), last)?);
    Ok(())
}

#[test]
fn a_frame_is_put_ahead_of_the_next_read(rt: HostRuntime) -> Result<(), Fail> {
    let wanted = Wanted {
        end: ListingEnd::Write,
        text: b"junk 8\nfra",
        left: 0,
    };
    assert!(rt; lists(&rt, &DAMAGED, 512, 2, (2, 3), wanted)?);
    Ok(())
}
