//! Calls that print a text: listings of a line and of a program, and made sessions. What is printed was worked by hand, and the checks by
//! a script of its own.
use super::call::READS;
use ice_base::{MapLoader, MemFlash, MemSink, MemSource};
use ice_top::{Status, ice2, part_of};
use std::alloc::{AllocError, Global};
use std::process::Abort;
use std::test::Fail;

/// Room for what a call prints.
const ROOM: usize = 1024;

/// A call: its words, the bytes of its source, how many of them each read gives at most, and the reads that fail, by number from 1.
#[derive(Clone, Copy)]
struct Call<'a> {
    words: &'static [&'static str],
    bytes: &'a [u8],
    most: usize,
    failing_reads: &'a [u64],
    /// The puts that fail, by number from 1, and how many bytes each takes.
    failing_puts: &'a [(u64, usize)],
    /// The content of `p.bin`, the one name that the loader knows.
    image: &'a [u8],
}

/// What it prints and notes, and its status.
#[derive(Clone, Copy)]
struct Printed {
    status: Status,
    text: &'static str,
    notes: &'static str,
}

/// Makes the call, and compares what came of it.
fn assert_prints(
    rt: &impl Abort,
    alloc: Global,
    call: &Call,
    wanted: &Printed,
) -> Result<(), AllocError> {
    let mut texts = Vec::new(alloc);
    for word in call.words {
        texts.push(String::from_str(alloc, word)?)?;
    }
    let words = texts.as_slice();
    let cuts = vec![in alloc; call.most; call.bytes.len()]?;
    let mut pairs = Vec::new(alloc);
    pairs.push((String::from_str(alloc, "p.bin")?, call.image.to_vec(alloc)?))?;
    let mut loader = MapLoader::of(pairs);
    let mut source = MemSource::of(
        call.bytes.to_vec(alloc)?,
        cuts,
        call.failing_reads.to_vec(alloc)?,
    );
    let mut sink = MemSink::of(alloc, call.failing_puts.to_vec(alloc)?, ROOM)?;
    let mut notes = MemSink::of(alloc, Vec::new(alloc), ROOM)?;
    let part = part_of(words);
    let flash = MemFlash::of_part(alloc, part, Vec::new(alloc))?;
    let ended = ice2(
        alloc,
        words,
        &mut loader,
        &mut source,
        &mut sink,
        &mut notes,
        flash,
    );
    assert_eq!(rt; ended.status, wanted.status);
    assert_eq!(rt; sink.written(), wanted.text.as_bytes());
    assert_eq!(rt; notes.written(), wanted.notes.as_bytes());
    Ok(())
}

/// GET_SIGN_ON with number 0 inside a frame whose check is wrong, and two zeros behind it.
const DAMAGED: &[u8] = &[
    0x1B, 0x05, 0x00, 0x0B, 0x00, 0x00, 0x00, 0x0E, 0x1B, 0x00, 0x00, 0x01, 0x00, 0x00, 0x00, 0x0E,
    0x01, 0xF3, 0x97, 0x00, 0x00,
];

/// The beginning of a frame.
const BEGINNING: &[u8] = &[0x1B, 0x00, 0x00, 0x01, 0x00, 0x00, 0x00, 0x0E, 0x01, 0xF3];

#[test]
fn a_line_is_listed_however_it_is_cut(rt: HostRuntime) -> Result<(), Fail> {
    for most in READS {
        for (bytes, text) in [
            (DAMAGED, "junk 8\nframe 0000 01\njunk 2\n"),
            (BEGINNING, "rest 10\n"),
            ([].as_slice(), ""),
        ] {
            let call = Call {
                words: &["frames"],
                bytes,
                most,
                failing_reads: &[],
                failing_puts: &[],
                image: &[],
            };
            let wanted = Printed {
                status: Status::Okay,
                text,
                notes: "",
            };
            assert_prints(&rt, rt.alloc(), &call, &wanted)?;
        }
    }
    Ok(())
}

#[test]
fn a_listing_ends_where_a_read_or_a_put_fails(rt: HostRuntime) -> Result<(), Fail> {
    let call = Call {
        words: &["frames"],
        bytes: DAMAGED,
        most: 8,
        failing_reads: &[2],
        failing_puts: &[],
        image: &[],
    };
    // What the first read gave is the beginning of a frame.
    let unread = Printed {
        status: Status::Read,
        text: "rest 8\n",
        notes: "",
    };
    assert_prints(&rt, rt.alloc(), &call, &unread)?;
    let unsent = Call {
        most: 4096,
        failing_reads: &[],
        failing_puts: &[(1, 3)],
        ..call
    };
    let stopped = Printed {
        status: Status::Write,
        text: "jun",
        notes: "",
    };
    assert_prints(&rt, rt.alloc(), &unsent, &stopped)?;
    Ok(())
}

/// The totals of a session in which no step is made.
const NO_STEP: &str = "cycles 0 steps 0 writes 0 dropped 0\n";

#[test]
fn made_sessions_are_summed_up(rt: HostRuntime) -> Result<(), Fail> {
    // A sign-off alone; a forced stop of no run ahead of it; and a single step, which sends an event.
    for (words, text, notes) in [
        (
            ["gen", "7", "0"].as_slice(),
            "frames 1 replies 1 events 0 check 8b8f\n",
            NO_STEP,
        ),
        (
            ["gen", "7", "1"].as_slice(),
            "frames 2 replies 2 events 0 check a5f7\n",
            NO_STEP,
        ),
        (
            ["gen", "47", "1"].as_slice(),
            "frames 2 replies 2 events 1 check 3fbd\n",
            "cycles 1 steps 1 writes 0 dropped 0\n",
        ),
    ] {
        let call = Call {
            words,
            bytes: &[],
            most: 1,
            failing_reads: &[],
            failing_puts: &[],
            image: &[],
        };
        let wanted = Printed {
            status: Status::Okay,
            text,
            notes,
        };
        assert_prints(&rt, rt.alloc(), &call, &wanted)?;
    }
    Ok(())
}

#[test]
fn a_summary_that_cannot_be_put_is_a_failed_write(rt: HostRuntime) -> Result<(), Fail> {
    let call = Call {
        words: &["gen", "7", "0"],
        bytes: &[],
        most: 1,
        failing_reads: &[],
        failing_puts: &[(1, 6)],
        image: &[],
    };
    let wanted = Printed {
        status: Status::Write,
        text: "frames",
        notes: NO_STEP,
    };
    assert_prints(&rt, rt.alloc(), &call, &wanted)?;
    Ok(())
}

/// LDI r16,1; OUT DDRB,r16; OUT PORTB,r16; RJMP to itself; and JMP to the address 2000, which the ATmega16 has not.
const PORT: &[u8] = &[
    0x01, 0xE0, 0x07, 0xBB, 0x08, 0xBB, 0xFF, 0xCF, 0x0C, 0x94, 0x00, 0x20,
];

/// The listing of a program. A source whose first read would fail is not read.
const LISTED: Call<'static> = Call {
    words: &["list", "p.bin"],
    bytes: &[],
    most: 1,
    failing_reads: &[1],
    failing_puts: &[],
    image: PORT,
};

/// Its listing for the ATmega16.
const PORT_LISTED: &str =
    "ldi r16, 0x01\nout 0x17, r16\nout 0x18, r16\nrjmp .-1\n.word 0x940c\nand r0, r0\n";

#[test]
fn a_program_is_listed_for_each_part(rt: HostRuntime) -> Result<(), Fail> {
    for (words, text) in [
        (["list", "p.bin"].as_slice(), PORT_LISTED),
        (["list", "p.bin", "m16"].as_slice(), PORT_LISTED),
        (
            ["list", "p.bin", "m32"].as_slice(),
            "ldi r16, 0x01\nout 0x17, r16\nout 0x18, r16\nrjmp .-1\njmp 0x2000\n",
        ),
    ] {
        let call = Call { words, ..LISTED };
        let wanted = Printed {
            status: Status::Okay,
            text,
            notes: "",
        };
        assert_prints(&rt, rt.alloc(), &call, &wanted)?;
    }
    Ok(())
}

#[test]
fn a_listing_of_a_program_fails_with_its_put_or_its_image(rt: HostRuntime) -> Result<(), Fail> {
    let alloc = rt.alloc();
    let unsent = Call {
        failing_puts: &[(1, 10)],
        ..LISTED
    };
    let stopped = Printed {
        status: Status::Write,
        text: "ldi r16, 0",
        notes: "",
    };
    assert_prints(&rt, alloc, &unsent, &stopped)?;
    let odd = Call {
        image: &[0, 0, 0],
        ..LISTED
    };
    let refused = Printed {
        status: Status::Image,
        text: "",
        notes: "image: odd\n",
    };
    assert_prints(&rt, alloc, &odd, &refused)?;
    let unknown = Call {
        words: &["list", "q.bin"],
        ..LISTED
    };
    let missing = Printed {
        status: Status::Loader,
        text: "",
        notes: "loader\n",
    };
    assert_prints(&rt, alloc, &unknown, &missing)?;
    Ok(())
}

#[test]
fn forms_with_too_many_words_or_wrong_numbers_are_refused(rt: HostRuntime) -> Result<(), Fail> {
    for words in [
        ["frames", "m16"].as_slice(),
        ["gen", "7"].as_slice(),
        ["gen", "07", "1"].as_slice(),
        ["gen", "4294967296", "1"].as_slice(),
        ["gen", "7", "100001"].as_slice(),
        ["gen", "7", "1", "m32"].as_slice(),
        ["list"].as_slice(),
        ["list", "p.bin", "m17"].as_slice(),
        ["list", "p.bin", "m16", "m16"].as_slice(),
    ] {
        let call = Call {
            words,
            bytes: &[],
            most: 1,
            failing_reads: &[],
            failing_puts: &[],
            image: &[],
        };
        let wanted = Printed {
            status: Status::Usage,
            text: "",
            notes: "usage\n",
        };
        assert_prints(&rt, rt.alloc(), &call, &wanted)?;
    }
    Ok(())
}
