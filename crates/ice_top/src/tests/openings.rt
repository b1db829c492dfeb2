//! What opens, for which part, and why a call does not: the words and the image.
use super::{SESSION, WORDS, call, line_in, objects, texts_of};
use crate::{Status, ice2, part_of};
use ice_base::{LoadError, Loader, MemFlash, MemSink};
use part_spec::Part;
use std::alloc::{AllocError, Global};
use std::test::Fail;

/// Words, and the part that they are for.
struct Row {
    words: &'static [&'static str],
    part: Part,
}

static PARTS: [Row; 16] = [
    Row {
        words: &["replay", "p.bin", "5"],
        part: Part::M16,
    },
    Row {
        words: &["replay", "p.bin", "5", "m16"],
        part: Part::M16,
    },
    Row {
        words: &["replay", "p.bin", "5", "m32"],
        part: Part::M32,
    },
    Row {
        words: &["replay", "m32", "5"],
        part: Part::M16,
    },
    Row {
        words: &["replay", "m32", "5", "m32"],
        part: Part::M32,
    },
    Row {
        words: &["replay", "p.bin", "m32"],
        part: Part::M16,
    },
    Row {
        words: &["replay", "p.bin", "5", "M32"],
        part: Part::M16,
    },
    Row {
        words: &["replay", "p.bin", "5", "m32", "m32"],
        part: Part::M16,
    },
    Row {
        words: &["list", "p.bin", "m32"],
        part: Part::M32,
    },
    Row {
        words: &["list", "m32"],
        part: Part::M16,
    },
    Row {
        words: &["verify", "p.bin", "m32"],
        part: Part::M32,
    },
    Row {
        words: &["verify", "m32"],
        part: Part::M16,
    },
    Row {
        words: &["frames", "m32"],
        part: Part::M16,
    },
    Row {
        words: &["run", "p.bin", "5", "m32"],
        part: Part::M16,
    },
    Row {
        words: &["m32"],
        part: Part::M16,
    },
    Row {
        words: &[],
        part: Part::M16,
    },
];

#[test]
fn the_last_word_of_a_whole_form_is_the_part(rt: HostRuntime) -> Result<(), Fail> {
    let alloc = rt.alloc();
    for row in &PARTS {
        let texts = texts_of(alloc, row.words)?;
        assert_eq!(rt; part_of(texts.as_slice()), row.part, "{:?}", row.words);
    }
    Ok(())
}

/// Whether the numbers are taken: only then is the last word the part.
fn takes(alloc: Global, stops: &str) -> Result<bool, AllocError> {
    let texts = texts_of(alloc, &["replay", "p.bin", stops, "m32"])?;
    Ok(part_of(texts.as_slice()) == Part::M32)
}

#[test]
fn takes_stops_from_1_to_100000000(rt: HostRuntime) -> Result<(), Fail> {
    for (stops, taken) in [
        ("1", true),
        ("100", true),
        ("100,5", true),
        ("100000000", true),
        ("", false),
        ("0", false),
        ("01", false),
        ("+1", false),
        ("1,", false),
        (",1", false),
        ("1,,2", false),
        ("100000001", false),
        ("4294967297", false),
    ] {
        assert_eq!(rt; takes(rt.alloc(), stops)?, taken, "at {stops}");
    }
    Ok(())
}

#[test]
fn takes_64_stops_and_no_more(rt: HostRuntime) -> Result<(), Fail> {
    let mut stops = String::from_str(rt.alloc(), "1")?;
    for _ in 1..64u8 {
        stops.push_str(",2")?;
    }
    assert!(rt; takes(rt.alloc(), stops.as_str())?);
    stops.push_str(",2")?;
    assert!(rt; !takes(rt.alloc(), stops.as_str())?);
    Ok(())
}

/// The records of LDI r16,1; OUT DDRB,r16; OUT PORTB,r16; RJMP to itself, with a wrong sum, and with a byte that is given twice.
const RECORDS: &[u8] = b":0800000001E007BB08BBFFCFC4\n:00000001FF\n";

const WRONG_SUM: &[u8] = b":0800000001E007BB08BBFFCFC5\n:00000001FF\n";

const GIVEN_TWICE: &[u8] = b":0100100001EE\n:0100100001EE\n:00000001FF\n";

/// Words and an image that do not open.
struct Refused {
    words: &'static [&'static str],
    image: &'static [u8],
    status: Status,
    note: &'static str,
}

static REFUSED: [Refused; 9] = [
    Refused {
        words: &["replay", "p.bin", "0"],
        image: &[],
        status: Status::Usage,
        note: "usage\n",
    },
    Refused {
        words: &["replay", "p.bin", "5", "m17"],
        image: &[],
        status: Status::Usage,
        note: "usage\n",
    },
    Refused {
        words: &["script", "p.bin", "0"],
        image: &[],
        status: Status::Usage,
        note: "usage\n",
    },
    Refused {
        words: &["replay", "q.bin", "100"],
        image: &[],
        status: Status::Loader,
        note: "loader\n",
    },
    Refused {
        words: &["replay", "p.bin", "5"],
        image: &[0, 0, 0],
        status: Status::Image,
        note: "image: odd\n",
    },
    Refused {
        words: &["replay", "p.hex", "5"],
        image: &[],
        status: Status::Image,
        note: "image: record 1\n",
    },
    Refused {
        words: &["replay", "p.hex", "5"],
        image: WRONG_SUM,
        status: Status::Image,
        note: "image: sum 1\n",
    },
    Refused {
        words: &["replay", "p.hex", "5", "m32"],
        image: WRONG_SUM,
        status: Status::Image,
        note: "image: sum 1\n",
    },
    Refused {
        words: &["replay", "p.hex", "5"],
        image: GIVEN_TWICE,
        status: Status::Image,
        note: "image: overlap 16\n",
    },
];

#[test]
fn what_does_not_open_reads_nothing(rt: HostRuntime) -> Result<(), Fail> {
    let alloc = rt.alloc();
    for row in &REFUSED {
        let mut given = objects(alloc, &SESSION)?;
        given.image = row.image.to_vec(alloc)?;
        let ran = call(alloc, row.words, given)?;
        let note = row.note;
        assert_eq!(rt; ran.status, row.status, "{note}");
        assert_eq!(rt; ran.sent.written(), [].as_slice(), "{note}");
        assert_eq!(rt; ran.left, 22, "{note}");
        assert_eq!(rt; ran.notes.written(), note.as_bytes(), "{note}");
    }
    Ok(())
}

#[test]
fn an_image_may_be_too_large(rt: HostRuntime) -> Result<(), Fail> {
    let alloc = rt.alloc();
    for (name, part, size, note) in [
        ("p.bin", "m16", 16_386, "image: large\n"),
        ("p.bin", "m16", 16_387, "image: large\n"),
        ("p.bin", "m32", 32_770, "image: large\n"),
        ("p.hex", "m32", 1_048_577, "image: large\n"),
        ("p.hex", "m32", 1_048_576, "image: record 1\n"),
    ] {
        let mut given = objects(alloc, &SESSION)?;
        given.image = vec![in alloc; 0u8; size]?;
        let ran = call(alloc, &["replay", name, "5", part], given)?;
        assert_eq!(rt; ran.status, Status::Image, "{name} {size}");
        assert_eq!(rt; ran.notes.written(), note.as_bytes(), "{name} {size}");
    }
    Ok(())
}

/// READ_MEMORY of the first four words of the program, and the reply with those of the records.
const FIRST_WORDS: [u8; 20] = [
    0x1B, 0x00, 0x00, 0x0A, 0x00, 0x00, 0x00, 0x0E, 0x05, 0xA0, 0x08, 0x00, 0x00, 0x00, 0x00, 0x00,
    0x00, 0x00, 0x48, 0xD7,
];

const RECORDS_READ: [u8; 19] = [
    0x1B, 0x00, 0x00, 0x09, 0x00, 0x00, 0x00, 0x0E, 0x82, 0x01, 0xE0, 0x07, 0xBB, 0x08, 0xBB, 0xFF,
    0xCF, 0xAD, 0xE1,
];

#[test]
fn an_image_of_either_kind_is_the_program_of_either_part(rt: HostRuntime) -> Result<(), Fail> {
    let alloc = rt.alloc();
    let raw = [0x01, 0xE0, 0x07, 0xBB, 0x08, 0xBB, 0xFF, 0xCF];
    for (name, part, image) in [
        ("p.hex", "m16", RECORDS),
        ("p.hex", "m32", RECORDS),
        ("p.bin", "m32", raw.as_slice()),
        ("m32", "m32", raw.as_slice()),
    ] {
        let mut given = objects(alloc, &FIRST_WORDS)?;
        given.image = image.to_vec(alloc)?;
        let ran = call(alloc, &["replay", name, "100,5", part], given)?;
        assert_eq!(rt; ran.status, Status::Okay, "{name} {part}");
        assert_eq!(rt;
            ran.sent.written(),
            RECORDS_READ.as_slice(),
            "{name} {part}"
        );
    }
    Ok(())
}

/// READ_MEMORY of the word at byte address 0x4000, which the ATmega16 has not, and the reply with `CFFF`.
const WORD_8192: [u8; 20] = [
    0x1B, 0x00, 0x00, 0x0A, 0x00, 0x00, 0x00, 0x0E, 0x05, 0xA0, 0x02, 0x00, 0x00, 0x00, 0x00, 0x40,
    0x00, 0x00, 0xED, 0xF7,
];

const WORD_READ: [u8; 13] = [
    0x1B, 0x00, 0x00, 0x03, 0x00, 0x00, 0x00, 0x0E, 0x82, 0xFF, 0xCF, 0x8A, 0x9F,
];

#[test]
fn a_larger_image_is_one_of_the_larger_part(rt: HostRuntime) -> Result<(), Fail> {
    let alloc = rt.alloc();
    let mut given = objects(alloc, &WORD_8192)?;
    given.image = vec![in alloc; 0u8; 16_384]?;
    given.image.extend_from_slice(&[0xFF, 0xCF])?;
    let ran = call(alloc, &["replay", "p.bin", "5", "m32"], given)?;
    assert_eq!(rt; ran.status, Status::Okay);
    assert_eq!(rt; ran.sent.written(), WORD_READ.as_slice());
    Ok(())
}

#[test]
fn a_page_write_that_fails_in_opening_ends_the_call(rt: HostRuntime) -> Result<(), Fail> {
    let alloc = rt.alloc();
    let mut given = objects(alloc, &SESSION)?;
    given.fails.push((1, 0))?;
    let ran = call(alloc, &WORDS, given)?;
    assert_eq!(rt; ran.status, Status::Flash);
    assert_eq!(rt; ran.sent.written(), [].as_slice());
    assert_eq!(rt; ran.left, 22);
    assert_eq!(rt; ran.notes.written(), b"flash\n".as_slice());
    assert_eq!(rt; ran.flash.journal().len(), 0);
    Ok(())
}

/// A loader that has an empty content for each name, and counts its calls.
#[derive(Drop)]
struct Counting {
    calls: u64,
}

impl Loader for Counting {
    ghost use Rattle.std.specs.Prelude.{None};

    ghost contents = { λ s. None };

    ghost faults = { λ s. 0 };

    fn load(&mut self, alloc: Global, _name: &str, _most: usize) -> Result<Vec<u8>, LoadError> {
        self.calls = self.calls.wrapping_add(1);
        Ok(Vec::new(alloc))
    }
}

#[test]
fn the_loader_is_called_once(rt: HostRuntime) -> Result<(), Fail> {
    let alloc = rt.alloc();
    let mut loader = Counting { calls: 0 };
    let mut source = line_in(alloc, &SESSION)?;
    let mut sink = MemSink::of(alloc, Vec::new(alloc), 256)?;
    let mut notes = MemSink::of(alloc, Vec::new(alloc), 256)?;
    let texts = texts_of(alloc, &WORDS)?;
    let words = texts.as_slice();
    let flash = MemFlash::of_part(alloc, part_of(words), Vec::new(alloc))?;
    let ended = ice2(
        alloc,
        words,
        &mut loader,
        &mut source,
        &mut sink,
        &mut notes,
        flash,
    );
    assert_eq!(rt; ended.status, Status::Okay);
    assert_eq!(rt; loader.calls, 1);
    Ok(())
}
