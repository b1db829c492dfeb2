//! Records worked by hand, and what is said of each line of them.
ghost use Rattle.std.specs.Prelude.{IfOk};
ghost use Rattle.ice_verify.specs.Checking.{IsSound};

use crate::{Verdict, Verifier};
use part_spec::Part;
use std::test::Fail;

/// LDI r16, 1; OUT DDRB, r16; OUT PORTB, r16; RJMP to itself.
const PORT: [u16; 4] = [0xE001, 0xBB07, 0xBB08, 0xCFFF];

/// LDS r16, 0x0060; RJMP to itself.
const LOADS: [u16; 3] = [0x9100, 0x0060, 0xCFFF];

/// What comes of a record: the number of the first line with a verdict, and that; or whether it is closed.
#[derive(Clone, Copy, Debug, PartialEq, Eq)]
enum Comes {
    Judged(usize, Verdict),
    Closed(bool),
}

/// A verifier of records of a program that begins with these words.
fn begin(rt: &HostRuntime, words: &[u16]) -> Result<Verifier, Fail>
    ensures { IfOk result IsSound }
{
    let mut program = vec![in rt.alloc(); 0xFFFFu16; 8192]?;
    for place in 0..words.len() {
        if place < program.len() {
            program[place] = words[place];
        }
    }
    Ok(Verifier::begin(rt.alloc(), Part::M16, &program)?)
}

/// What comes of these lines, of a session over such a program.
fn judged(rt: &HostRuntime, words: &[u16], lines: &[&[u8]]) -> Result<Comes, Fail> {
    let mut verifier = begin(rt, words)?;
    for place in 0..lines.len() {
        match verifier.line(lines[place]) {
            None => {}
            Some(verdict) => return Ok(Comes::Judged(place + 1, verdict)),
        }
    }
    Ok(Comes::Closed(verifier.closed()))
}

#[test]
fn a_session_that_only_signs_off(rt: HostRuntime) -> Result<(), Fail> {
    let signs_off = b"in 1b0000010000000e007a86".as_slice();
    let answered = b"out 1b0000010000000e807202".as_slice();
    let other = b"out 1b0000010000000e807203".as_slice();
    assert_eq!(rt;
        judged(&rt, &PORT, &[signs_off, answered])?,
        Comes::Closed(true)
    );
    assert_eq!(rt;
        judged(&rt, &PORT, &[signs_off, other])?,
        Comes::Judged(2, Verdict::No)
    );
    assert_eq!(rt; judged(&rt, &PORT, &[signs_off])?, Comes::Closed(false));
    assert_eq!(rt; judged(&rt, &PORT, &[])?, Comes::Closed(false));
    let behind = judged(&rt, &PORT, &[signs_off, answered, b"end"])?;
    assert_eq!(rt; behind, Comes::Judged(3, Verdict::No));
    Ok(())
}

#[test]
fn a_line_of_no_form_is_bad(rt: HostRuntime) -> Result<(), Fail> {
    let bad: [&[u8]; 14] = [
        b"",
        b"in",
        b"in ",
        b"in 1",
        b"in 1B",
        b"in  -",
        b"end ",
        b"halt 1 5",
        b"halt 00 5",
        b"halt 08 5",
        b"halt 02 05",
        b"halt 02 ",
        b"halt 08 100000001",
        b"out -",
    ];
    for line in bad {
        let comes = judged(&rt, &PORT, &[line])?;
        assert_eq!(rt; comes, Comes::Judged(1, Verdict::Bad));
    }
    let twice = judged(&rt, &PORT, &[b"in 00", b"in 00"])?;
    assert_eq!(rt; twice, Comes::Judged(2, Verdict::Bad));
    Ok(())
}

#[test]
fn too_many_steps_are_long(rt: HostRuntime) -> Result<(), Fail> {
    let one_run = judged(&rt, &PORT, &[b"halt 02 100000001"])?;
    assert_eq!(rt; one_run, Comes::Judged(1, Verdict::Long));
    let more_digits = judged(&rt, &PORT, &[b"halt 02 99999999999999999999999"])?;
    assert_eq!(rt; more_digits, Comes::Judged(1, Verdict::Long));
    // A run of the most steps is not long; here none is out.
    let most = judged(&rt, &PORT, &[b"halt 02 100000000"])?;
    assert_eq!(rt; most, Comes::Judged(1, Verdict::No));
    let two_runs = judged(
        &rt,
        &PORT,
        &[
            b"in 1b0000010000000e08320a",
            b"out 1b0000010000000e807202",
            b"in 1b0100020000000e0a0131d5",
            b"out 1b0100010000000e80cd83",
            b"halt 02 5",
            b"out 1bffff060000000ee003000000029013",
            b"in 1b0200010000000e085d01",
            b"out 1b0200010000000e801d09",
            b"halt 02 99999996",
        ],
    )?;
    assert_eq!(rt; two_runs, Comes::Judged(9, Verdict::Long));
    Ok(())
}

#[test]
fn a_line_has_so_many_bytes(rt: HostRuntime) -> Result<(), Fail> {
    let most = zeros(&rt, b"in ", 1024)?;
    assert_eq!(rt; judged(&rt, &PORT, &[&most])?, Comes::Closed(false));
    let one_more = zeros(&rt, b"in ", 1026)?;
    assert_eq!(rt;
        judged(&rt, &PORT, &[&one_more])?,
        Comes::Judged(1, Verdict::Bad)
    );
    let longest = zeros(&rt, b"out ", 8316)?;
    assert_eq!(rt;
        judged(&rt, &PORT, &[&most, &longest])?,
        Comes::Judged(2, Verdict::No)
    );
    let longer = zeros(&rt, b"out ", 8318)?;
    assert_eq!(rt;
        judged(&rt, &PORT, &[&most, &longer])?,
        Comes::Judged(2, Verdict::Bad)
    );
    Ok(())
}

/// A word, and so many digits 0 behind it.
fn zeros(rt: &HostRuntime, word: &[u8], count: usize) -> Result<Vec<u8>, Fail> {
    let mut line = Vec::new(rt.alloc());
    line.extend_from_slice(word)?;
    for _ in 0..count {
        line.push(b'0')?;
    }
    Ok(line)
}

#[test]
fn bytes_come_up_to_the_end_of_a_frame(rt: HostRuntime) -> Result<(), Fail> {
    let one_more = judged(&rt, &PORT, &[b"in 1b0000010000000e007a8600"])?;
    assert_eq!(rt; one_more, Comes::Judged(1, Verdict::No));
    let none_waits = judged(&rt, &PORT, &[b"in -"])?;
    assert_eq!(rt; none_waits, Comes::Judged(1, Verdict::No));
    Ok(())
}

#[test]
fn two_frames_inside_a_damaged_one_are_heard_one_by_one(rt: HostRuntime) -> Result<(), Fail> {
    // The first byte of the outer check is right: the last byte shows the damage.
    let damaged = b"in 1b0500160000000e1b0100010000000e0f32ff1b0200010000000e00158d3300".as_slice();
    let answered = b"out 1b0100010000000e80cd83".as_slice();
    let signed_off = b"out 1b0200010000000e801d09".as_slice();
    let comes = judged(&rt, &PORT, &[damaged, answered, b"in -", signed_off])?;
    assert_eq!(rt; comes, Comes::Closed(true));
    let more = judged(&rt, &PORT, &[damaged, answered, b"in 1b"])?;
    assert_eq!(rt; more, Comes::Judged(3, Verdict::No));
    Ok(())
}

#[test]
fn a_line_that_ends_while_a_run_is_out(rt: HostRuntime) -> Result<(), Fail> {
    let comes = judged(
        &rt,
        &PORT,
        &[
            b"in 1b0000010000000e08320a",
            b"out 1b0000010000000e807202",
            b"end",
            b"out -",
            b"halt 02 5",
            b"out -",
        ],
    )?;
    assert_eq!(rt; comes, Comes::Closed(true));
    Ok(())
}

#[test]
fn a_breakpoint_is_met_with_nothing_planted(rt: HostRuntime) -> Result<(), Fail> {
    let comes = judged(
        &rt,
        &PORT,
        &[
            b"in 1b0000080000000e11010002000000001c9e",
            b"out 1b0000010000000e807202",
            b"in 1b0100010000000e088d8b",
            b"out 1b0100010000000e80cd83",
            b"halt 01 2",
            b"out 1bffff060000000ee002000000014f2a",
            b"in 1b0200010000000e07aaf9",
            b"out 1b0200050000000e8402000000ca70",
            b"in 1b03000100",
            b"out -",
            b"in 00000e08e280",
            b"out 1b0300010000000e80a288",
            b"in 1b0400010000000e0afe3f",
            b"out 1b0400010000000e80ac14",
            b"in 1b05",
            b"out -",
            b"halt 02 5",
            b"out 1bffff060000000ee003000000029013",
            b"in 00010000000e001b11",
            b"out 1b0500010000000e801395",
        ],
    )?;
    assert_eq!(rt; comes, Comes::Closed(true));
    Ok(())
}

#[test]
fn a_planted_operand_is_not_what_the_program_loads(rt: HostRuntime) -> Result<(), Fail> {
    // The address 0x0060 of LDS is a breakpoint's: the record tells of a load from 0x9598, past the memory.
    let lines: [&[u8]; 12] = [
        b"in 1b00000b0000000e042001000000600000002a30aa",
        b"out 1b0000010000000e807202",
        b"in 1b0100080000000e1101000100000000facb",
        b"out 1b0100010000000e80cd83",
        b"in 1b0200010000000e085d01",
        b"out 1b0200010000000e801d09",
        b"in 1b0300020000000e0a01cb4e",
        b"out 1b0300010000000e80a288",
        b"halt 02 3",
        b"out 1bffff060000000ee00200000002d418",
        b"in 1b04000a0000000e05200100000010000000013c",
        b"out 1b0400020000000e8200acf4",
    ];
    assert_eq!(rt;
        judged(&rt, &LOADS, &lines)?,
        Comes::Judged(12, Verdict::No)
    );
    Ok(())
}
