//! Scripts of the shell: what is printed of each line, which of them are run where a call fails, and what the target comes to.
use super::call::{Case, READS, Wanted, assert_came, run_script};
use super::held::{ERASED, Held, Journal, LIGHT, LIT, OPENED, PLANTED, RESTORED_ONCE, Words};
use super::lines::light_case;
use ice_top::Status;
use std::alloc::{AllocError, Global};
use std::process::Abort;
use std::test::Fail;

/// A script on the light, by its lines, each with what is printed of it: the breakpoint at word 2 is met.
const LINES: [(&str, &str); 6] = [
    ("break 2\n", "ok\n"),
    ("go\n", "ok\n"),
    ("wait\n", "event 0002 cause 01\n"),
    ("pc\n", "pc 0002\n"),
    ("read flash 0 8\n", "0000 01e007bb08bbffcf\n"),
    ("quit\n", "ok\n"),
];

/// The totals of a session in which no step is made.
const NO_STEP: &str = "cycles 0 steps 0 writes 0 dropped 0\n";

/// Those of the light, up to word 2.
const TWO_STEPS: &str = "cycles 2 steps 2 writes 1 dropped 0\n";

/// The page writes of the script in which the closing restore fails.
const UNRESTORED: Journal = &[(0, LIT), (0, PLANTED)];

/// The lines of a script, and what is printed of them.
#[derive(Drop)]
struct Script {
    text: Vec<u8>,
    printed: Vec<u8>,
}

/// The script of the first so many lines.
fn front_of(alloc: Global, count: usize) -> Result<Script, AllocError> {
    let mut text = Vec::new(alloc);
    let mut printed = Vec::new(alloc);
    for (line, answer) in LINES.iter().take(count) {
        text.extend_from_slice(line.as_bytes())?;
        printed.extend_from_slice(answer.as_bytes())?;
    }
    Ok(Script { text, printed })
}

/// The totals and the page writes behind so many lines: the second starts the run.
fn made(count: usize) -> (&'static str, Journal) {
    if count < 2 {
        return (NO_STEP, OPENED);
    }
    (TWO_STEPS, RESTORED_ONCE)
}

/// Runs a script on the light, and compares what comes where it is restored.
fn assert_light(
    rt: &impl Abort,
    alloc: Global,
    case: &Case,
    status: Status,
    (sent, count): (&[u8], usize),
    place: &str,
) -> Result<(), AllocError> {
    let (notes, journal) = made(count);
    let wanted = Wanted {
        status,
        sent,
        notes,
        journal,
        left: LIT,
    };
    let outcome = run_script(alloc, case)?;
    assert_came(rt, alloc, &outcome, &wanted, place)
}

/// How many lines end in the first so many bytes.
fn ended(taken: usize) -> usize {
    let mut count = 0usize;
    let mut end = 0usize;
    for (line, _) in LINES.iter() {
        end = end.saturating_add(line.len());
        if end <= taken {
            count = count.saturating_add(1);
        }
    }
    count
}

#[test]
fn each_read_of_a_script_may_fail(rt: HostRuntime) -> Result<(), Fail> {
    let alloc = rt.alloc();
    let whole = front_of(alloc, LINES.len())?;
    let len = whole.text.len();
    for most in READS {
        // How many reads are made before, up to one that is not made, since `quit` is read.
        for before in 0..=len.div_ceil(most.max(1)) {
            let taken = before.saturating_mul(most).min(len);
            let lines = ended(taken);
            let mut case = light_case(whole.text.as_slice(), most);
            case.failing_read = Some((before as u64).saturating_add(1));
            let status = if taken < len {
                Status::Read
            } else {
                Status::Okay
            };
            let printed = front_of(alloc, lines)?.printed;
            let came = (printed.as_slice(), lines);
            assert_light(&rt, alloc, &case, status, came, "a read fails")?;
        }
    }
    Ok(())
}

#[test]
fn each_put_of_a_script_may_fail(rt: HostRuntime) -> Result<(), Fail> {
    let alloc = rt.alloc();
    let whole = front_of(alloc, LINES.len())?;
    let mut number = 0u64;
    for (index, (_, answer)) in LINES.iter().enumerate() {
        number = number.wrapping_add(1);
        let before = front_of(alloc, index)?.printed.len();
        for taken in [0, answer.len().saturating_sub(1)] {
            let mut case = light_case(whole.text.as_slice(), 7);
            case.failing_put = Some((number, taken));
            let sent = whole
                .printed
                .get(..before.saturating_add(taken))
                .unwrap_or(&[]);
            let came = (sent, index.saturating_add(1));
            assert_light(&rt, alloc, &case, Status::Write, came, "a put fails")?;
        }
    }
    Ok(())
}

#[test]
fn a_script_ends_at_its_source(rt: HostRuntime) -> Result<(), Fail> {
    let alloc = rt.alloc();
    for count in 0..=LINES.len() {
        let some = front_of(alloc, count)?;
        let came = (some.printed.as_slice(), count);
        let text = some.text.as_slice();
        let case = light_case(text, 4096);
        assert_light(&rt, alloc, &case, Status::Okay, came, "at an end")?;
        // The last line may have none.
        let open = text.get(..text.len().saturating_sub(1)).unwrap_or(&[]);
        let case = light_case(open, 4096);
        assert_light(&rt, alloc, &case, Status::Okay, came, "with no end")?;
    }
    Ok(())
}

#[test]
fn a_restore_that_fails_decides_where_nothing_came_before(rt: HostRuntime) -> Result<(), Fail> {
    let alloc = rt.alloc();
    // `quit` restores before its answer is put, and the end of the lines behind all answers.
    for (lines, put, sent, status) in [
        (6, None, 6, Status::Flash),
        (6, Some((6, 0)), 5, Status::Flash),
        (5, None, 5, Status::Flash),
        (5, Some((5, 0)), 4, Status::Write),
        (6, Some((3, 0)), 2, Status::Write),
    ] {
        let some = front_of(alloc, lines)?;
        let printed = front_of(alloc, sent)?.printed;
        let case = Case {
            failing_put: put,
            failing_writes: &[(3, 0)],
            ..light_case(some.text.as_slice(), 4096)
        };
        let wanted = Wanted {
            status,
            sent: printed.as_slice(),
            notes: TWO_STEPS,
            journal: UNRESTORED,
            left: PLANTED,
        };
        let outcome = run_script(alloc, &case)?;
        assert_came(&rt, alloc, &outcome, &wanted, "a restore fails")?;
    }
    Ok(())
}

/// A script, and what comes of it.
struct Row {
    words: &'static [&'static str],
    text: &'static str,
    printed: &'static str,
    status: Status,
    journal: Journal,
    left: Held,
}

static ROWS: [Row; 4] = [
    // No event can come, and what stands behind is not run.
    Row {
        words: &["100"],
        text: "wait\nsync\n",
        printed: "! closed\n",
        status: Status::Link,
        journal: OPENED,
        left: LIT,
    },
    // Lines that are wrong, or do nothing, send nothing.
    Row {
        words: &["100"],
        text: "\n # go\n\t go x\r\nbrake 2\nbreak\npc 4 5\nread flash 0 g\r\n sync \r\ngo\r",
        printed: "? extra 6\n? unknown 1\n? missing 6\n? extra 6\n? value 14\nok\n? unknown 1\n",
        status: Status::Okay,
        journal: OPENED,
        left: LIT,
    },
    // A page is erased in programming mode alone, and the program with it.
    Row {
        words: &["100"],
        text: "erase\nprog\nerase 0\nread flash 0 2\ngo\nleave\nsync",
        printed: "refused a5\nok\nok\n0000 ffff\nrefused a5\nok\nok\n",
        status: Status::Okay,
        journal: &[(0, LIT), (0, ERASED)],
        left: ERASED,
    },
    // The last word of the larger part.
    Row {
        words: &["100", "m32"],
        text: "read flash 7ffe 2\nread flash 0 2\nquit\nsync\n",
        printed: "7ffe ffff\n0000 01e0\nok\n",
        status: Status::Okay,
        journal: OPENED,
        left: LIT,
    },
];

#[test]
fn scripts_print_what_is_answered(rt: HostRuntime) -> Result<(), Fail> {
    let alloc = rt.alloc();
    for row in &ROWS {
        for most in READS {
            let case = Case {
                words: row.words,
                ..light_case(row.text.as_bytes(), most)
            };
            let wanted = Wanted {
                status: row.status,
                sent: row.printed.as_bytes(),
                notes: NO_STEP,
                journal: row.journal,
                left: row.left,
            };
            let outcome = run_script(alloc, &case)?;
            assert_came(&rt, alloc, &outcome, &wanted, row.text)?;
        }
    }
    Ok(())
}

/// So many copies of a text, and then another.
fn repeated(alloc: Global, piece: &str, count: usize, last: &str) -> Result<Vec<u8>, AllocError> {
    let mut text = Vec::new(alloc);
    for _ in 0..count {
        text.extend_from_slice(piece.as_bytes())?;
    }
    text.extend_from_slice(last.as_bytes())?;
    Ok(text)
}

#[test]
fn no_more_than_64_events_wait(rt: HostRuntime) -> Result<(), Fail> {
    let alloc = rt.alloc();
    // Three steps of one cycle, and the others of two; the light writes two ports.
    for (count, end, answer, status, notes) in [
        (
            64,
            "sync\n",
            "ok\n",
            Status::Okay,
            "cycles 125 steps 64 writes 2 dropped 0\n",
        ),
        (
            65,
            "sync\n",
            "! events full\n",
            Status::Link,
            "cycles 127 steps 65 writes 2 dropped 0\n",
        ),
        (
            65,
            "quit\n",
            "! events full\n",
            Status::Link,
            "cycles 127 steps 65 writes 2 dropped 0\n",
        ),
    ] {
        let text = repeated(alloc, "step\n", count, end)?;
        let printed = repeated(alloc, "ok\n", count, answer)?;
        let wanted = Wanted {
            status,
            sent: printed.as_slice(),
            notes,
            journal: OPENED,
            left: LIT,
        };
        let outcome = run_script(alloc, &light_case(text.as_slice(), 4096))?;
        assert_came(&rt, alloc, &outcome, &wanted, "events")?;
    }
    Ok(())
}

/// A page of NOPs over the light.
const NOPS: Words = &[(0, &[0; 64])];

const BLANKED: Held = Held(NOPS, &[]);

#[test]
fn a_page_is_written_by_a_line(rt: HostRuntime) -> Result<(), Fail> {
    let alloc = rt.alloc();
    let mut text = repeated(alloc, "#", 320, "\n")?;
    text.extend_from_slice(repeated(alloc, "#", 321, "\nprog\npage 0 ")?.as_slice())?;
    text.extend_from_slice(repeated(alloc, "0", 256, "\n")?.as_slice())?;
    text.extend_from_slice(b"read flash 0 4\nleave\nquit\n")?;
    let wanted = Wanted {
        status: Status::Okay,
        sent: b"? long\nok\nok\n0000 00000000\nok\nok\n",
        notes: NO_STEP,
        journal: &[(0, LIT), (0, BLANKED)],
        left: BLANKED,
    };
    for most in READS {
        let outcome = run_script(alloc, &light_case(text.as_slice(), most))?;
        assert_came(&rt, alloc, &outcome, &wanted, "a page")?;
    }
    Ok(())
}
