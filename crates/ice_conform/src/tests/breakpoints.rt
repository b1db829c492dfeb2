//! Breakpoints in flash, comparators, and runs to an address.
use super::held::{Held, LIGHT, LIT, OPENED, OWN_BREAK, RESTORED_ONCE, RESTORED_TWICE, Words};
use super::session::{Session, assert_session, assert_sessions};
use super::talk::{BREAK_AT_2, GO, LIGHT_READ, OKAY, READ_WORDS, SIGN_OFF, STOP, Talk};
use std::test::Fail;

/// SET_BREAK of a software breakpoint at words 0, 1 and 3.
const BREAK_AT_0: &[u8] = &[0x11, 0x01, 0x00, 0x00, 0x00, 0x00, 0x00, 0x00];

const BREAK_AT_1: &[u8] = &[0x11, 0x01, 0x00, 0x01, 0x00, 0x00, 0x00, 0x00];

const BREAK_AT_3: &[u8] = &[0x11, 0x01, 0x00, 0x03, 0x00, 0x00, 0x00, 0x00];

/// SBRC r16,0 before LDS r16,0x0060, and before a NOP.
const SKIP_OF_TWO: Words = &[(0, &[0xFD00, 0x9100, 0x0060, 0x0000])];

const SKIP_OF_ONE: Words = &[(0, &[0xFD00, 0x0000])];

/// JMP to itself at word 0, and SBRC r16,0 at the last word.
const SKIP_AT_END: Words = &[(0, &[0x940C, 0x0000]), (0x1FFF, &[0xFD00])];

/// NOPs over two pages, and the same with a BREAK at the first word of the second.
const NOPS: Words = &[(0, &[0x0000; 128])];

const NOPPED: Held = Held(NOPS, &[]);

const NOPPED_TO_64: Held = Held(NOPS, &[0x40]);

static SESSIONS: [Session; 8] = [
    Session {
        name: "a breakpoint is met",
        image: LIGHT,
        words: &["100"],
        failing_writes: &[],
        exchanges: &[
            (BREAK_AT_2, OKAY, None),
            (GO, OKAY, Some((0x02, 0x01))),
            (SIGN_OFF, OKAY, None),
        ],
        notes: "cycles 2 steps 2 writes 1 dropped 0\n",
        journal: RESTORED_ONCE,
        left: LIT,
    },
    Session {
        name: "a breakpoint is met and left, and a run is forced to stop",
        image: LIGHT,
        words: &["100,5"],
        failing_writes: &[],
        exchanges: &[
            (BREAK_AT_2, OKAY, None),
            (GO, OKAY, Some((0x02, 0x01))),
            (READ_WORDS, LIGHT_READ, None),
            (GO, OKAY, None),
            (STOP, OKAY, Some((0x03, 0x02))),
            (SIGN_OFF, OKAY, None),
        ],
        notes: "cycles 11 steps 7 writes 2 dropped 0\n",
        journal: RESTORED_TWICE,
        left: LIT,
    },
    Session {
        name: "a comparator is met, and no page is written for it",
        image: LIGHT,
        words: &["100"],
        failing_writes: &[],
        exchanges: &[
            (
                &[0x11, 0x01, 0x01, 0x02, 0x00, 0x00, 0x00, 0x00],
                OKAY,
                None,
            ),
            (GO, OKAY, Some((0x02, 0x01))),
            (SIGN_OFF, OKAY, None),
        ],
        notes: "cycles 2 steps 2 writes 1 dropped 0\n",
        journal: OPENED,
        left: LIT,
    },
    Session {
        name: "no breakpoint is set behind a skip where two words begin",
        image: SKIP_OF_TWO,
        words: &["100"],
        failing_writes: &[],
        exchanges: &[
            (BREAK_AT_1, &[0xA8], None),
            (BREAK_AT_2, OKAY, None),
            (BREAK_AT_3, OKAY, None),
            (SIGN_OFF, OKAY, None),
        ],
        notes: "cycles 0 steps 0 writes 0 dropped 0\n",
        journal: &[(0, Held(SKIP_OF_TWO, &[]))],
        left: Held(SKIP_OF_TWO, &[]),
    },
    Session {
        name: "a breakpoint is set behind a skip of one word",
        image: SKIP_OF_ONE,
        words: &["100"],
        failing_writes: &[],
        exchanges: &[(BREAK_AT_1, OKAY, None), (SIGN_OFF, OKAY, None)],
        notes: "cycles 0 steps 0 writes 0 dropped 0\n",
        journal: &[(0, Held(SKIP_OF_ONE, &[]))],
        left: Held(SKIP_OF_ONE, &[]),
    },
    Session {
        name: "the last word stands before the first",
        image: SKIP_AT_END,
        words: &["100"],
        failing_writes: &[],
        exchanges: &[(BREAK_AT_0, &[0xA8], None), (SIGN_OFF, OKAY, None)],
        notes: "cycles 0 steps 0 writes 0 dropped 0\n",
        journal: &[(0, Held(SKIP_AT_END, &[])), (127, Held(SKIP_AT_END, &[]))],
        left: Held(SKIP_AT_END, &[]),
    },
    Session {
        name: "a breakpoint at the program's own BREAK",
        image: OWN_BREAK,
        words: &["100,5"],
        failing_writes: &[],
        exchanges: &[
            (BREAK_AT_1, OKAY, None),
            (GO, OKAY, Some((0x01, 0x01))),
            (GO, OKAY, None),
            (STOP, OKAY, Some((0x02, 0x02))),
            (SIGN_OFF, OKAY, None),
        ],
        notes: "cycles 10 steps 6 writes 0 dropped 0\n",
        journal: &[(0, Held(OWN_BREAK, &[]))],
        left: Held(OWN_BREAK, &[]),
    },
    Session {
        name: "a run to an address",
        image: NOPS,
        words: &["100"],
        failing_writes: &[],
        exchanges: &[
            (&[0x1C, 0x40, 0x00, 0x00, 0x00], OKAY, Some((0x40, 0x01))),
            (SIGN_OFF, OKAY, None),
        ],
        notes: "cycles 64 steps 64 writes 0 dropped 0\n",
        journal: &[(0, NOPPED), (1, NOPPED), (1, NOPPED_TO_64), (1, NOPPED)],
        left: NOPPED,
    },
];

#[test]
fn breakpoints_are_met_and_left(rt: HostRuntime) -> Result<(), Fail> {
    assert_sessions(&rt, rt.alloc(), &SESSIONS)?;
    Ok(())
}

/// A session over NOPs in which nothing runs.
const STANDS: Session = Session {
    name: "64 breakpoints and one more",
    image: NOPS,
    words: &["100"],
    failing_writes: &[],
    exchanges: &[],
    notes: "cycles 0 steps 0 writes 0 dropped 0\n",
    journal: &[(0, NOPPED), (1, NOPPED)],
    left: NOPPED,
};

/// The body of a command that sets the software breakpoint at an address.
fn break_at(address: u8) -> [u8; 8] {
    [0x11, 0x01, 0x00, address, 0x00, 0x00, 0x00, 0x00]
}

#[test]
fn a_65th_breakpoint_is_refused(rt: HostRuntime) -> Result<(), Fail> {
    let alloc = rt.alloc();
    let mut talk = Talk::new(alloc);
    for address in 0..64u8 {
        talk.ask(&break_at(address), OKAY)?;
    }
    talk.ask(&break_at(0x40), &[0xA8])?;
    talk.ask(&break_at(0x00), OKAY)?;
    talk.ask(&[0x1A, 0x00, 0x40, 0x00, 0x00, 0x00], &[0xA8])?;
    talk.ask(&[0x1A, 0x00, 0x3F, 0x00, 0x00, 0x00], OKAY)?;
    talk.ask(&break_at(0x40), OKAY)?;
    talk.ask(SIGN_OFF, OKAY)?;
    assert_session(&rt, alloc, &STANDS, &talk)?;
    Ok(())
}
