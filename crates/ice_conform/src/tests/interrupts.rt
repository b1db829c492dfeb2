//! Timers and interrupts, and what of a breakpoint goes first.
use super::held::{Held, Words};
use super::session::{Session, assert_sessions};
use super::talk::{GO, OKAY, SIGN_OFF};
use std::test::Fail;

/// SEI, and NOPs but for a RETI at 0x12 and 0x26, where the ATmega16 has the vectors of timer 0.
const SMALLER: Words = &[
    (0x00, &[0x9478]),
    (0x01, &[0x0000; 0x25]),
    (0x12, &[0x9518]),
    (0x26, &[0x9518]),
];

/// The same with 0x14 and 0x16, where the ATmega32 has them.
const LARGER: Words = &[
    (0x00, &[0x9478]),
    (0x01, &[0x0000; 0x15]),
    (0x14, &[0x9518]),
    (0x16, &[0x9518]),
];

/// WRITE_MEMORY of I/O registers: SP 045F; TIMSK, for the overflow of timer 0, and for its compare too; OCR0 05; TCNT0 FF and TCCR0 01.
const SP: &[u8] = &[
    0x04, 0x30, 0x02, 0x00, 0x00, 0x00, 0x3D, 0x00, 0x00, 0x00, 0x5F, 0x04,
];

const OVERFLOW_ON: &[u8] = &[
    0x04, 0x30, 0x01, 0x00, 0x00, 0x00, 0x39, 0x00, 0x00, 0x00, 0x01,
];

const BOTH_ON: &[u8] = &[
    0x04, 0x30, 0x01, 0x00, 0x00, 0x00, 0x39, 0x00, 0x00, 0x00, 0x03,
];

const COMPARE_AT_5: &[u8] = &[
    0x04, 0x30, 0x01, 0x00, 0x00, 0x00, 0x3C, 0x00, 0x00, 0x00, 0x05,
];

const TIMER_AT_END: &[u8] = &[
    0x04, 0x30, 0x02, 0x00, 0x00, 0x00, 0x32, 0x00, 0x00, 0x00, 0xFF, 0x01,
];

/// SET_BREAK of a software breakpoint at words 0x01, 0x02, 0x12 and 0x14, and of a comparator at 0x26.
const BREAK_AT_01: &[u8] = &[0x11, 0x01, 0x00, 0x01, 0x00, 0x00, 0x00, 0x00];

const BREAK_AT_02: &[u8] = &[0x11, 0x01, 0x00, 0x02, 0x00, 0x00, 0x00, 0x00];

const BREAK_AT_12: &[u8] = &[0x11, 0x01, 0x00, 0x12, 0x00, 0x00, 0x00, 0x00];

const BREAK_AT_14: &[u8] = &[0x11, 0x01, 0x00, 0x14, 0x00, 0x00, 0x00, 0x00];

const COMPARATOR_AT_26: &[u8] = &[0x11, 0x01, 0x01, 0x26, 0x00, 0x00, 0x00, 0x00];

/// The smaller part's program, and the same with a BREAK at each breakpoint, and at all but that at which a run starts.
const SMALL: Held = Held(SMALLER, &[]);

const SMALL_ALL: Held = Held(SMALLER, &[0x01, 0x02, 0x12]);

const SMALL_FROM_01: Held = Held(SMALLER, &[0x02, 0x12]);

const SMALL_FROM_02: Held = Held(SMALLER, &[0x01, 0x12]);

const SMALL_FROM_12: Held = Held(SMALLER, &[0x01, 0x02]);

/// The same of the larger part.
const LARGE: Held = Held(LARGER, &[]);

const LARGE_ALL: Held = Held(LARGER, &[0x01, 0x14]);

const LARGE_FROM_01: Held = Held(LARGER, &[0x14]);

static SESSIONS: [Session; 3] = [
    Session {
        name: "a due interrupt comes before a breakpoint",
        image: SMALLER,
        words: &["100"],
        failing_writes: &[],
        exchanges: &[
            (SP, OKAY, None),
            (OVERFLOW_ON, OKAY, None),
            (TIMER_AT_END, OKAY, None),
            (BREAK_AT_01, OKAY, None),
            (BREAK_AT_02, OKAY, None),
            (BREAK_AT_12, OKAY, None),
            (GO, OKAY, Some((0x01, 0x01))),
            (GO, OKAY, Some((0x12, 0x01))),
            (GO, OKAY, Some((0x02, 0x01))),
            (SIGN_OFF, OKAY, None),
        ],
        notes: "cycles 10 steps 4 writes 0 dropped 0\n",
        journal: &[
            (0, SMALL),
            (0, SMALL_ALL),
            (0, SMALL_FROM_01),
            (0, SMALL_ALL),
            (0, SMALL_FROM_12),
            (0, SMALL_ALL),
            (0, SMALL),
        ],
        left: SMALL,
    },
    Session {
        name: "a comparator waits for a due interrupt",
        image: SMALLER,
        words: &["100"],
        failing_writes: &[],
        exchanges: &[
            (SP, OKAY, None),
            (BOTH_ON, OKAY, None),
            (COMPARE_AT_5, OKAY, None),
            (TIMER_AT_END, OKAY, None),
            (BREAK_AT_01, OKAY, None),
            (BREAK_AT_02, OKAY, None),
            (BREAK_AT_12, OKAY, None),
            (COMPARATOR_AT_26, OKAY, None),
            (GO, OKAY, Some((0x01, 0x01))),
            (GO, OKAY, Some((0x12, 0x01))),
            (GO, OKAY, Some((0x02, 0x01))),
            (GO, OKAY, Some((0x26, 0x01))),
            (SIGN_OFF, OKAY, None),
        ],
        notes: "cycles 15 steps 6 writes 0 dropped 0\n",
        journal: &[
            (0, SMALL),
            (0, SMALL_ALL),
            (0, SMALL_FROM_01),
            (0, SMALL_ALL),
            (0, SMALL_FROM_12),
            (0, SMALL_ALL),
            (0, SMALL_FROM_02),
            (0, SMALL_ALL),
            (0, SMALL),
        ],
        left: SMALL,
    },
    Session {
        name: "the larger part takes its own interrupt, that of the lower address first",
        image: LARGER,
        words: &["100", "m32"],
        failing_writes: &[],
        exchanges: &[
            (SP, OKAY, None),
            (BOTH_ON, OKAY, None),
            (TIMER_AT_END, OKAY, None),
            (BREAK_AT_01, OKAY, None),
            (BREAK_AT_14, OKAY, None),
            (GO, OKAY, Some((0x01, 0x01))),
            (GO, OKAY, Some((0x14, 0x01))),
            (SIGN_OFF, OKAY, None),
        ],
        notes: "cycles 6 steps 3 writes 0 dropped 0\n",
        journal: &[
            (0, LARGE),
            (0, LARGE_ALL),
            (0, LARGE_FROM_01),
            (0, LARGE_ALL),
            (0, LARGE),
        ],
        left: LARGE,
    },
];

#[test]
fn interrupts_go_first(rt: HostRuntime) -> Result<(), Fail> {
    assert_sessions(&rt, rt.alloc(), &SESSIONS)?;
    Ok(())
}
