//! Programs as a compiler makes them, and one that reads a planted word.
use super::held::{Held, Words};
use super::session::{Session, assert_sessions};
use super::talk::{GO, OKAY, SIGN_OFF, STOP};
use std::test::Fail;

/// An ordinary start: r1 and SREG cleared, SP 045F, four bytes copied from flash at 0x30 to SRAM at 0x60, and a call of 0x10, which lights
/// PORTB and returns.
const START: Words = &[
    (
        0x00,
        &[
            0x2411, 0xBE1F, 0xE5CF, 0xE0D4, 0xBFDE, 0xBFCD, 0xE3E0, 0xE0F0, 0xE6A0, 0xE0B0, 0x9105,
            0x930D, 0x36A4, 0xF7E1, 0xD001, 0xCFFF, 0xE001, 0xBB08, 0x9508,
        ],
    ),
    (0x18, &[0x2211, 0x4433]),
];

const STARTED: Held = Held(START, &[]);

const START_TO_10: Held = Held(START, &[0x10]);

/// LDS r16,0x0060; RJMP to itself.
const LOADS: Words = &[(0, &[0x9100, 0x0060, 0xCFFF])];

const LOADED: Held = Held(LOADS, &[]);

const OPERAND_PLANTED: Held = Held(LOADS, &[1]);

static SESSIONS: [Session; 2] = [
    Session {
        name: "a start that copies words and calls",
        image: START,
        words: &["100"],
        failing_writes: &[],
        exchanges: &[
            (
                &[0x11, 0x01, 0x00, 0x10, 0x00, 0x00, 0x00, 0x00],
                OKAY,
                None,
            ),
            (GO, OKAY, Some((0x10, 0x01))),
            (
                &[0x05, 0x20, 0x04, 0x00, 0x00, 0x00, 0x60, 0x00, 0x00, 0x00],
                &[0x82, 0x11, 0x22, 0x33, 0x44],
                None,
            ),
            (
                &[0x05, 0x20, 0x02, 0x00, 0x00, 0x00, 0x5E, 0x04, 0x00, 0x00],
                &[0x82, 0x00, 0x0F],
                None,
            ),
            (SIGN_OFF, OKAY, None),
        ],
        notes: "cycles 44 steps 27 writes 0 dropped 0\n",
        journal: &[(0, STARTED), (0, START_TO_10), (0, STARTED)],
        left: STARTED,
    },
    Session {
        name: "a planted operand is read: r16 is loaded from 0x9598, which has no memory, and not from 0x0060",
        image: LOADS,
        words: &["3"],
        failing_writes: &[],
        exchanges: &[
            (
                &[
                    0x04, 0x20, 0x01, 0x00, 0x00, 0x00, 0x60, 0x00, 0x00, 0x00, 0x2A,
                ],
                OKAY,
                None,
            ),
            (
                &[0x11, 0x01, 0x00, 0x01, 0x00, 0x00, 0x00, 0x00],
                OKAY,
                None,
            ),
            (GO, OKAY, None),
            (STOP, OKAY, Some((0x02, 0x02))),
            (
                &[0x05, 0x20, 0x01, 0x00, 0x00, 0x00, 0x10, 0x00, 0x00, 0x00],
                &[0x82, 0x00],
                None,
            ),
            (SIGN_OFF, OKAY, None),
        ],
        notes: "cycles 6 steps 3 writes 0 dropped 0\n",
        journal: &[(0, LOADED), (0, OPERAND_PLANTED), (0, LOADED)],
        left: LOADED,
    },
];

#[test]
fn programs_run_as_their_words_say(rt: HostRuntime) -> Result<(), Fail> {
    assert_sessions(&rt, rt.alloc(), &SESSIONS)?;
    Ok(())
}
