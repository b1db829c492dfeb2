//! The ATmega32: more flash, and more data.
use super::held::{Held, LIGHT, LIT, OPENED, RESTORED_ONCE, Words};
use super::session::{Session, assert_sessions};
use super::talk::{BREAK_AT_2, GO, OKAY, SIGN_OFF};
use std::test::Fail;

/// JMP to 0x2000, where the smaller part has no word, and RJMP to itself there.
const FAR: Words = &[(0x0000, &[0x940C, 0x2000]), (0x2000, &[0xCFFF])];

const FAR_LOADED: Held = Held(FAR, &[]);

const FAR_PLANTED: Held = Held(FAR, &[0x2000]);

/// JMP to itself at word 0, and SBRC r16,0 at the last word.
const SKIP_AT_END: Words = &[(0x0000, &[0x940C, 0x0000]), (0x3FFF, &[0xFD00])];

const SKIP_LOADED: Held = Held(SKIP_AT_END, &[]);

static SESSIONS: [Session; 4] = [
    Session {
        name: "a breakpoint is met",
        image: LIGHT,
        words: &["100", "m32"],
        failing_writes: &[],
        exchanges: &[
            (BREAK_AT_2, OKAY, None),
            (GO, OKAY, Some((0x0002, 0x01))),
            (SIGN_OFF, OKAY, None),
        ],
        notes: "cycles 2 steps 2 writes 1 dropped 0\n",
        journal: RESTORED_ONCE,
        left: LIT,
    },
    Session {
        name: "a run behind the smaller part's flash",
        image: FAR,
        words: &["100", "m32"],
        failing_writes: &[],
        exchanges: &[
            (
                &[0x11, 0x01, 0x00, 0x00, 0x20, 0x00, 0x00, 0x00],
                OKAY,
                None,
            ),
            (GO, OKAY, Some((0x2000, 0x01))),
            (SIGN_OFF, OKAY, None),
        ],
        notes: "cycles 3 steps 1 writes 0 dropped 0\n",
        journal: &[
            (0, FAR_LOADED),
            (128, FAR_LOADED),
            (128, FAR_PLANTED),
            (128, FAR_LOADED),
        ],
        left: FAR_LOADED,
    },
    Session {
        name: "the last word stands before the first",
        image: SKIP_AT_END,
        words: &["100", "m32"],
        failing_writes: &[],
        exchanges: &[
            (
                &[0x11, 0x01, 0x00, 0x00, 0x00, 0x00, 0x00, 0x00],
                &[0xA8],
                None,
            ),
            (SIGN_OFF, OKAY, None),
        ],
        notes: "cycles 0 steps 0 writes 0 dropped 0\n",
        journal: &[(0, SKIP_LOADED), (255, SKIP_LOADED)],
        left: SKIP_LOADED,
    },
    Session {
        name: "the last byte of memory, and the one behind it",
        image: LIGHT,
        words: &["100", "m32"],
        failing_writes: &[],
        exchanges: &[
            (
                &[
                    0x04, 0x20, 0x01, 0x00, 0x00, 0x00, 0x5F, 0x08, 0x00, 0x00, 0x5A,
                ],
                OKAY,
                None,
            ),
            (
                &[0x05, 0x20, 0x01, 0x00, 0x00, 0x00, 0x5F, 0x08, 0x00, 0x00],
                &[0x82, 0x5A],
                None,
            ),
            (
                &[
                    0x04, 0x20, 0x01, 0x00, 0x00, 0x00, 0x60, 0x08, 0x00, 0x00, 0x5A,
                ],
                OKAY,
                None,
            ),
            (
                &[0x05, 0x20, 0x01, 0x00, 0x00, 0x00, 0x60, 0x08, 0x00, 0x00],
                &[0x82, 0x00],
                None,
            ),
            (SIGN_OFF, OKAY, None),
        ],
        notes: "cycles 0 steps 0 writes 0 dropped 0\n",
        journal: OPENED,
        left: LIT,
    },
];

#[test]
fn the_larger_part_has_more(rt: HostRuntime) -> Result<(), Fail> {
    assert_sessions(&rt, rt.alloc(), &SESSIONS)?;
    Ok(())
}
