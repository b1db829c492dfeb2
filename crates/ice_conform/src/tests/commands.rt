//! What a target that stands answers and refuses.
use super::held::{LIGHT, LIT, OPENED};
use super::session::{Session, assert_sessions};
use super::talk::{OKAY, SIGN_OFF, STOP};
use std::test::Fail;

static SESSIONS: [Session; 4] = [
    Session {
        name: "bodies that are no command, or too long or short for theirs, and a stop of what stands",
        image: LIGHT,
        words: &["100"],
        failing_writes: &[],
        exchanges: &[
            (&[], &[0xAA], None),
            (&[0x12], &[0xAA], None),
            (&[0x7F], &[0xAA], None),
            (&[0x01, 0x00], &[0xA6], None),
            (&[0x08, 0x00], &[0xA6], None),
            (
                &[0x05, 0xA0, 0x08, 0x00, 0x00, 0x00, 0x00, 0x00, 0x00],
                &[0xA6],
                None,
            ),
            (
                &[
                    0x04, 0x20, 0x02, 0x00, 0x00, 0x00, 0x60, 0x00, 0x00, 0x00, 0x01,
                ],
                &[0xA6],
                None,
            ),
            (STOP, &[0xA5], None),
            (SIGN_OFF, OKAY, None),
        ],
        notes: "cycles 0 steps 0 writes 0 dropped 0\n",
        journal: OPENED,
        left: LIT,
    },
    Session {
        name: "reads of the program: at its end, behind it, too many bytes, past 32 bits, from an odd address",
        image: LIGHT,
        words: &["100"],
        failing_writes: &[],
        exchanges: &[
            (
                &[0x05, 0xA0, 0x01, 0x00, 0x00, 0x00, 0xFF, 0x3F, 0x00, 0x00],
                &[0x82, 0xFF],
                None,
            ),
            (
                &[0x05, 0xA0, 0x00, 0x00, 0x00, 0x00, 0x00, 0x40, 0x00, 0x00],
                &[0x82],
                None,
            ),
            (
                &[0x05, 0xA0, 0x01, 0x00, 0x00, 0x00, 0x00, 0x40, 0x00, 0x00],
                &[0xA3],
                None,
            ),
            (
                &[0x05, 0xA0, 0x01, 0x10, 0x00, 0x00, 0x00, 0x00, 0x00, 0x00],
                &[0xA3],
                None,
            ),
            (
                &[0x05, 0xA0, 0x02, 0x00, 0x00, 0x00, 0xFF, 0xFF, 0xFF, 0xFF],
                &[0xA3],
                None,
            ),
            (
                &[0x05, 0xA0, 0x03, 0x00, 0x00, 0x00, 0x01, 0x00, 0x00, 0x00],
                &[0x82, 0xE0, 0x07, 0xBB],
                None,
            ),
            (
                &[0x05, 0xB0, 0x01, 0x00, 0x00, 0x00, 0x00, 0x00, 0x00, 0x00],
                &[0xA2],
                None,
            ),
            (SIGN_OFF, OKAY, None),
        ],
        notes: "cycles 0 steps 0 writes 0 dropped 0\n",
        journal: OPENED,
        left: LIT,
    },
    Session {
        name: "parameters that are taken, read, of a wrong size or value, and read-only",
        image: LIGHT,
        words: &["100"],
        failing_writes: &[],
        exchanges: &[
            (&[0x02, 0x05, 0x08], OKAY, None),
            (&[0x03, 0x05], &[0x81, 0x08], None),
            (&[0x03, 0x02], &[0x81, 0x00, 0x06, 0x00, 0x06], None),
            (&[0x03, 0x06], &[0x81, 0x88, 0x13], None),
            (&[0x02, 0x01, 0x00], &[0xA1], None),
            (&[0x02, 0x01, 0x00, 0x00], &[0xA1], None),
            (&[0x02, 0x05, 0x00], &[0xA6], None),
            (&[0x02, 0x05, 0x09], &[0xA6], None),
            (&[0x03, 0x05], &[0x81, 0x08], None),
            (SIGN_OFF, OKAY, None),
        ],
        notes: "cycles 0 steps 0 writes 0 dropped 0\n",
        journal: OPENED,
        left: LIT,
    },
    Session {
        name: "a program counter behind the flash",
        image: LIGHT,
        words: &["100"],
        failing_writes: &[],
        exchanges: &[
            (&[0x06, 0x00, 0x20, 0x00, 0x00], &[0xA3], None),
            (&[0x07], &[0x84, 0x00, 0x00, 0x00, 0x00], None),
            (SIGN_OFF, OKAY, None),
        ],
        notes: "cycles 0 steps 0 writes 0 dropped 0\n",
        journal: OPENED,
        left: LIT,
    },
];

#[test]
fn commands_are_answered_or_refused(rt: HostRuntime) -> Result<(), Fail> {
    assert_sessions(&rt, rt.alloc(), &SESSIONS)?;
    Ok(())
}
