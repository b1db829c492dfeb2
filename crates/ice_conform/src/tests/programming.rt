//! Programming mode.
use super::held::{ERASED, LIGHT, LIT, RESTORED_ONCE};
use super::session::{Session, assert_session, assert_sessions};
use super::talk::{BREAK_AT_2, GO, OKAY, SIGN_OFF, Talk};
use std::alloc::{AllocError, Global};
use std::test::Fail;

/// ENTER_PROGMODE, CHIP_ERASE, and LEAVE_PROGMODE.
const ENTER: &[u8] = &[0x14];

const ERASE: &[u8] = &[0x13];

const LEAVE: &[u8] = &[0x15];

static SESSIONS: [Session; 2] = [
    Session {
        name: "the signature and the fuses are read, and the chip is erased",
        image: LIGHT,
        words: &["100"],
        failing_writes: &[],
        exchanges: &[
            (ENTER, OKAY, None),
            (
                &[0x05, 0xB4, 0x03, 0x00, 0x00, 0x00, 0x00, 0x00, 0x00, 0x00],
                &[0x82, 0x1E, 0x94, 0x03],
                None,
            ),
            (
                &[0x05, 0xB2, 0x03, 0x00, 0x00, 0x00, 0x00, 0x00, 0x00, 0x00],
                &[0x82, 0xE1, 0x99, 0xFF],
                None,
            ),
            (&[0x03, 0x1A], &[0x81, 0x02], None),
            (GO, &[0xA5], None),
            (ERASE, OKAY, None),
            (
                &[0x05, 0xA0, 0x02, 0x00, 0x00, 0x00, 0x00, 0x00, 0x00, 0x00],
                &[0x82, 0xFF, 0xFF],
                None,
            ),
            (LEAVE, OKAY, None),
            (SIGN_OFF, OKAY, None),
        ],
        notes: "cycles 0 steps 0 writes 0 dropped 0\n",
        journal: &[(0, LIT), (0, ERASED)],
        left: ERASED,
    },
    Session {
        name: "an erase that fails behind three words is mended at the end",
        image: LIGHT,
        words: &["100"],
        failing_writes: &[(2, 3)],
        exchanges: &[
            (ENTER, OKAY, None),
            (ERASE, &[0xA0], None),
            (LEAVE, OKAY, None),
            (SIGN_OFF, OKAY, None),
        ],
        notes: "cycles 0 steps 0 writes 0 dropped 0\n",
        journal: &[(0, LIT), (0, LIT)],
        left: LIT,
    },
];

#[test]
fn the_chip_is_erased(rt: HostRuntime) -> Result<(), Fail> {
    assert_sessions(&rt, rt.alloc(), &SESSIONS)?;
    Ok(())
}

/// The body of a write of a flash page with the light's program, erased behind it, to a byte address.
fn page_write(alloc: Global, address: u8) -> Result<Vec<u8>, AllocError> {
    let mut body = Vec::new(alloc);
    body.extend_from_slice(&[0x04, 0xB0, 0x80, 0x00, 0x00, 0x00])?;
    body.extend_from_slice(&[address, 0x00, 0x00, 0x00])?;
    body.extend_from_slice(&[0x01, 0xE0, 0x07, 0xBB, 0x08, 0xBB, 0xFF, 0xCF])?;
    body.extend_from_slice(&[0xFF; 120])?;
    Ok(body)
}

/// A session on an image of no bytes that programs the light.
const PROGRAMS: Session = Session {
    name: "a page is programmed and run",
    image: &[],
    words: &["100"],
    failing_writes: &[],
    exchanges: &[],
    notes: "cycles 2 steps 2 writes 1 dropped 0\n",
    journal: RESTORED_ONCE,
    left: LIT,
};

#[test]
fn a_page_is_programmed_and_run(rt: HostRuntime) -> Result<(), Fail> {
    let alloc = rt.alloc();
    let mut talk = Talk::new(alloc);
    talk.ask(ENTER, OKAY)?;
    talk.ask(page_write(alloc, 0x40)?.as_slice(), &[0xA3])?;
    let to_fuses = [
        0x04, 0xB2, 0x03, 0x00, 0x00, 0x00, 0x00, 0x00, 0x00, 0x00, 0xE1, 0x99, 0xFF,
    ];
    talk.ask(&to_fuses, &[0xA2])?;
    talk.ask(page_write(alloc, 0x00)?.as_slice(), OKAY)?;
    talk.ask(LEAVE, OKAY)?;
    talk.ask(BREAK_AT_2, OKAY)?;
    talk.ask(GO, OKAY)?;
    talk.event(0x02, 0x01)?;
    talk.ask(SIGN_OFF, OKAY)?;
    assert_session(&rt, alloc, &PROGRAMS, &talk)?;
    Ok(())
}
