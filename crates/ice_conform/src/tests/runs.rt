//! Runs, how they end, single steps and resets.
use super::held::{Held, LIGHT, LIT, LOOP, LOOPED, OPENED, OWN_BREAK, Words};
use super::session::{Session, assert_session, assert_sessions};
use super::talk::{GO, OKAY, SIGN_OFF, STOP, Talk};
use std::test::Fail;

/// SINGLE_STEP.
const STEP: &[u8] = &[0x09];

/// LDI r16,1; a BREAK of the program's own; a word that does not run.
const RUNS_OUT: Words = &[(0, &[0xE001, 0x9598, 0xFFFF])];

/// A word that does not run.
const NO_PROGRAM: Words = &[(0, &[0x0001])];

static SESSIONS: [Session; 6] = [
    Session {
        name: "a target that runs answers little",
        image: LOOP,
        words: &["5"],
        failing_writes: &[],
        exchanges: &[
            (GO, OKAY, None),
            (&[0x07], &[0xA5], None),
            (&[0x03, 0x1A], &[0x81, 0x01], None),
            (STOP, OKAY, Some((0x00, 0x02))),
            (&[0x03, 0x1A], &[0x81, 0x00], None),
            (SIGN_OFF, OKAY, None),
        ],
        notes: "cycles 10 steps 5 writes 0 dropped 0\n",
        journal: &[(0, LOOPED)],
        left: LOOPED,
    },
    Session {
        name: "the line ends while the target runs",
        image: LOOP,
        words: &["5"],
        failing_writes: &[],
        exchanges: &[(GO, OKAY, None)],
        notes: "cycles 10 steps 5 writes 0 dropped 0\n",
        journal: &[(0, LOOPED)],
        left: LOOPED,
    },
    Session {
        name: "the program has a BREAK of its own, which the next run steps over",
        image: OWN_BREAK,
        words: &["100,5"],
        failing_writes: &[],
        exchanges: &[
            (GO, OKAY, Some((0x01, 0x05))),
            (GO, OKAY, None),
            (STOP, OKAY, Some((0x02, 0x02))),
            (SIGN_OFF, OKAY, None),
        ],
        notes: "cycles 10 steps 6 writes 0 dropped 0\n",
        journal: &[(0, Held(OWN_BREAK, &[]))],
        left: Held(OWN_BREAK, &[]),
    },
    Session {
        name: "two single steps, a reset, and the program counter",
        image: LIGHT,
        words: &["100"],
        failing_writes: &[],
        exchanges: &[
            (STEP, OKAY, Some((0x01, 0x03))),
            (&[0x09, 0x01, 0x00], OKAY, Some((0x02, 0x03))),
            (&[0x0B], OKAY, Some((0x00, 0x04))),
            (&[0x07], &[0x84, 0x00, 0x00, 0x00, 0x00], None),
            (SIGN_OFF, OKAY, None),
        ],
        notes: "cycles 2 steps 2 writes 1 dropped 0\n",
        journal: OPENED,
        left: LIT,
    },
    Session {
        name: "a step over the program's own BREAK, and one at a word that does not run",
        image: RUNS_OUT,
        words: &["100"],
        failing_writes: &[],
        exchanges: &[
            (STEP, OKAY, Some((0x01, 0x03))),
            (STEP, OKAY, Some((0x02, 0x03))),
            (STEP, OKAY, Some((0x02, 0x06))),
            (&[0x0B, 0x01], OKAY, Some((0x00, 0x04))),
            (SIGN_OFF, OKAY, None),
        ],
        notes: "cycles 2 steps 2 writes 0 dropped 0\n",
        journal: &[(0, Held(RUNS_OUT, &[]))],
        left: Held(RUNS_OUT, &[]),
    },
    Session {
        name: "a run and a step at a word that does not run",
        image: NO_PROGRAM,
        words: &["100"],
        failing_writes: &[],
        exchanges: &[
            (GO, OKAY, Some((0x00, 0x06))),
            (STEP, OKAY, Some((0x00, 0x06))),
            (SIGN_OFF, OKAY, None),
        ],
        notes: "cycles 0 steps 0 writes 0 dropped 0\n",
        journal: &[(0, Held(NO_PROGRAM, &[]))],
        left: Held(NO_PROGRAM, &[]),
    },
];

#[test]
fn runs_and_steps_end_as_told(rt: HostRuntime) -> Result<(), Fail> {
    assert_sessions(&rt, rt.alloc(), &SESSIONS)?;
    Ok(())
}

/// A session in which a run is forced to stop, and 99 times more what stands.
const STOPPED_OFTEN: Session = Session {
    name: "100 forced stops",
    image: LOOP,
    words: &["5"],
    failing_writes: &[],
    exchanges: &[],
    notes: "cycles 10 steps 5 writes 0 dropped 0\n",
    journal: &[(0, LOOPED)],
    left: LOOPED,
};

#[test]
fn only_the_first_of_100_forced_stops_is_one(rt: HostRuntime) -> Result<(), Fail> {
    let alloc = rt.alloc();
    let mut talk = Talk::new(alloc);
    talk.ask(GO, OKAY)?;
    talk.ask(STOP, OKAY)?;
    talk.event(0x00, 0x02)?;
    for _ in 1..100u8 {
        talk.ask(STOP, &[0xA5])?;
    }
    talk.ask(SIGN_OFF, OKAY)?;
    assert_session(&rt, alloc, &STOPPED_OFTEN, &talk)?;
    Ok(())
}
