//! Page writes that fail.
use super::call::{Case, READS, Wanted, assert_came, replay};
use super::held::{
    ERASED, Held, Journal, LIGHT, LIT, OPENED, PLANTED, RESTORED_ONCE, RESTORED_TWICE,
};
use super::session::{Session, assert_sessions};
use super::talk::{BREAK_AT_2, Exchange, GO, LIGHT_READ, OKAY, READ_WORDS, SIGN_OFF, STOP, Talk};
use ice_top::Status;
use std::alloc::{AllocError, Global};
use std::process::Abort;
use std::test::Fail;

static SESSIONS: [Session; 1] = [Session {
    name: "page writes fail at a launch and behind the first step of a run",
    image: LIGHT,
    words: &["100"],
    failing_writes: &[(2, 0), (5, 0)],
    exchanges: &[
        (BREAK_AT_2, OKAY, None),
        (GO, &[0xA0], None),
        (GO, OKAY, Some((0x02, 0x01))),
        (GO, OKAY, Some((0x03, 0x07))),
        (SIGN_OFF, OKAY, None),
    ],
    notes: "cycles 3 steps 3 writes 2 dropped 0\n",
    journal: RESTORED_ONCE,
    left: LIT,
}];

#[test]
fn a_session_goes_on_behind_a_page_write_that_failed(rt: HostRuntime) -> Result<(), Fail> {
    assert_sessions(&rt, rt.alloc(), &SESSIONS)?;
    Ok(())
}

/// What a session comes to of which one page write fails.
struct Torn {
    /// The page write, by number from 1.
    write: u64,
    status: Status,
    /// The commands as they are answered then; none where the session does not open.
    exchanges: &'static [Exchange],
    notes: &'static str,
    /// How many words of the page the write sets; the page writes that are made then, and what the flash holds at the end.
    words: &'static [(usize, Journal, Held)],
}

/// A flash with the first word of the light's program.
const FIRST_WORD: Held = Held(&[(0, &[0xE001])], &[]);

const OPENED_TWICE: Journal = &[(0, LIT), (0, LIT)];

const PLANTED_ONCE: Journal = &[(0, LIT), (0, PLANTED)];

const RESTORED_AGAIN: Journal = &[(0, LIT), (0, PLANTED), (0, LIT), (0, LIT)];

const PLANTED_TWICE: Journal = &[(0, LIT), (0, PLANTED), (0, LIT), (0, PLANTED)];

/// The last command of each session signs off. This one meets a breakpoint.
const MEETS: &[Exchange] = &[
    (BREAK_AT_2, OKAY, None),
    (GO, OKAY, Some((0x02, 0x01))),
    (SIGN_OFF, OKAY, None),
];

static MET: [Torn; 4] = [
    Torn {
        write: 1,
        status: Status::Flash,
        exchanges: &[],
        notes: "flash\n",
        words: &[(0, &[], ERASED), (1, &[], FIRST_WORD), (64, &[], LIT)],
    },
    Torn {
        write: 2,
        status: Status::Okay,
        exchanges: &[
            (BREAK_AT_2, OKAY, None),
            (GO, &[0xA0], None),
            (SIGN_OFF, OKAY, None),
        ],
        notes: "cycles 0 steps 0 writes 0 dropped 0\n",
        words: &[(0, OPENED, LIT), (1, OPENED, LIT), (64, OPENED_TWICE, LIT)],
    },
    Torn {
        write: 3,
        status: Status::Flash,
        exchanges: MEETS,
        notes: "cycles 2 steps 2 writes 1 dropped 0\n",
        words: &[
            (0, PLANTED_ONCE, PLANTED),
            (1, PLANTED_ONCE, PLANTED),
            (64, PLANTED_ONCE, LIT),
        ],
    },
    // None fails.
    Torn {
        write: 4,
        status: Status::Okay,
        exchanges: MEETS,
        notes: "cycles 2 steps 2 writes 1 dropped 0\n",
        words: &[
            (0, RESTORED_ONCE, LIT),
            (1, RESTORED_ONCE, LIT),
            (64, RESTORED_ONCE, LIT),
        ],
    },
];

/// This one leaves the breakpoint, and is forced to stop.
const LEAVES: &[Exchange] = &[
    (BREAK_AT_2, OKAY, None),
    (GO, OKAY, Some((0x02, 0x01))),
    (READ_WORDS, LIGHT_READ, None),
    (GO, OKAY, None),
    (STOP, OKAY, Some((0x03, 0x02))),
    (SIGN_OFF, OKAY, None),
];

static LEFT: [Torn; 6] = [
    Torn {
        write: 1,
        status: Status::Flash,
        exchanges: &[],
        notes: "flash\n",
        words: &[(0, &[], ERASED), (1, &[], FIRST_WORD), (64, &[], LIT)],
    },
    Torn {
        write: 2,
        status: Status::Okay,
        exchanges: &[
            (BREAK_AT_2, OKAY, None),
            (GO, &[0xA0], None),
            (READ_WORDS, LIGHT_READ, None),
            (GO, OKAY, Some((0x02, 0x01))),
            (STOP, &[0xA5], None),
            (SIGN_OFF, OKAY, None),
        ],
        notes: "cycles 2 steps 2 writes 1 dropped 0\n",
        words: &[
            (0, RESTORED_ONCE, LIT),
            (1, RESTORED_ONCE, LIT),
            (64, OPENED_TWICE, LIT),
        ],
    },
    Torn {
        write: 3,
        status: Status::Okay,
        exchanges: &[
            (BREAK_AT_2, OKAY, None),
            (GO, OKAY, Some((0x02, 0x01))),
            (READ_WORDS, LIGHT_READ, None),
            (GO, &[0xA0], None),
            (STOP, &[0xA5], None),
            (SIGN_OFF, OKAY, None),
        ],
        notes: "cycles 2 steps 2 writes 1 dropped 0\n",
        words: &[
            (0, RESTORED_ONCE, LIT),
            (1, RESTORED_ONCE, LIT),
            (64, PLANTED_ONCE, LIT),
        ],
    },
    Torn {
        write: 4,
        status: Status::Okay,
        exchanges: &[
            (BREAK_AT_2, OKAY, None),
            (GO, OKAY, Some((0x02, 0x01))),
            (READ_WORDS, LIGHT_READ, None),
            (GO, OKAY, Some((0x03, 0x07))),
            (STOP, &[0xA5], None),
            (SIGN_OFF, OKAY, None),
        ],
        notes: "cycles 3 steps 3 writes 2 dropped 0\n",
        words: &[
            (0, RESTORED_ONCE, LIT),
            (1, RESTORED_ONCE, LIT),
            (64, RESTORED_AGAIN, LIT),
        ],
    },
    Torn {
        write: 5,
        status: Status::Flash,
        exchanges: LEAVES,
        notes: "cycles 11 steps 7 writes 2 dropped 0\n",
        words: &[
            (0, PLANTED_TWICE, PLANTED),
            (1, PLANTED_TWICE, PLANTED),
            (64, PLANTED_TWICE, LIT),
        ],
    },
    // None fails.
    Torn {
        write: 6,
        status: Status::Okay,
        exchanges: LEAVES,
        notes: "cycles 11 steps 7 writes 2 dropped 0\n",
        words: &[
            (0, RESTORED_TWICE, LIT),
            (1, RESTORED_TWICE, LIT),
            (64, RESTORED_TWICE, LIT),
        ],
    },
];

/// Replays the line of a session with each of its page writes failing in turn, behind so many words of the page.
fn assert_torn(
    rt: &impl Abort,
    alloc: Global,
    exchanges: &[Exchange],
    stops: &'static [&'static str],
    rows: &[Torn],
) -> Result<(), AllocError> {
    let line = Talk::of(alloc, exchanges)?.line;
    for row in rows {
        let sent = Talk::of(alloc, row.exchanges)?.sent;
        for (words, journal, left) in row.words {
            let wanted = Wanted {
                status: row.status,
                sent: sent.as_slice(),
                notes: row.notes,
                journal: *journal,
                left: *left,
            };
            let fails = [(row.write, *words)];
            for most in READS {
                let case = Case {
                    image: LIGHT,
                    words: stops,
                    line: line.as_slice(),
                    most,
                    failing_read: None,
                    failing_put: None,
                    failing_writes: &fails,
                };
                let outcome = replay(alloc, &case)?;
                let label = format!(in alloc;
                    "write {} behind {words} words, by {most}",
                    row.write
                )?;
                assert_came(rt, alloc, &outcome, &wanted, label.as_str())?;
            }
        }
    }
    Ok(())
}

#[test]
fn each_page_write_may_fail(rt: HostRuntime) -> Result<(), Fail> {
    let alloc = rt.alloc();
    assert_torn(&rt, alloc, MEETS, &["100"], &MET)?;
    assert_torn(&rt, alloc, LEAVES, &["100,5"], &LEFT)?;
    Ok(())
}
