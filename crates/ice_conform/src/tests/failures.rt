//! Lines that end early, and reads and puts that fail.
use super::call::{Case, READS, Wanted, assert_came, replay};
use super::held::{
    Held, Journal, LIGHT, LIT, LOOP, LOOPED, OPENED, PLANTED, RESTORED_ONCE, RESTORED_TWICE, Words,
};
use super::lines::light_case;
use super::talk::{
    BREAK_AT_2, Exchange, GO, LIGHT_READ, OKAY, READ_WORDS, SIGN_OFF, STOP, Talk, put_frame,
};
use ice_top::Status;
use std::alloc::{AllocError, Global};
use std::process::Abort;
use std::test::Fail;

/// How many runs were started, each up to or from a breakpoint at word 2 of the light's program.
#[derive(Clone, Copy)]
enum Runs {
    Zero,
    One,
    Two,
}

/// What a session comes to behind these runs.
struct Made {
    totals: &'static str,
    /// The page writes that are made, with those of the closing restore.
    journal: Journal,
}

static MADE_BY_NONE: Made = Made {
    totals: "cycles 0 steps 0 writes 0",
    journal: OPENED,
};

static MADE_BY_ONE: Made = Made {
    totals: "cycles 2 steps 2 writes 1",
    journal: RESTORED_ONCE,
};

static MADE_BY_TWO: Made = Made {
    totals: "cycles 11 steps 7 writes 2",
    journal: RESTORED_TWICE,
};

impl Runs {
    /// What a session comes to behind them.
    fn made(self) -> &'static Made {
        match self {
            Runs::Zero => &MADE_BY_NONE,
            Runs::One => &MADE_BY_ONE,
            Runs::Two => &MADE_BY_TWO,
        }
    }
}

/// A session, and where it stands behind each frame of its line, and at each piece that it puts.
struct Session {
    name: &'static str,
    /// The words of the call behind the image's name.
    words: &'static [&'static str],
    exchanges: &'static [Exchange],
    /// How many bytes of the line are taken, how many are sent then, and how many runs were started: at the start, and behind each frame.
    stages: &'static [(usize, usize, Runs)],
    /// How many bytes were sent before a piece, how many it has, and how many runs were started.
    puts: &'static [(usize, usize, Runs)],
}

static SESSIONS: [Session; 2] = [
    Session {
        name: "a breakpoint is met",
        words: &["100"],
        exchanges: &[
            (BREAK_AT_2, OKAY, None),
            (GO, OKAY, Some((0x02, 0x01))),
            (SIGN_OFF, OKAY, None),
        ],
        stages: &[
            (0, 0, Runs::Zero),
            (18, 11, Runs::Zero),
            (29, 38, Runs::One),
            (40, 49, Runs::One),
        ],
        puts: &[
            (0, 11, Runs::Zero),
            (11, 11, Runs::One),
            (22, 16, Runs::One),
            (38, 11, Runs::One),
        ],
    },
    Session {
        name: "a breakpoint is met and left",
        words: &["100,5"],
        exchanges: &[
            (BREAK_AT_2, OKAY, None),
            (GO, OKAY, Some((0x02, 0x01))),
            (READ_WORDS, LIGHT_READ, None),
            (GO, OKAY, None),
            (STOP, OKAY, Some((0x03, 0x02))),
            (SIGN_OFF, OKAY, None),
        ],
        stages: &[
            (0, 0, Runs::Zero),
            (18, 11, Runs::Zero),
            (29, 38, Runs::One),
            (49, 57, Runs::One),
            (60, 68, Runs::Two),
            (72, 95, Runs::Two),
            (83, 106, Runs::Two),
        ],
        puts: &[
            (0, 11, Runs::Zero),
            (11, 11, Runs::One),
            (22, 16, Runs::One),
            (38, 19, Runs::One),
            (57, 11, Runs::Two),
            (68, 11, Runs::Two),
            (79, 16, Runs::Two),
            (95, 11, Runs::Two),
        ],
    },
];

impl Session {
    /// A replay of its line in which nothing fails.
    fn case<'a>(&self, line: &'a [u8], most: usize) -> Case<'a> {
        Case {
            image: LIGHT,
            words: self.words,
            line,
            most,
            failing_read: None,
            failing_put: None,
            failing_writes: &[],
        }
    }

    /// Where it stands behind so many bytes, and how many of these are of no whole frame.
    fn stage(&self, taken: usize) -> (usize, Runs, usize) {
        let mut stage = (0, Runs::Zero, taken);
        for (begin, sent, runs) in self.stages {
            if *begin <= taken {
                stage = (*sent, *runs, taken - *begin);
            }
        }
        stage
    }

    /// Replays it, and compares what comes with where it stands.
    fn assert_at(
        &self,
        rt: &impl Abort,
        alloc: Global,
        case: &Case,
        status: Status,
        (sent, runs, dropped): (&[u8], Runs, usize),
        place: &str,
    ) -> Result<(), AllocError> {
        let notes = format!(in alloc; "{} dropped {dropped}\n", runs.made().totals)?;
        let wanted = Wanted {
            status,
            sent,
            notes: notes.as_str(),
            journal: runs.made().journal,
            left: LIT,
        };
        let outcome = replay(alloc, case)?;
        let label = format!(in alloc; "{}: {place}, by {}", self.name, case.most)?;
        assert_came(rt, alloc, &outcome, &wanted, label.as_str())
    }
}

/// The first so many bytes.
fn front(bytes: &[u8], len: usize) -> &[u8] {
    bytes.get(..len).unwrap_or(&[])
}

#[test]
fn a_line_may_end_at_any_byte(rt: HostRuntime) -> Result<(), Fail> {
    let alloc = rt.alloc();
    for session in &SESSIONS {
        let talk = Talk::of(alloc, session.exchanges)?;
        for len in 0..=talk.line.len() {
            let (sent, runs, dropped) = session.stage(len);
            let case = session.case(front(talk.line.as_slice(), len), 7);
            let came = (front(talk.sent.as_slice(), sent), runs, dropped);
            let place = format!(in alloc; "{len} bytes")?;
            session.assert_at(&rt, alloc, &case, Status::Okay, came, place.as_str())?;
        }
    }
    Ok(())
}

#[test]
fn each_read_may_fail(rt: HostRuntime) -> Result<(), Fail> {
    let alloc = rt.alloc();
    for session in &SESSIONS {
        let talk = Talk::of(alloc, session.exchanges)?;
        let len = talk.line.len();
        for most in READS {
            // How many reads are made before, up to one that is not made, since the whole line is taken.
            for before in 0..=len.div_ceil(most.max(1)) {
                let taken = before.saturating_mul(most).min(len);
                let (sent, runs, dropped) = session.stage(taken);
                let mut case = session.case(talk.line.as_slice(), most);
                case.failing_read = Some((before as u64).saturating_add(1));
                let status = if taken < len {
                    Status::Read
                } else {
                    Status::Okay
                };
                let came = (front(talk.sent.as_slice(), sent), runs, dropped);
                let place = format!(in alloc; "a read behind {before}")?;
                session.assert_at(&rt, alloc, &case, status, came, place.as_str())?;
            }
        }
    }
    Ok(())
}

#[test]
fn each_put_may_fail(rt: HostRuntime) -> Result<(), Fail> {
    let alloc = rt.alloc();
    for session in &SESSIONS {
        let talk = Talk::of(alloc, session.exchanges)?;
        let mut number = 0u64;
        for (before, len, runs) in session.puts {
            number = number.wrapping_add(1);
            for taken in [0, 4, len.saturating_sub(1)] {
                for most in READS {
                    let mut case = session.case(talk.line.as_slice(), most);
                    case.failing_put = Some((number, taken));
                    let sent = front(talk.sent.as_slice(), before.saturating_add(taken));
                    let place = format!(in alloc; "put {number} behind {taken} bytes")?;
                    let came = (sent, *runs, 0);
                    session.assert_at(&rt, alloc, &case, Status::Write, came, place.as_str())?;
                }
            }
        }
        // There is no further put.
        let mut case = session.case(talk.line.as_slice(), 4096);
        case.failing_put = Some((number.wrapping_add(1), 0));
        let (_, runs, dropped) = session.stage(talk.line.len());
        let came = (talk.sent.as_slice(), runs, dropped);
        session.assert_at(&rt, alloc, &case, Status::Okay, came, "no put")?;
    }
    Ok(())
}

/// A frame with GET_SYNC, SIGN_OFF and two zeros as its body, whose check is two zeros and wrong, and then a GET_SYNC.
fn sign_off_inside(alloc: Global) -> Result<Vec<u8>, AllocError> {
    let mut line = Vec::new(alloc);
    line.extend_from_slice(&[0x1B, 0x05, 0x00, 0x16, 0x00, 0x00, 0x00, 0x0E])?;
    put_frame(&mut line, 0, &[0x0F])?;
    put_frame(&mut line, 1, SIGN_OFF)?;
    line.extend_from_slice(&[0x00, 0x00])?;
    put_frame(&mut line, 0, &[0x0F])?;
    Ok(line)
}

#[test]
fn what_is_read_behind_a_reply_that_fails_is_not_counted(rt: HostRuntime) -> Result<(), Fail> {
    let alloc = rt.alloc();
    let line = sign_off_inside(alloc)?;
    let mut replies = Vec::new(alloc);
    put_frame(&mut replies, 0, OKAY)?;
    put_frame(&mut replies, 1, OKAY)?;
    // The damage shows at the first of the two zeros, which stand for the check: 31 bytes are looked at.
    // Where the first reply fails, the 12 bytes behind its frame are dropped. The second reply is the
    // sign-off's, and what is held behind that is ignored.
    for (put, status, sent, notes) in [
        (
            1,
            Status::Write,
            0,
            "cycles 0 steps 0 writes 0 dropped 20\n",
        ),
        (
            2,
            Status::Write,
            11,
            "cycles 0 steps 0 writes 0 dropped 8\n",
        ),
        (3, Status::Okay, 22, "cycles 0 steps 0 writes 0 dropped 8\n"),
    ] {
        let wanted = Wanted {
            status,
            sent: front(replies.as_slice(), sent),
            notes,
            journal: OPENED,
            left: LIT,
        };
        for most in READS {
            let mut case = light_case(line.as_slice(), most);
            case.failing_put = Some((put, 0));
            let outcome = replay(alloc, &case)?;
            let label = format!(in alloc; "put {put}, by {most}")?;
            assert_came(&rt, alloc, &outcome, &wanted, label.as_str())?;
        }
    }
    Ok(())
}

/// A session whose closing restore fails, and the put of the sign-off's reply behind 4 bytes.
struct BothFail {
    image: Words,
    exchanges: &'static [Exchange],
    /// The put of the sign-off's reply, by number from 1, and how many bytes are sent.
    put: u64,
    sent: usize,
    status: Status,
    notes: &'static str,
    journal: Journal,
    left: Held,
}

/// A loop with a breakpoint behind it, which it never meets.
const LOOP_PLANTED: Held = Held(LOOP, &[2]);

static BOTH_FAIL: [BothFail; 2] = [
    // A target that stands is restored before the reply is put.
    BothFail {
        image: LIGHT,
        exchanges: &[
            (BREAK_AT_2, OKAY, None),
            (GO, OKAY, Some((0x02, 0x01))),
            (SIGN_OFF, OKAY, None),
        ],
        put: 4,
        sent: 42,
        status: Status::Flash,
        notes: "cycles 2 steps 2 writes 1 dropped 0\n",
        journal: &[(0, LIT), (0, PLANTED)],
        left: PLANTED,
    },
    // One that runs is stopped and restored behind it.
    BothFail {
        image: LOOP,
        exchanges: &[
            (BREAK_AT_2, OKAY, None),
            (GO, OKAY, None),
            (SIGN_OFF, OKAY, None),
        ],
        put: 3,
        sent: 26,
        status: Status::Write,
        notes: "cycles 200 steps 100 writes 0 dropped 0\n",
        journal: &[(0, LOOPED), (0, LOOP_PLANTED)],
        left: LOOP_PLANTED,
    },
];

#[test]
fn the_first_to_fail_at_a_sign_off_decides(rt: HostRuntime) -> Result<(), Fail> {
    let alloc = rt.alloc();
    for row in &BOTH_FAIL {
        let talk = Talk::of(alloc, row.exchanges)?;
        let wanted = Wanted {
            status: row.status,
            sent: front(talk.sent.as_slice(), row.sent),
            notes: row.notes,
            journal: row.journal,
            left: row.left,
        };
        for most in READS {
            let case = Case {
                image: row.image,
                failing_put: Some((row.put, 4)),
                failing_writes: &[(3, 0)],
                ..light_case(talk.line.as_slice(), most)
            };
            let outcome = replay(alloc, &case)?;
            let label = format!(in alloc; "put {}, by {most}", row.put)?;
            assert_came(&rt, alloc, &outcome, &wanted, label.as_str())?;
        }
    }
    Ok(())
}
