//! Sessions that are told by their commands and replies.
use super::call::{Case, READS, Wanted, assert_came, replay};
use super::held::{Held, Journal, Words};
use super::talk::{Exchange, Talk};
use ice_top::Status;
use std::alloc::{AllocError, Global};
use std::process::Abort;

/// A session that ends well, and what it comes to.
#[derive(Clone, Copy)]
pub(super) struct Session {
    pub name: &'static str,
    pub image: Words,
    /// STOPS, and the part where one is named.
    pub words: &'static [&'static str],
    /// The page writes that fail, by number from 1, and how many words of the page each sets.
    pub failing_writes: &'static [(u64, usize)],
    /// The commands are numbered from 0.
    pub exchanges: &'static [Exchange],
    pub notes: &'static str,
    pub journal: Journal,
    pub left: Held,
}

/// Replays each session, with the reads of its line cut in each way.
pub(super) fn assert_sessions(
    rt: &impl Abort,
    alloc: Global,
    sessions: &[Session],
) -> Result<(), AllocError> {
    for session in sessions {
        let talk = Talk::of(alloc, session.exchanges)?;
        assert_session(rt, alloc, session, &talk)?;
    }
    Ok(())
}

/// Replays a session with these commands in the place of its own, with the reads of its line cut in each way.
pub(super) fn assert_session(
    rt: &impl Abort,
    alloc: Global,
    session: &Session,
    talk: &Talk,
) -> Result<(), AllocError> {
    let wanted = Wanted {
        status: Status::Okay,
        sent: talk.sent.as_slice(),
        notes: session.notes,
        journal: session.journal,
        left: session.left,
    };
    for most in READS {
        let case = Case {
            image: session.image,
            words: session.words,
            line: talk.line.as_slice(),
            most,
            failing_read: None,
            failing_put: None,
            failing_writes: session.failing_writes,
        };
        let outcome = replay(alloc, &case)?;
        let label = format!(in alloc; "{}, by {most}", session.name)?;
        assert_came(rt, alloc, &outcome, &wanted, label.as_str())?;
    }
    Ok(())
}
