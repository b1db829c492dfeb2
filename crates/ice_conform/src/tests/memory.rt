//! Want of memory. Where all that is asked for is found, both tests are a session like another; `bench/allocations.sh` has one of their
//! allocations refused.
use super::call::{Outcome, replay};
use super::lines::light_case;
use super::talk::{BREAK_AT_2, GO, OKAY, SIGN_OFF, Talk};
use ice_top::Status;
use std::alloc::{AllocError, Global};
use std::test::Fail;

/// A session in which a breakpoint is met: what comes of it. An error is one of the objects around the call, and none of the call's.
fn session(alloc: Global) -> Result<Outcome, AllocError> {
    let mut talk = Talk::new(alloc);
    talk.ask(BREAK_AT_2, OKAY)?;
    talk.ask(GO, OKAY)?;
    talk.ask(SIGN_OFF, OKAY)?;
    replay(alloc, &light_case(talk.line.as_slice(), 4096))
}

#[test]
fn a_call_finds_its_memory(rt: HostRuntime) -> Result<(), Fail> {
    let outcome = session(rt.alloc())?;
    assert_eq!(rt; outcome.status, Status::Okay);
    Ok(())
}

#[test]
fn a_refused_allocation_is_told_and_changes_nothing(rt: HostRuntime) -> Result<(), Fail> {
    let Ok(outcome) = session(rt.alloc()) else {
        return Ok(());
    };
    if outcome.status == Status::Okay {
        return Ok(());
    }
    assert_eq!(rt; outcome.status, Status::Memory);
    assert_eq!(rt; outcome.notes.written(), b"memory\n".as_slice());
    assert_eq!(rt; outcome.sent.written(), [].as_slice());
    assert_eq!(rt; outcome.source.left().len(), 40);
    assert_eq!(rt; outcome.flash.journal().len(), 0);
    for word in outcome.flash.words() {
        assert_eq!(rt; *word, 0xFFFF);
    }
    Ok(())
}
