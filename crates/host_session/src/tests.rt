//! A host over a link in memory.
ghost use Rattle.std.specs.Prelude.{◌≤◌};

use super::*;
use arrayvec::ArrayVec;
use ice_base::MemLink;
use ice_frame::{Frame, write_frame};
use ice_msg::{Command, Event, Response};
use std::alloc::{AllocError, Global};
use std::test::Fail;

/// What the tests' links have room for.
const ROOM: usize = 4_096;

/// The number of events.
const EVENT: u16 = 0xFFFF;

/// The event that the target stopped at 0002 for the cause 01.
const STOPPED: [u8; 6] = [0xE0, 0x02, 0x00, 0x00, 0x00, 0x01];

/// The sign-on frame as a host sends it first.
const SIGN_ON: [u8; 11] = [
    0x1B, 0x00, 0x00, 0x01, 0x00, 0x00, 0x00, 0x0E, 0x01, 0xF3, 0x97,
];

/// Adds a frame to the line.
fn add(line: &mut Vec<u8>, number: u16, given: &[u8]) -> Result<(), AllocError> {
    let mut body = ArrayVec::new();
    for byte in given {
        if body.len() < 16 {
            body.push(*byte);
        }
    }
    let mut out = ArrayVec::new();
    write_frame(&Frame { seq: number, body }, &mut out);
    line.extend_from_slice(out.as_slice())
}

/// A host over a link from which the line comes in pieces of this size, and whose calls with these numbers fail.
fn host_over(
    alloc: Global,
    line: &Vec<u8>,
    piece: usize,
    fails: Vec<u64>,
) -> Result<Host<MemLink>, AllocError> {
    let mut incoming = Vec::new(alloc);
    incoming.extend_from_slice(line.as_slice())?;
    let mut cuts = Vec::new(alloc);
    for _ in 0..line.len() {
        cuts.push(piece)?;
    }
    let link = MemLink::of(alloc, incoming, cuts, fails, ROOM)?;
    match Host::new(alloc, link) {
        Ok(host) => Ok(host),
        Err(_) => Err(AllocError),
    }
}

/// What came of GET_SYNC.
#[derive(Clone, Copy, Debug, PartialEq, Eq)]
enum Came {
    Okay,
    OtherReply,
    Link,
    NoReply,
    Closed,
    /// The number and the first byte of the bad body.
    BadReply(u16, u8),
    EventsFull(Event),
}

/// Why there was no answer.
fn why(error: HostError) -> Came {
    match error {
        HostError::Link => Came::Link,
        HostError::NoReply => Came::NoReply,
        HostError::Closed => Came::Closed,
        HostError::BadReply(frame) => match frame.body.as_slice() {
            [first, ..] => Came::BadReply(frame.seq, *first),
            [] => Came::OtherReply,
        },
        HostError::EventsFull(event) => Came::EventsFull(event),
    }
}

fn sync(host: &mut Host<MemLink>) -> Came {
    match host.request(&Command::GetSync) {
        Ok(reply) => match reply.response() {
            Response::Okay => Came::Okay,
            _ => Came::OtherReply,
        },
        Err(error) => why(error),
    }
}

fn event(host: &mut Host<MemLink>) -> Result<Event, Came> {
    match host.next_event() {
        Ok(event) => Ok(event),
        Err(error) => Err(why(error)),
    }
}

/// The event that the target stopped here for this cause.
fn stop(pc: u32, cause: u8) -> Event {
    Event::Break { pc, cause }
}

#[test]
fn an_event_on_the_way_is_kept_however_the_bytes_are_cut(rt: HostRuntime) -> Result<(), Fail> {
    let alloc = rt.alloc();
    let mut line = Vec::new(alloc);
    add(&mut line, EVENT, &STOPPED)?;
    add(&mut line, 0, &[0x80])?;
    for piece in [1, 2, 7, 512] {
        let mut host = host_over(alloc, &line, piece, Vec::new(alloc))?;
        assert_eq!(rt; sync(&mut host), Came::Okay);
        assert_eq!(rt; event(&mut host), Ok(stop(2, 1)));
        assert_eq!(rt; event(&mut host), Err(Came::Closed));
    }
    Ok(())
}

#[test]
fn the_command_is_sent_with_its_number(rt: HostRuntime) -> Result<(), Fail> {
    let alloc = rt.alloc();
    let mut line = Vec::new(alloc);
    add(&mut line, 0, &[0x80])?;
    let mut host = host_over(alloc, &line, 512, Vec::new(alloc))?;
    assert!(rt; host.request(&Command::GetSignOn).is_ok());
    let link = host.finish();
    assert_eq!(rt; link.sent(), SIGN_ON.as_slice());
    assert_eq!(rt; link.incoming().len(), 0);
    Ok(())
}

#[test]
fn frames_of_other_numbers_are_passed_over(rt: HostRuntime) -> Result<(), Fail> {
    let alloc = rt.alloc();
    let mut line = Vec::new(alloc);
    add(&mut line, 1, &[0x80])?;
    line.push(0x05)?;
    add(&mut line, 0xFFFE, &[0xA0])?;
    add(&mut line, 0, &[0xA5])?;
    add(&mut line, 0, &[0x80])?;
    add(&mut line, 1, &[0x80])?;
    add(&mut line, EVENT, &STOPPED)?;
    for piece in [1, 2, 7, 512] {
        let mut host = host_over(alloc, &line, piece, Vec::new(alloc))?;
        assert_eq!(rt; sync(&mut host), Came::OtherReply);
        assert_eq!(rt; sync(&mut host), Came::Okay);
        assert_eq!(rt; event(&mut host), Ok(stop(2, 1)));
        assert_eq!(rt; sync(&mut host), Came::Closed);
    }
    Ok(())
}

#[test]
fn events_are_kept_in_order_up_to_the_sixty_fifth(rt: HostRuntime) -> Result<(), Fail> {
    let alloc = rt.alloc();
    let mut line = Vec::new(alloc);
    for cause in 0..65u8 {
        add(&mut line, EVENT, &[0xE0, 0x00, 0x01, 0x00, 0x00, cause])?;
    }
    add(&mut line, 0, &[0x80])?;
    add(&mut line, 1, &[0x80])?;
    let mut host = host_over(alloc, &line, 7, Vec::new(alloc))?;
    assert_eq!(rt; sync(&mut host), Came::EventsFull(stop(0x100, 64)));
    for cause in 0..64u8 {
        assert_eq!(rt; event(&mut host), Ok(stop(0x100, cause)));
    }
    assert_eq!(rt; sync(&mut host), Came::Okay);
    assert_eq!(rt; event(&mut host), Err(Came::Closed));
    Ok(())
}

#[test]
fn bodies_that_are_no_response_and_no_event_are_bad_replies(rt: HostRuntime) -> Result<(), Fail> {
    let alloc = rt.alloc();
    let mut line = Vec::new(alloc);
    add(&mut line, 0, &[0x99])?;
    add(&mut line, EVENT, &[0xE1])?;
    add(&mut line, EVENT, &[0xE2])?;
    let mut host = host_over(alloc, &line, 512, Vec::new(alloc))?;
    assert_eq!(rt; sync(&mut host), Came::BadReply(0, 0x99));
    assert_eq!(rt; sync(&mut host), Came::BadReply(EVENT, 0xE1));
    assert_eq!(rt; event(&mut host), Err(Came::BadReply(EVENT, 0xE2)));
    assert_eq!(rt; event(&mut host), Err(Came::Closed));
    Ok(())
}

#[test]
fn a_call_receives_a_million_bytes(rt: HostRuntime) -> Result<(), Fail> {
    let alloc = rt.alloc();
    let incoming = vec![in alloc; 0u8; 1_000_001]?;
    let link = MemLink::of(alloc, incoming, Vec::new(alloc), Vec::new(alloc), ROOM)?;
    let Ok(mut host) = Host::new(alloc, link) else {
        return Err("memory".into());
    };
    assert_eq!(rt; sync(&mut host), Came::NoReply);
    assert_eq!(rt; event(&mut host), Err(Came::Closed));
    assert_eq!(rt; host.finish().incoming().len(), 0);
    Ok(())
}

#[test]
fn a_link_that_fails_is_told(rt: HostRuntime) -> Result<(), Fail> {
    let alloc = rt.alloc();
    let mut line = Vec::new(alloc);
    add(&mut line, 1, &[0x80])?;
    let fails = vec![in alloc; 1u64, 3]?;
    let mut host = host_over(alloc, &line, 512, fails)?;
    assert_eq!(rt; sync(&mut host), Came::Link);
    assert_eq!(rt; sync(&mut host), Came::Link);
    assert_eq!(rt; event(&mut host), Err(Came::Closed));
    let link = host.finish();
    assert_eq!(rt; link.faults(), 2);
    assert_eq!(rt; link.sent().len(), 11);
    Ok(())
}

#[test]
fn the_number_behind_fffe_is_0(rt: HostRuntime) -> Result<(), Fail> {
    let alloc = rt.alloc();
    let (none, cuts, fails) = (Vec::new(alloc), Vec::new(alloc), Vec::new(alloc));
    let link = MemLink::of(alloc, none, cuts, fails, 65_536 * 11)?;
    let Ok(mut host) = Host::new(alloc, link) else {
        return Err("memory".into());
    };
    for _ in 0..65_536u32 {
        assert_eq!(rt; sync(&mut host), Came::Closed);
    }
    let link = host.finish();
    assert_eq!(rt; link.sent().len(), 65_536 * 11);
    let (_, last) = link.sent().split_at(65_534 * 11);
    let (before, last) = last.split_at(11);
    assert!(rt; before.starts_with(&[0x1B, 0xFE, 0xFF, 0x01]));
    assert!(rt; last.starts_with(&[0x1B, 0x00, 0x00, 0x01]));
    Ok(())
}
