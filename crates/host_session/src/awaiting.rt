//! A frame is awaited, and the events on the way are kept.
ghost use Rattle.std.specs.Prelude.{◌≡◌, ◌≤◌, length};
ghost use Rattle.ice_frame.specs.Front.{frame_of};
ghost use Rattle.host_session.specs.Awaiting.{Awaits, TellsFault, kept_limit};
ghost use Rattle.host_session.specs.Heard.{IsHeard};
ghost use Rattle.host_session.specs.Hearing.{pending_of};
ghost use Rattle.host_session.specs.Words.{words_of};

use crate::HostError;
use crate::inbox::{Inbox, Next};
use circular_buffer::HeapCircularBuffer;
use ice_base::Link;
use ice_frame::Frame;
use ice_msg::{Event, read_event};
use line_spec::limits::EVENT_NUMBER;

/// The most bytes that one call receives.
const RECEIVE_LIMIT: usize = 1_000_000;

/// The most events that a host keeps.
pub(crate) const KEPT_LIMIT: usize = 64;

/// What a frame is to one who awaits a number.
#[derive(Drop)]
pub(crate) enum Heard {
    /// It is passed over, and kept where it is an event.
    Passed,
    /// It is the awaited one.
    Wanted(Frame),
    /// It has the number of events, and is none.
    NoEvent(Frame),
    /// It is an event for which there is no room.
    Full(Event),
}

/// Hears a frame, where one with the number is awaited.
fn hear(frame: Frame, wanted: u16, kept: &mut HeapCircularBuffer<Event>) -> Heard
    requires room { kept.old.capacity ≡ kept_limit }
    requires fits { length kept.old.items ≤ kept_limit }
    ensures heard { IsHeard wanted (frame_of frame) kept.old.items kept.new.items result }
    ensures capacity { kept.new.capacity ≡ kept_limit }
    ensures fits { length kept.new.items ≤ kept_limit }
{
    if frame.seq == wanted {
        return Heard::Wanted(frame);
    }
    if frame.seq != EVENT_NUMBER {
        return Heard::Passed;
    }
    let Ok(event) = read_event(frame.body.as_slice()) else {
        return Heard::NoEvent(frame);
    };
    match kept.try_push_back(event) {
        Ok(()) => Heard::Passed,
        Err(_) => Heard::Full(event),
    }
}

/// The first frame with the number among the bytes that have come and then come.
pub(crate) fn await_frame<L: Link>(
    link: &mut L,
    inbox: &mut Inbox,
    kept: &mut HeapCircularBuffer<Event>,
    wanted: u16,
) -> Result<Frame, HostError>
    requires room { kept.old.capacity ≡ kept_limit }
    requires fits { length kept.old.items ≤ kept_limit }
    ensures awaits { Awaits (words_of L.sent L.incoming L.faults L.sends L.receives) wanted
        (record { link = link.old; pending = pending_of inbox.old; kept = kept.old.items }) result
        (record { link = link.new; pending = pending_of inbox.new; kept = kept.new.items }) }
    ensures capacity { kept.new.capacity ≡ kept_limit }
    ensures fits { length kept.new.items ≤ kept_limit }
    ensures counts { L.faults link.old ≤ L.faults link.new }
    ensures cause { TellsFault result (L.faults link.old) (L.faults link.new) }
{
    let mut allowed = RECEIVE_LIMIT;
    'frames: loop {
        match inbox.next_frame() {
            Some(frame) => match hear(frame, wanted, kept) {
                Heard::Passed => {}
                Heard::Wanted(frame) => return Ok(frame),
                Heard::NoEvent(frame) => return Err(HostError::BadReply(frame)),
                Heard::Full(event) => return Err(HostError::EventsFull(event)),
            },
            None => {
                if allowed == 0 {
                    return Err(HostError::NoReply);
                }
                match inbox.receive(link, allowed) {
                    Next::Bytes(count) => allowed -= count,
                    Next::End => return Err(HostError::Closed),
                    Next::Fault => return Err(HostError::Link),
                }
            }
        }
    }
}
