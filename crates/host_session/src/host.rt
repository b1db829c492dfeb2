//! The host.
ghost use Rattle.std.specs.Prelude.{◌≡◌, ◌<◌, ◌≤◌, [], length, IfErr, IfOk};
ghost use Rattle.line_spec.specs.Messages.{IsCommand, command_body, ignored_written};
ghost use Rattle.ice_msg.specs.Reading.{asked};
ghost use Rattle.host_session.specs.Hearing.{event_number};
ghost use Rattle.host_session.specs.Awaiting.{TellsFault, kept_limit};
ghost use Rattle.host_session.specs.Calls.{EventComes, GivesEvent, Requests, Sends, command_bytes, next_number};
ghost use Rattle.host_session.specs.Rooms.{IsEmpty};
ghost use Rattle.host_session.specs.Words.{words_of};

use crate::awaiting::await_frame;
use crate::inbox::Inbox;
use crate::room::Room;
use crate::{HostError, NoMemory, Reply};
use arrayvec::ArrayVec;
use circular_buffer::HeapCircularBuffer;
use ice_base::{Failed, Link};
use ice_frame::{Frame, write_frame};
use ice_msg::{Command, Event, read_event, write_command};
use line_spec::limits::{BODY_LIMIT, EVENT_NUMBER};
use std::alloc::Global;
use std::marker::Model;

/// The host end of a line: it numbers its commands, and keeps the events that come while it awaits a reply.
#[derive(Drop)]
pub struct Host<L: Link> {
    link: L,
    inbox: Inbox,
    kept: HeapCircularBuffer<Event>,
    /// The number of the next command.
    number: u16,
}

impl<L: Link> Model for Host<L> {
    ghost use Rattle.std.specs.Prelude.{◌≡◌, ◌<◌, ◌≤◌, length};
    ghost use Rattle.host_session.specs.Standing.{Hosted};
    ghost use Rattle.host_session.specs.Hearing.{pending_of};
    ghost use Rattle.host_session.specs.Awaiting.{kept_limit};

    ghost Value = { Hosted L };

    ghost view = { λ s. record {
      standing = record { link = s.link; pending = pending_of s.inbox; kept = s.kept.items };
      number = s.number;
    } };

    ghost invariant = { λ s. (s.number < 0xFFFF) × (s.kept.capacity ≡ kept_limit) × (length s.kept.items ≤ kept_limit) };
}

impl<L: Link> Host<L> {
    /// A host over the link, whose next command gets the number 0. It takes all its memory here.
    pub fn new(alloc: Global, link: L) -> Result<Host<L>, NoMemory<L>>
        ensures ok { IfOk result (λ host. host ≡ record { standing = record { link = link; pending = []; kept = [] }; number = 0 }) }
        ensures err { IfErr result (λ refused. refused.link ≡ link) }
    {
        match Room::new(alloc) {
            Ok(room) => Ok(Host::over(room, link)),
            Err(_) => Err(NoMemory { link }),
        }
    }

    /// A host over the link with this memory, whose next command gets the number 0.
    pub fn over(room: Room, link: L) -> Host<L>
        requires { IsEmpty room }
        ensures { result ≡ record { standing = record { link = link; pending = []; kept = [] }; number = 0 } }
    {
        Host {
            link,
            inbox: room.inbox,
            kept: room.kept,
            number: 0,
        }
    }

    /// The link, as it is.
    pub fn finish(self) -> L
        ensures { result ≡ self.standing.link }
    {
        let Host {
            link,
            inbox: _,
            kept: _,
            number: _,
        } = self;
        link
    }

    /// The oldest kept event; where none is kept, the next that comes. The number of the next command stays, and after an error the
    /// kept events do; a later call goes on with the bytes that come next.
    pub fn next_event(&mut self) -> Result<Event, HostError>
        ensures gives { GivesEvent (words_of L.sent L.incoming L.faults L.sends L.receives)
            self.old.standing.kept self.old.standing result self.new.standing }
        ensures number { self.new.number ≡ self.old.number }
        ensures counts { L.faults self.old.standing.link ≤ L.faults self.new.standing.link }
        ensures cause { TellsFault result (L.faults self.old.standing.link) (L.faults self.new.standing.link) }
        ensures fits { length self.new.standing.kept ≤ kept_limit }
    {
        match self.kept.pop_front() {
            Some(event) => Ok(event),
            None => self.receive_event(),
        }
    }

    /// The next event that comes.
    fn receive_event(&mut self) -> Result<Event, HostError>
        ensures comes { EventComes (words_of L.sent L.incoming L.faults L.sends L.receives) self.old.standing result self.new.standing }
        ensures number { self.new.number ≡ self.old.number }
        ensures counts { L.faults self.old.standing.link ≤ L.faults self.new.standing.link }
        ensures cause { TellsFault result (L.faults self.old.standing.link) (L.faults self.new.standing.link) }
        ensures fits { length self.new.standing.kept ≤ kept_limit }
    {
        let frame = match await_frame(
            &mut self.link,
            &mut self.inbox,
            &mut self.kept,
            EVENT_NUMBER,
        ) {
            Ok(frame) => frame,
            Err(error) => return Err(error),
        };
        let Ok(event) = read_event(frame.body.as_slice()) else {
            return Err(HostError::BadReply(frame));
        };
        Ok(event)
    }

    /// Sends the command with the next number, of 0 to 0xFFFE, and gives the first reply with that number; events on the way are kept.
    /// After an error the number has advanced and the kept events stay; a later call goes on with the bytes that come next.
    pub fn request(&mut self, command: &Command<'_>) -> Result<Reply, HostError>
        requires within { IsCommand (asked command.now) }
        requires fits { length (command_body (asked command.now) (ignored_written (asked command.now))) ≤ BODY_LIMIT }
        ensures requests { Requests (words_of L.sent L.incoming L.faults L.sends L.receives)
            self.old.number (asked command.now) self.old.standing result self.new.standing }
        ensures number { self.new.number ≡ next_number self.old.number }
        ensures below { self.old.number < event_number }
        ensures counts { L.faults self.old.standing.link ≤ L.faults self.new.standing.link }
        ensures cause { TellsFault result (L.faults self.old.standing.link) (L.faults self.new.standing.link) }
        ensures fits { length self.new.standing.kept ≤ kept_limit }
    {
        let number = self.take_number();
        match send_command(&mut self.link, number, command) {
            Ok(()) => {}
            Err(Failed) => return Err(HostError::Link),
        }
        let frame = match await_frame(&mut self.link, &mut self.inbox, &mut self.kept, number) {
            Ok(frame) => frame,
            Err(error) => return Err(error),
        };
        Reply::of(frame)
    }

    /// The number of a command; the next one gets the number behind it.
    fn take_number(&mut self) -> u16
        ensures number { result ≡ self.old.number }
        ensures below { result < event_number }
        ensures next { self.new.number ≡ next_number self.old.number }
        ensures standing { self.new.standing ≡ self.old.standing }
    {
        let number = self.number;
        self.number = if number == EVENT_NUMBER - 1 {
            0
        } else {
            number + 1
        };
        number
    }
}

/// Sends the command with the number.
fn send_command<L: Link>(link: &mut L, number: u16, command: &Command<'_>) -> Result<(), Failed>
    requires within { IsCommand (asked command.now) }
    requires fits { length (command_body (asked command.now) (ignored_written (asked command.now))) ≤ BODY_LIMIT }
    ensures sends { Sends (words_of L.sent L.incoming L.faults L.sends L.receives)
        link.old (command_bytes number (asked command.now)) result link.new }
    ensures counts { L.faults link.old ≤ L.faults link.new }
{
    let mut body = ArrayVec::new();
    write_command(command, &mut body);
    let frame = Frame { seq: number, body };
    let mut out = ArrayVec::new();
    write_frame(&frame, &mut out);
    link.send(out.as_slice())
}
