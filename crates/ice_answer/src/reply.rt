//! What is sent: replies and break events, a frame each.
ghost use Rattle.std.specs.Prelude.{◌≡◌, ◌+◌, ◌≤◌, [], length};
ghost use Rattle.line_spec.specs.Messages.{IsResponse, break_at, event_body, okay as okay_response, refused, response_body};
ghost use Rattle.line_spec.specs.Hearing.{event_number};
ghost use Rattle.debug_spec.specs.Stop.{cause_code};
ghost use Rattle.ice_msg.specs.Reading.{answered};
ghost use Rattle.ice_answer.specs.Values.{why_of};
ghost use Rattle.ice_answer.specs.Does.{Sends};

use crate::cause::Cause;
use arrayvec::ArrayVec;
use ice_frame::{Frame, append, write_frame};
use ice_msg::{Event, Refusal, Response, write_event, write_response};
use line_spec::limits::{BODY_LIMIT, EVENT_NUMBER, FRAME_EDGE, FRAME_LIMIT};

/// The bytes of the body of a break event.
const EVENT_BODY: usize = 6;

/// The bytes of one reply and of one break event.
pub const OUT_LIMIT: usize = FRAME_LIMIT + EVENT_BODY + FRAME_EDGE;

/// What one call sends: room for one reply and one break event.
pub type Out = ArrayVec<u8, 4132>;

/// Sends a frame.
pub fn send(out: &mut Out, seq: u16, body: ArrayVec<u8, BODY_LIMIT>)
    requires { length out.old.items + length body.items + FRAME_EDGE ≤ OUT_LIMIT }
    ensures sends { Sends seq body.items out.old.items out.new.items }
    ensures size { length out.new.items ≡ length out.old.items + length body.items + FRAME_EDGE }
{
    let mut bytes = ArrayVec::new();
    write_frame(&Frame { seq, body }, &mut bytes);
    append(out, bytes.as_slice());
}

/// Replies to the frame with this number.
pub fn reply(out: &mut Out, number: u16, response: &Response<'_>)
    requires empty { out.old.items ≡ [] }
    requires response { IsResponse (answered response.now) }
    ensures sends { Sends number (response_body (answered response.now)) out.old.items out.new.items }
    ensures size { length out.new.items ≤ FRAME_LIMIT }
{
    let mut body = ArrayVec::new();
    write_response(response, &mut body);
    send(out, number, body)
}

/// Replies OK.
pub fn okay(out: &mut Out, number: u16)
    requires { out.old.items ≡ [] }
    ensures sends { Sends number (response_body okay_response) out.old.items out.new.items }
    ensures size { length out.new.items ≤ FRAME_LIMIT }
{
    reply(out, number, &Response::Okay)
}

/// Replies with a refusal.
pub fn refuse(out: &mut Out, number: u16, refusal: Refusal)
    requires { out.old.items ≡ [] }
    ensures sends { Sends number (response_body (refused refusal)) out.old.items out.new.items }
    ensures size { length out.new.items ≤ FRAME_LIMIT }
{
    reply(out, number, &Response::Refused(refusal))
}

/// Sends a break event: where the target stopped, and why.
pub fn tell(out: &mut Out, pc: u16, cause: Cause)
    requires { length out.old.items ≤ FRAME_LIMIT }
    ensures { Sends event_number (event_body (break_at pc (cause_code (why_of cause)))) out.old.items out.new.items }
{
    let mut body = ArrayVec::new();
    write_event(
        &Event::Break {
            pc: u32::from(pc),
            cause: cause.code(),
        },
        &mut body,
    );
    send(out, EVENT_NUMBER, body)
}
