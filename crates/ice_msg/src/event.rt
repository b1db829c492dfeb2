//! What the tool tells unasked (AVR067, 'Events').
ghost use Rattle.std.specs.Prelude.{◌≡◌, [], ◌∷◌};
ghost use Rattle.line_spec.specs.Messages.{event_body};
ghost use Rattle.ice_msg.specs.Reading.{told, ReadsEvent};

use crate::Bad;
use arrayvec::ArrayVec;
use ice_frame::append;
use line_spec::code;
use line_spec::limits::BODY_LIMIT;

/// An event of the tool.
#[derive(Clone, Copy, Debug, PartialEq, Eq)]
pub enum Event {
    /// The target stopped.
    Break {
        /// The word address at which it stands.
        pc: u32,
        /// Why it stopped.
        cause: u8,
    },
}

/// The event of a body, or what is wrong with the body.
pub fn read_event(body: &[u8]) -> Result<Event, Bad>
    ensures { ReadsEvent body.now result }
{
    let [first, rest @ ..] = body else {
        return Err(Bad::Code);
    };
    match *first {
        code::BREAK => read_break(rest),
        _ => Err(Bad::Code),
    }
}

/// EVT_BREAK of what stands behind its code.
fn read_break(rest: &[u8]) -> Result<Event, Bad>
    ensures { ReadsEvent (0xE0 ∷ rest.now) result }
{
    let [a0, a1, a2, a3, cause] = rest else {
        return Err(Bad::Length);
    };
    Ok(Event::Break {
        pc: u32::from_le_bytes([*a0, *a1, *a2, *a3]),
        cause: *cause,
    })
}

/// Leaves the body of the event in `out`, which is empty before.
pub fn write_event(event: &Event, out: &mut ArrayVec<u8, BODY_LIMIT>)
    requires { out.old.items ≡ [] }
    ensures { out.new.items ≡ event_body (told event.now) }
{
    let Event::Break { pc, cause } = event;
    out.push(code::BREAK);
    append(out, &pc.to_le_bytes());
    out.push(*cause);
}
