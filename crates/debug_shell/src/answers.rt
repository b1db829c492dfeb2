//! What is printed.
ghost use Rattle.std.specs.Prelude.{◌≡◌, ◌+◌, ◌*◌, ◌^◌, ◌<◌, ◌≤◌, ◌++◌, [], ◌∷◌, codes, length, map};
ghost use Rattle.std.specs.Fmt.{decimal};
ghost use Rattle.hex.specs.Hex.{encode_lower};
ghost use Rattle.line_spec.specs.Messages.{IsResponse, break_at};
ghost use Rattle.ice_msg.specs.Reading.{answered, told};
ghost use Rattle.shell_spec.specs.Printed.{address_text, answer_text, character, error_text, event_text, line};
ghost use Rattle.debug_shell.specs.Failing.{failure_text};

use crate::dump::dump;
use crate::text::{Text, put_address, put_bytes, put_decimal, put_name};
use host_session::HostError;
use ice_frame::append;
use ice_msg::{Event, Response};
use shell_spec::LineError;

/// What is wrong with a line.
pub(crate) fn error_text(error: LineError) -> Text
    ensures { result.items ≡ error_text error }
{
    match error {
        LineError::Long => text_line(b"? long"),
        LineError::Unknown(column) => column_line(b"? unknown ", column),
        LineError::Missing(column) => column_line(b"? missing ", column),
        LineError::Value(column) => column_line(b"? value ", column),
        LineError::Extra(column) => column_line(b"? extra ", column),
    }
}

/// Why the host has no answer.
pub(crate) fn failure_text(error: &HostError) -> Text
    ensures { result.items ≡ failure_text error.now }
{
    match error {
        HostError::Link => text_line(b"! link"),
        HostError::NoReply => text_line(b"! no reply"),
        HostError::Closed => text_line(b"! closed"),
        HostError::BadReply(_) => text_line(b"! bad reply"),
        HostError::EventsFull(_) => text_line(b"! events full"),
    }
}

/// What the tool answers, where a dump begins at this address.
pub(crate) fn answer_text(first: u32, response: Response<'_>) -> Text
    requires { IsResponse (answered response) }
    ensures { result.items ≡ answer_text first (answered response.entry) }
{
    match response {
        Response::Okay => text_line(b"ok"),
        Response::Parameter(bytes) => bytes_line(b"value ", bytes),
        Response::Memory(bytes) => dump(first, bytes),
        Response::Pc(address) => pc_line(address),
        Response::SignOn(reply) => name_line(reply.name),
        Response::Refused(refusal) => code_line(refusal.code()),
    }
}

/// Where the target stopped, and why.
pub(crate) fn event_text(event: Event) -> Text
    ensures { result.items ≡ event_text (told event) }
{
    match event {
        Event::Break { pc, cause } => stop_line(pc, cause),
    }
}

/// A stop of the target, as a line.
fn stop_line(pc: u32, cause: u8) -> Text
    ensures { result.items ≡ event_text (break_at pc cause) }
{
    let mut text = Text::new();
    append(&mut text, b"event ");
    put_address(&mut text, pc);
    append(&mut text, b" cause ");
    put_bytes(&mut text, &[cause]);
    text.push(b'\n');
    text
}

/// A short text as a line.
fn text_line(given: &[u8]) -> Text
    requires { length given.now ≤ 20 }
    ensures { result.items ≡ line given.now }
{
    let mut text = Text::new();
    append(&mut text, given);
    text.push(b'\n');
    text
}

/// A column behind a short text, as a line.
fn column_line(given: &[u8], column: u16) -> Text
    requires { length given.now ≤ 20 }
    ensures { result.items ≡ line (given.now ++ decimal column) }
{
    let mut text = Text::new();
    append(&mut text, given);
    put_decimal(&mut text, column);
    text.push(b'\n');
    text
}

/// Bytes behind a short text, as a line.
fn bytes_line(given: &[u8], bytes: &[u8]) -> Text
    requires short { length given.now ≤ 20 }
    requires fits { length bytes.now ≤ 4105 }
    ensures { result.items ≡ line (given.now ++ encode_lower bytes.now) }
{
    let mut text = Text::new();
    append(&mut text, given);
    put_bytes(&mut text, bytes);
    text.push(b'\n');
    text
}

/// The code of a refusal, as a line.
fn code_line(code: u8) -> Text
    ensures { result.items ≡ line (codes "refused " ++ encode_lower (code ∷ [])) }
{
    bytes_line(b"refused ", &[code])
}

/// The program counter, as a line.
fn pc_line(address: u32) -> Text
    ensures { result.items ≡ line (codes "pc " ++ address_text address) }
{
    let mut text = Text::new();
    append(&mut text, b"pc ");
    put_address(&mut text, address);
    text.push(b'\n');
    text
}

/// The name of the tool, as a line.
fn name_line(name: &[u8]) -> Text
    requires { length name.now ≤ 4089 }
    ensures { result.items ≡ line (codes "sign " ++ map character name.now) }
{
    let mut text = Text::new();
    append(&mut text, b"sign ");
    put_name(&mut text, name);
    text.push(b'\n');
    text
}
