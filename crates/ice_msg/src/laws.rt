//! What follows from the contracts: each law is the contract of a function that does nothing.
ghost use Rattle.std.specs.Prelude.{◌≡◌, ℕ, List, Result, IsOkAnd};
ghost use Rattle.line_spec.specs.Messages.{IsCommand, IsCommandBody, IsEvent, IsResponse, IsResponseBody, command_body, event_body, ignored_written, response_body};
ghost use Rattle.ice_msg.specs.Reading.{asked, answered, told, ReadsCommand, ReadsEvent, ReadsResponse};
ghost use Rattle.ice_msg.specs.declared.bad.Bad.{Bad};
ghost use Rattle.ice_msg.specs.declared.command.Command.{Command};
ghost use Rattle.ice_msg.specs.declared.event.Event.{Event};
ghost use Rattle.ice_msg.specs.declared.response.Response.{Response};

/// A command's body is read as that command, whatever its ignored bytes.
pub fn a_command_is_read_back()
    ensures { (body : List ℕ) (command : Command) (read : Result Command Bad) → IsCommandBody (asked command) body
        → ReadsCommand body read → IsOkAnd read (λ back. asked back ≡ asked command) }
{}

/// What is written of a command is read as that command.
pub fn a_written_command_is_read_back()
    ensures { (command : Command) (read : Result Command Bad) → IsCommand (asked command)
        → ReadsCommand (command_body (asked command) (ignored_written (asked command))) read
        → IsOkAnd read (λ back. asked back ≡ asked command) }
{}

/// A response's body, and so what is written of it, is read as that response.
pub fn a_response_is_read_back()
    ensures { (body : List ℕ) (response : Response) (read : Result Response Bad)
        → IsResponseBody (answered response) body → ReadsResponse body read
        → IsOkAnd read (λ back. answered back ≡ answered response) }
{}

/// What is written of an event is read as that event.
pub fn an_event_is_read_back()
    ensures { (event : Event) (read : Result Event Bad) → IsEvent (told event)
        → ReadsEvent (event_body (told event)) read → IsOkAnd read (λ back. back ≡ event) }
{}
