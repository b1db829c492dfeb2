//! What follows from the definitions: each law is the contract of a function that does nothing.
ghost use Rattle.std.specs.Prelude.{◌≡◌, ℕ, List, [], ◌∷◌, ◌++◌, codes};
ghost use Rattle.line_spec.specs.Check.{check};
ghost use Rattle.line_spec.specs.Cut.{Item, whole, IsCut};
ghost use Rattle.line_spec.specs.Frames.{Begins, Frame, IsBytes, IsFrame, bytes_of};
ghost use Rattle.line_spec.specs.Messages.{Command, Event, IsCommand, IsCommandBody, IsEventBody, IsResponse, IsResponseBody};
ghost use Rattle.line_spec.specs.Messages.{Response, command_body, ignored_written, own_head, own_name, signed_on};

/// The check of the text `123456789` is the one that catalogues of checks give for CRC-16/MCRF4XX.
pub fn check_of_nine_digits()
    ensures { check (codes "123456789") ≡ 0x6F91 }
{}

/// The bytes of the sign-on frame are the ones that a host sends first.
pub fn bytes_of_the_sign_on_frame()
    ensures { bytes_of (record { number = 0; body = 0x01 ∷ [] })
        ≡ 0x1B ∷ 0x00 ∷ 0x00 ∷ 0x01 ∷ 0x00 ∷ 0x00 ∷ 0x00 ∷ 0x0E ∷ 0x01 ∷ 0xF3 ∷ 0x97 ∷ [] }
{}

/// A frame that was written is read again, whatever follows it.
pub fn a_written_frame_is_read()
    ensures { (frame : Frame) (more rest : List ℕ) (items : List Item) → IsFrame frame → IsCut more items rest
        → IsCut (bytes_of frame ++ more) (whole frame ∷ items) rest }
{}

/// No frame is a front of another, so at most one stands at the front of the bytes.
pub fn no_frame_begins_another()
    ensures { (bytes : List ℕ) (frame other : Frame) (behind other_behind : List ℕ) → Begins frame bytes behind
        → Begins other bytes other_behind → (frame ≡ other) × (behind ≡ other_behind) }
{}

/// A stream has one cut at most.
pub fn one_cut()
    ensures { (bytes : List ℕ) (items others : List Item) (rest other_rest : List ℕ) → IsCut bytes items rest
        → IsCut bytes others other_rest → (items ≡ others) × (rest ≡ other_rest) }
{}

/// Every stream of bytes has a cut.
pub fn every_stream_has_a_cut()
    ensures { (bytes : List ℕ) → IsBytes bytes → (items : List Item) × (rest : List ℕ) × IsCut bytes items rest }
{}

/// The cut of a longer stream is the items so far, and then the cut of the rest with what came behind it.
pub fn a_cut_goes_on()
    ensures { (bytes more rest end : List ℕ) (items others : List Item) → IsCut bytes items rest
        → IsCut (rest ++ more) others end → IsCut (bytes ++ more) (items ++ others) end }
{}

/// A body belongs to one command at most.
pub fn one_command_a_body()
    ensures { (body : List ℕ) (command other : Command) → IsCommandBody command body → IsCommandBody other body
        → command ≡ other }
{}

/// A command within its limits has a body: the one that this project writes.
pub fn a_written_command_belongs()
    ensures { (command : Command) → IsCommand command
        → IsCommandBody command (command_body command (ignored_written command)) }
{}

/// A body belongs to one response at most.
pub fn one_response_a_body()
    ensures { (body : List ℕ) (response other : Response) → IsResponseBody response body
        → IsResponseBody other body → response ≡ other }
{}

/// A body belongs to one event at most.
pub fn one_event_a_body()
    ensures { (body : List ℕ) (event other : Event) → IsEventBody event body → IsEventBody other body → event ≡ other }
{}

/// The name that the tool signs on with has no zero, so the zero behind it is its end.
pub fn own_sign_on_is_a_response()
    ensures { IsResponse (signed_on own_head own_name) }
{}
