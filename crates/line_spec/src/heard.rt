//! What follows of what is heard on the line: each law is the contract of a function that does nothing, and so is each value.
ghost use Rattle.std.specs.Prelude.{◌≡◌, [], ◌∷◌};
ghost use Rattle.line_spec.specs.Cut.{whole, junk, IsCut};
ghost use Rattle.line_spec.specs.Messages.{get_sign_on, go, write_memory};
ghost use Rattle.line_spec.specs.Hearing.{IsRequest, asks, unknown_code, wrong_length, request, dropped, Hears};
ghost use Rattle.line_spec.specs.HearingLaws.{EachByteIsHeard, OneRequest};

/// Each byte that was cut is one of a frame that asks, or is counted among those that are dropped.
pub fn each_byte_is_heard()
    ensures { EachByteIsHeard }
{}

/// A body is one request only: a command, a code that is not known, or a known code with a wrong length.
pub fn one_request_a_body()
    ensures { OneRequest }
{}

/// No body and a code that stands for no command are a code that is not known; a byte behind GO, a byte too few in WRITE_MEMORY and
/// one too many are a wrong length.
pub fn bodies_that_are_no_command()
    ensures none { IsRequest [] unknown_code }
    ensures unknown { IsRequest (0x0e ∷ []) unknown_code }
    ensures known { IsRequest (0x08 ∷ []) (asks go) }
    ensures behind { IsRequest (0x08 ∷ 0x00 ∷ []) wrong_length }
    ensures counted { IsRequest (0x04 ∷ 0x20 ∷ 0x01 ∷ 0 ∷ 0 ∷ 0 ∷ 0x60 ∷ 0 ∷ 0 ∷ 0 ∷ 0x2a ∷ [])
        (asks (write_memory 0x20 0x60 (0x2a ∷ []))) }
    ensures too_few { IsRequest (0x04 ∷ 0x20 ∷ 0x02 ∷ 0 ∷ 0 ∷ 0 ∷ 0x60 ∷ 0 ∷ 0 ∷ 0 ∷ 0x01 ∷ []) wrong_length }
    ensures too_many { IsRequest (0x04 ∷ 0x20 ∷ 0x00 ∷ 0 ∷ 0 ∷ 0 ∷ 0x60 ∷ 0 ∷ 0 ∷ 0 ∷ 0x01 ∷ []) wrong_length }
{}

/// Junk goes byte by byte, and not up to where a frame may begin.
pub fn junk_goes_byte_by_byte()
    ensures { IsCut (0x05 ∷ 0x06 ∷ []) (junk 0x05 ∷ junk 0x06 ∷ []) [] }
{}

/// A frame with the number of events is dropped with all its 11 bytes, and the number before it asks.
pub fn frames_of_the_last_numbers()
    ensures event { Hears (whole (record { number = 0xffff; body = 0x01 ∷ [] })) (dropped 11) }
    ensures before { Hears (whole (record { number = 0xfffe; body = 0x01 ∷ [] })) (request 0xfffe (asks get_sign_on)) }
{}
