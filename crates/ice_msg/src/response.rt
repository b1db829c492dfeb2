//! What the tool may answer (AVR067, 'Responses').
ghost use Rattle.std.specs.Prelude.{◌≡◌, [], ◌∷◌};
ghost use Rattle.line_spec.specs.Messages.{IsResponse, refusal_code, response_body};
ghost use Rattle.ice_msg.specs.Reading.{answered, ReadsResponse};

use crate::{Bad, Refusal};
use arrayvec::ArrayVec;
use ice_frame::append;
use line_spec::code;
use line_spec::limits::{BODY_LIMIT, MEMORY_LIMIT};

/// The most bytes that a parameter has: with the code, they fill a body.
const PARAMETER_LIMIT: usize = BODY_LIMIT - 1;

/// The most bytes that a name has: with the code, the 15 bytes before it and its zero, they fill a body.
const NAME_LIMIT: usize = BODY_LIMIT - 17;

/// The versions and the name of a tool.
#[derive(Clone, Copy, Debug, PartialEq, Eq)]
pub struct SignOn<'a> {
    /// Protocol version, four version bytes of the master and of the slave, and six of the serial number.
    pub head: [u8; 15],
    /// The name, without the zero behind it.
    pub name: &'a [u8],
}

/// A response of the tool.
#[derive(Clone, Copy, Debug, PartialEq, Eq)]
pub enum Response<'a> {
    /// The command was carried out.
    Okay,
    /// The bytes of a parameter.
    Parameter(&'a [u8]),
    /// The bytes of a memory.
    Memory(&'a [u8]),
    /// The program counter, as a word address.
    Pc(u32),
    /// The versions and the name of the tool.
    SignOn(SignOn<'a>),
    /// The command was not carried out.
    Refused(Refusal),
}

/// The response of a body, or what is wrong with the body.
pub fn read_response(body: &[u8]) -> Result<Response<'_>, Bad>
    ensures { ReadsResponse body.now result }
{
    let [first, rest @ ..] = body else {
        return Err(Bad::Code);
    };
    match *first {
        code::OK => read_okay(rest),
        code::PARAMETER => read_parameter(rest),
        code::MEMORY => read_memory(rest),
        code::PC => read_pc(rest),
        code::SIGN_ON => read_sign_on(rest),
        code::FAILED => read_refusal(Refusal::Failed, rest),
        code::ILLEGAL_PARAMETER => read_refusal(Refusal::IllegalParameter, rest),
        code::ILLEGAL_MEMORY_TYPE => read_refusal(Refusal::IllegalMemoryType, rest),
        code::ILLEGAL_MEMORY_RANGE => read_refusal(Refusal::IllegalMemoryRange, rest),
        code::ILLEGAL_MCU_STATE => read_refusal(Refusal::IllegalMcuState, rest),
        code::ILLEGAL_VALUE => read_refusal(Refusal::IllegalValue, rest),
        code::ILLEGAL_BREAKPOINT => read_refusal(Refusal::IllegalBreakpoint, rest),
        code::ILLEGAL_COMMAND => read_refusal(Refusal::IllegalCommand, rest),
        _ => Err(Bad::Code),
    }
}

/// OK, if nothing stands behind its code.
fn read_okay(rest: &[u8]) -> Result<Response<'_>, Bad>
    ensures { ReadsResponse (0x80 ∷ rest.now) result }
{
    if rest.is_empty() {
        Ok(Response::Okay)
    } else {
        Err(Bad::Length)
    }
}

/// PARAMETER of what stands behind its code, up to what fits a body.
fn read_parameter(rest: &[u8]) -> Result<Response<'_>, Bad>
    ensures { ReadsResponse (0x81 ∷ rest.now) result }
{
    if rest.len() <= PARAMETER_LIMIT {
        Ok(Response::Parameter(rest))
    } else {
        Err(Bad::Length)
    }
}

/// MEMORY of what stands behind its code, up to its limit.
fn read_memory(rest: &[u8]) -> Result<Response<'_>, Bad>
    ensures { ReadsResponse (0x82 ∷ rest.now) result }
{
    if rest.len() <= MEMORY_LIMIT {
        Ok(Response::Memory(rest))
    } else {
        Err(Bad::Length)
    }
}

/// PC of what stands behind its code.
fn read_pc(rest: &[u8]) -> Result<Response<'_>, Bad>
    ensures { ReadsResponse (0x84 ∷ rest.now) result }
{
    let [a0, a1, a2, a3] = rest else {
        return Err(Bad::Length);
    };
    Ok(Response::Pc(u32::from_le_bytes([*a0, *a1, *a2, *a3])))
}

/// SIGN_ON of what stands behind its code: 15 bytes, the name, and a zero.
fn read_sign_on(rest: &[u8]) -> Result<Response<'_>, Bad>
    ensures { ReadsResponse (0x86 ∷ rest.now) result }
{
    let Some((head, behind)) = rest.split_first_chunk::<15>() else {
        return Err(Bad::Length);
    };
    let Some(name) = behind.strip_suffix(&[0x00]) else {
        return Err(Bad::Length);
    };
    if name.len() > NAME_LIMIT || name.contains(&0x00) {
        return Err(Bad::Length);
    }
    Ok(Response::SignOn(SignOn { head: *head, name }))
}

/// The refusal, if nothing stands behind its code.
fn read_refusal(refusal: Refusal, rest: &[u8]) -> Result<Response<'_>, Bad>
    ensures { ReadsResponse (refusal_code refusal ∷ rest.now) result }
{
    if rest.is_empty() {
        Ok(Response::Refused(refusal))
    } else {
        Err(Bad::Length)
    }
}

/// Leaves the body of the response in `out`, which is empty before.
pub fn write_response(response: &Response<'_>, out: &mut ArrayVec<u8, BODY_LIMIT>)
    requires empty { out.old.items ≡ [] }
    requires within { IsResponse (answered response.now) }
    ensures { out.new.items ≡ response_body (answered response.now) }
{
    match response {
        Response::Okay => out.push(code::OK),
        Response::Parameter(bytes) => {
            out.push(code::PARAMETER);
            append(out, bytes);
        }
        Response::Memory(bytes) => {
            out.push(code::MEMORY);
            append(out, bytes);
        }
        Response::Pc(address) => {
            out.push(code::PC);
            append(out, &address.to_le_bytes());
        }
        Response::SignOn(reply) => {
            out.push(code::SIGN_ON);
            append(out, &reply.head);
            append(out, reply.name);
            out.push(0x00);
        }
        Response::Refused(refusal) => out.push(refusal.code()),
    }
}
