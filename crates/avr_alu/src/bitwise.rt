//! Operations on each bit by itself.

ghost use Rattle.std.specs.Prelude.{◌≡◌};
ghost use Rattle.avr_spec.specs.Flags.{as_call, logic_of, and_of, or_of, eor_of, com_of};

use crate::status::{Decided, flags, packed, with_signs, with_signs_of};

/// AND and ANDI; V becomes 0, H and C stay.
#[inline]
pub fn and(a: u8, b: u8, sreg: u8) -> (u8, u8)
    ensures { result ≡ as_call (and_of a b) sreg }
{
    logic(a & b, sreg)
}

/// OR and ORI; V becomes 0, H and C stay.
#[inline]
pub fn or(a: u8, b: u8, sreg: u8) -> (u8, u8)
    ensures { result ≡ as_call (or_of a b) sreg }
{
    logic(a | b, sreg)
}

/// EOR; V becomes 0, H and C stay.
#[inline]
pub fn eor(a: u8, b: u8, sreg: u8) -> (u8, u8)
    ensures { result ≡ as_call (eor_of a b) sreg }
{
    logic(a ^ b, sreg)
}

/// COM: every bit inverted; V becomes 0 and C 1, H stays.
#[inline]
pub fn com(a: u8, sreg: u8) -> (u8, u8)
    ensures { result ≡ as_call (com_of a) sreg }
{
    let value = !a;
    let after = Decided {
        carry: true,
        ..with_signs_of(flags(sreg), false, value)
    };
    (value, packed(sreg, after))
}

/// A result of a bitwise operation, with V 0 and N, Z and S of it.
#[inline]
fn logic(value: u8, sreg: u8) -> (u8, u8)
    ensures { result ≡ as_call (logic_of value) sreg }
{
    (value, with_signs(sreg, value))
}
