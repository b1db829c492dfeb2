//! Shifts to the right by one bit. C gets the bit shifted out; H stays.

ghost use Rattle.std.specs.Prelude.{◌≡◌, ◌+◌, ◌*◌, ◌/◌};
ghost use Rattle.avr_spec.specs.Bytes.{has_bit, bit};
ghost use Rattle.avr_spec.specs.Flags.{as_call, shift_of, lsr_of, asr_of, ror_of};

use crate::status::{Decided, flags, packed, top_bit, with_signs_of};

/// LSR: the new bit 7 is 0.
#[inline]
pub fn lsr(a: u8, sreg: u8) -> (u8, u8)
    ensures { result ≡ as_call (lsr_of a) sreg }
{
    shifted(false, a, sreg)
}

/// ASR: bit 7 stays.
#[inline]
pub fn asr(a: u8, sreg: u8) -> (u8, u8)
    ensures { result ≡ as_call (asr_of a) sreg }
{
    shifted(top_bit(a), a, sreg)
}

/// ROR: the new bit 7 is the old C.
#[inline]
pub fn ror(a: u8, sreg: u8) -> (u8, u8)
    ensures { result ≡ as_call (ror_of a) sreg }
{
    shifted(flags(sreg).carry, a, sreg)
}

/// `a` shifted by one bit, with this new bit 7; V where N and C differ.
#[inline]
fn shifted(top: bool, a: u8, sreg: u8) -> (u8, u8)
    ensures { result ≡ as_call (shift_of top a) sreg }
{
    let value = halved(top, a);
    let carry = low_bit(a);
    let after = Decided {
        carry,
        ..with_signs_of(flags(sreg), top_bit(value) ^ carry, value)
    };
    (value, packed(sreg, after))
}

/// `a` halved, with this new bit 7.
#[inline]
fn halved(top: bool, a: u8) -> u8
    ensures { result ≡ 128 * bit top + a / 2 }
{
    ((top as u8) << 7) | (a >> 1)
}

/// Bit 0 of a byte.
#[inline]
fn low_bit(byte: u8) -> bool
    ensures { result ≡ has_bit byte 0 }
{
    byte & 0x01 != 0
}
