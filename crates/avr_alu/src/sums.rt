//! Sums and differences of bytes.

ghost use Rattle.std.specs.Prelude.{◌≡◌};
ghost use Rattle.avr_spec.specs.Bytes.{bit};
ghost use Rattle.avr_spec.specs.Sreg.{Flags};
ghost use Rattle.avr_spec.specs.Flags.{as_call, sum_of, add_of, adc_of, difference_of, sub_of, sbc_of, neg_of, inc_of, dec_of};
ghost use Rattle.avr_alu.specs.Status.{alu_result_in};
ghost use Rattle.avr_alu.specs.Carries.{carry_bits, decided_by};

use crate::status::{flags, packed, with_carries, with_carries_of_more, with_signs_of};

/// ADD: `a + b`.
#[inline]
pub fn add(a: u8, b: u8, sreg: u8) -> (u8, u8)
    ensures { result ≡ as_call (add_of a b) sreg }
{
    sum(a, b, false, sreg)
}

/// ADC: `a + b` and the old C.
#[inline]
pub fn adc(a: u8, b: u8, sreg: u8) -> (u8, u8)
    ensures { result ≡ as_call (adc_of a b) sreg }
{
    sum(a, b, flags(sreg).carry, sreg)
}

/// SUB, SUBI, CP and CPI: `a - b`.
#[inline]
pub fn sub(a: u8, b: u8, sreg: u8) -> (u8, u8)
    ensures { result ≡ as_call (sub_of a b) sreg }
{
    let (value, carried) = difference(a, b, false);
    (value, with_carries(sreg, value, carried))
}

/// SBC, SBCI and CPC: `a - b` less the old C; Z stays 1 only where it was 1.
#[inline]
pub fn sbc(a: u8, b: u8, sreg: u8) -> (u8, u8)
    ensures { result ≡ as_call (sbc_of a b) sreg }
{
    let (value, carried) = difference(a, b, flags(sreg).carry);
    (value, with_carries_of_more(sreg, value, carried))
}

/// NEG: `0 - a`.
#[inline]
pub fn neg(a: u8, sreg: u8) -> (u8, u8)
    ensures { result ≡ as_call (neg_of a) sreg }
{
    sub(0, a, sreg)
}

/// INC: `a + 1`; H and C stay.
#[inline]
pub fn inc(a: u8, sreg: u8) -> (u8, u8)
    ensures { result ≡ as_call (inc_of a) sreg }
{
    let value = a.wrapping_add(1);
    let after = with_signs_of(flags(sreg), value == 0x80, value);
    (value, packed(sreg, after))
}

/// DEC: `a - 1`; H and C stay.
#[inline]
pub fn dec(a: u8, sreg: u8) -> (u8, u8)
    ensures { result ≡ as_call (dec_of a) sreg }
{
    let value = a.wrapping_sub(1);
    let after = with_signs_of(flags(sreg), value == 0x7F, value);
    (value, packed(sreg, after))
}

/// `a + b`, and 1 more with a carry.
#[inline]
fn sum(a: u8, b: u8, carry: bool, sreg: u8) -> (u8, u8)
    ensures { result ≡ as_call (sum_of (bit carry) a b) sreg }
{
    let wide = a as u16 + b as u16 + carry as u16;
    let value = (wide % 256) as u8;
    (value, with_carries(sreg, value, (a ^ b) as u16 ^ wide))
}

/// `a - b`, and 1 less with a borrow: the byte, and the bits into which a borrow came.
#[inline]
fn difference(a: u8, b: u8, borrow: bool) -> (u8, u16)
    ensures { (f : Flags) → alu_result_in (result.0, decided_by result.0 (carry_bits result.1)) f ≡ difference_of (bit borrow) a b f }
{
    let wide = (a as u16)
        .wrapping_sub(b as u16)
        .wrapping_sub(borrow as u16);
    let value = (wide % 256) as u8;
    (value, (a ^ b) as u16 ^ wide)
}
