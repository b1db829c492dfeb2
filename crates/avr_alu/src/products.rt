//! Products of two bytes, as a word. C gets bit 15 of the product; H, S, V and N stay.

ghost use Rattle.std.specs.Prelude.{◌≡◌};
ghost use Rattle.avr_spec.specs.Bytes.{signed, word_of};
ghost use Rattle.avr_spec.specs.Flags.{as_call, product_of, fraction_of, signed_product, mixed_product, mul_of, muls_of, mulsu_of, fmul_of, fmuls_of, fmulsu_of};

use crate::status::with_zero_and_carry;
use crate::words::top_bit_of_word;

/// MUL: both factors unsigned.
#[inline]
pub fn mul(a: u8, b: u8, sreg: u8) -> (u16, u8)
    ensures { result ≡ as_call (mul_of a b) sreg }
{
    product(a as u16 * b as u16, sreg)
}

/// MULS: both factors signed.
#[inline]
pub fn muls(a: u8, b: u8, sreg: u8) -> (u16, u8)
    ensures { result ≡ as_call (muls_of a b) sreg }
{
    product(both_signed(a, b), sreg)
}

/// MULSU: `a` signed, `b` unsigned.
#[inline]
pub fn mulsu(a: u8, b: u8, sreg: u8) -> (u16, u8)
    ensures { result ≡ as_call (mulsu_of a b) sreg }
{
    product(first_signed(a, b), sreg)
}

/// FMUL: twice the product, both factors unsigned.
#[inline]
pub fn fmul(a: u8, b: u8, sreg: u8) -> (u16, u8)
    ensures { result ≡ as_call (fmul_of a b) sreg }
{
    fraction(a as u16 * b as u16, sreg)
}

/// FMULS: twice the product, both factors signed.
#[inline]
pub fn fmuls(a: u8, b: u8, sreg: u8) -> (u16, u8)
    ensures { result ≡ as_call (fmuls_of a b) sreg }
{
    fraction(both_signed(a, b), sreg)
}

/// FMULSU: twice the product, `a` signed, `b` unsigned.
#[inline]
pub fn fmulsu(a: u8, b: u8, sreg: u8) -> (u16, u8)
    ensures { result ≡ as_call (fmulsu_of a b) sreg }
{
    fraction(first_signed(a, b), sreg)
}

/// A product with its flags.
#[inline]
fn product(value: u16, sreg: u8) -> (u16, u8)
    ensures { result ≡ as_call (product_of value) sreg }
{
    (
        value,
        with_zero_and_carry(sreg, value == 0, top_bit_of_word(value)),
    )
}

/// Twice a product, whose top bit goes to C.
#[inline]
fn fraction(product: u16, sreg: u8) -> (u16, u8)
    ensures { result ≡ as_call (fraction_of product) sreg }
{
    let value = product << 1;
    (
        value,
        with_zero_and_carry(sreg, value == 0, top_bit_of_word(product)),
    )
}

/// The product of two signed bytes, as a word in two's complement.
#[inline]
fn both_signed(a: u8, b: u8) -> u16
    ensures { result ≡ signed_product a b }
{
    extended(a).wrapping_mul(extended(b))
}

/// The product of a signed and an unsigned byte, as a word in two's complement.
#[inline]
fn first_signed(a: u8, b: u8) -> u16
    ensures { result ≡ mixed_product a b }
{
    extended(a).wrapping_mul(b as u16)
}

/// A signed byte as a word, in two's complement.
#[inline]
fn extended(byte: u8) -> u16
    ensures { result ≡ word_of (signed byte) }
{
    (byte as u16 ^ 0x80).wrapping_sub(0x80)
}
