//! Sums and differences of a word and a small number, over 16 bits.

ghost use Rattle.std.specs.Prelude.{◌≡◌};
ghost use Rattle.avr_spec.specs.Bytes.{has_bit};
ghost use Rattle.avr_spec.specs.Flags.{as_call, adiw_of, sbiw_of};

use crate::status::{Decided, flags, packed};

/// ADIW: `a + k`; H stays. The manual's `k` is below 64; the contract holds for every byte.
#[inline]
pub fn adiw(a: u16, k: u8, sreg: u8) -> (u16, u8)
    ensures { result ≡ as_call (adiw_of a k) sreg }
{
    let value = a.wrapping_add(k as u16);
    let before = top_bit_of_word(a);
    let now = top_bit_of_word(value);
    let after = Decided {
        carry: before & !now,
        overflow: !before & now,
        negative: now,
        zero: value == 0,
        ..flags(sreg)
    };
    (value, packed(sreg, after))
}

/// SBIW: `a - k`; H stays. The manual's `k` is below 64; the contract holds for every byte.
#[inline]
pub fn sbiw(a: u16, k: u8, sreg: u8) -> (u16, u8)
    ensures { result ≡ as_call (sbiw_of a k) sreg }
{
    let value = a.wrapping_sub(k as u16);
    let before = top_bit_of_word(a);
    let now = top_bit_of_word(value);
    let after = Decided {
        carry: !before & now,
        overflow: before & !now,
        negative: now,
        zero: value == 0,
        ..flags(sreg)
    };
    (value, packed(sreg, after))
}

/// Bit 15 of a word.
#[inline]
pub fn top_bit_of_word(word: u16) -> bool
    ensures { result ≡ has_bit word 15 }
{
    word >> 15 != 0
}
