//! The bytes of a word.
ghost use Rattle.std.specs.Prelude.{◌≡◌, ◌+◌, ◌*◌};
ghost use Rattle.avr_spec.specs.Bytes as bytes;

/// The low byte of a word.
#[inline]
pub(crate) fn low(word: u16) -> u8
    ensures { result ≡ bytes.low word }
{
    (word % 256) as u8
}

/// The high byte of a word.
#[inline]
pub(crate) fn high(word: u16) -> u8
    ensures { result ≡ bytes.high word }
{
    (word / 256 % 256) as u8
}

/// A word of its two bytes.
#[inline]
pub(crate) fn word(low: u8, high: u8) -> u16
    ensures { result ≡ low + 256 * high }
{
    u16::from(low) + 256 * u16::from(high)
}
