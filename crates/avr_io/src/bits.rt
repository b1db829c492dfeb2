//! Single bits of a byte.
ghost use Rattle.std.specs.Prelude.{◌≡◌, ◌<◌, true, if◌then◌else◌};
ghost use Rattle.avr_spec.specs.Bytes as bytes;

/// Whether bit `k` (below 8) of a byte is 1.
#[inline]
pub fn has_bit(byte: u8, k: u8) -> bool
    requires { k < 8 }
    ensures { result ≡ bytes.has_bit byte k }
{
    byte >> k & 1 == 1
}

/// The byte with bit `k` (below 8) as given.
#[inline]
pub fn with_bit(byte: u8, k: u8, wanted: bool) -> u8
    requires { k < 8 }
    ensures { result ≡ bytes.with_bit byte k wanted }
{
    if wanted {
        byte | 1 << k
    } else {
        byte & !(1 << k)
    }
}

/// The byte with bit `k` set where that is wanted.
pub(crate) fn set_where(wanted: bool, byte: u8, k: u8) -> u8
    requires { k < 8 }
    ensures { result ≡ (if wanted then bytes.with_bit byte k true else byte) }
{
    if wanted {
        with_bit(byte, k, true)
    } else {
        byte
    }
}
