//! Texts, piece by piece.
ghost use Rattle.std.specs.Prelude.{◌≡◌, ◌+◌, ◌*◌, ◌^◌, ◌<◌, ◌≤◌, ◌++◌, ◌==◌, [], ◌∷◌, length, map};
ghost use Rattle.std.specs.List.{take_while};
ghost use Rattle.std.specs.Fmt.{decimal};
ghost use Rattle.hex.specs.Hex.{encode_lower};
ghost use Rattle.shell_spec.specs.Printed.{address_text, character, eight_digits, without_zeros};

use arrayvec::ArrayVec;
use ice_frame::append;

/// The most bytes of a text: 256 lines of 16 bytes, with an address of eight digits.
pub(crate) const TEXT_LIMIT: usize = 10_752;

/// A text that is printed.
pub(crate) type Text = ArrayVec<u8, TEXT_LIMIT>;

/// A number in decimal digits.
pub(crate) fn put_decimal(text: &mut Text, number: u16)
    requires { length text.old.items + length (decimal number) ≤ 10752 }
    ensures items { text.new.items ≡ text.old.items ++ decimal number }
    ensures size { length text.new.items ≤ length text.old.items + 20 }
{
    if number < 10 {
        text.push(b'0' + number as u8);
        return;
    }
    put_decimal(text, number / 10);
    text.push(b'0' + (number % 10) as u8);
}

/// Bytes in hexadecimal digits, two for each.
pub(crate) fn put_bytes(text: &mut Text, bytes: &[u8])
    requires { length text.old.items + 2 * length bytes.now ≤ 10752 }
    ensures items { text.new.items ≡ text.old.items ++ encode_lower bytes.now }
    ensures size { length text.new.items ≡ length text.old.items + 2 * length bytes.now }
{
    'bytes: for byte in bytes {
        append(text, &two_digits(*byte));
    }
}

/// The two hexadecimal digits of a byte.
fn two_digits(byte: u8) -> [u8; 2]
    ensures { result ≡ encode_lower (byte ∷ []) }
{
    let bytes = [byte];
    let mut digits = [0; 2];
    match hex::encode_to_slice(bytes.as_slice(), digits.as_mut_slice()) {
        Ok(()) => digits,
        Err(_) => unreachable!(),
    }
}

/// An address, in at least four hexadecimal digits.
pub(crate) fn put_address(text: &mut Text, address: u32)
    requires { length text.old.items + 8 ≤ 10752 }
    ensures items { text.new.items ≡ text.old.items ++ address_text address }
    ensures size { length text.new.items ≤ length text.old.items + 8 }
{
    append(text, without_zeros(eight_digits(address).as_slice()));
}

/// The eight hexadecimal digits of a number.
fn eight_digits(number: u32) -> [u8; 8]
    ensures { result ≡ eight_digits number }
{
    let bytes = number.to_be_bytes();
    let mut digits = [0; 8];
    match hex::encode_to_slice(bytes.as_slice(), digits.as_mut_slice()) {
        Ok(()) => digits,
        Err(_) => unreachable!(),
    }
}

/// The digits without zeros in front, but at least four.
fn without_zeros(digits: &[u8]) -> &[u8]
    requires { length digits.now ≡ 8 }
    ensures bytes { result.now ≡ without_zeros digits.now }
    ensures size { length result.now ≤ 8 }
{
    &digits[zeros_in(digits).min(4)..]
}

/// How many zeros the digits begin with.
fn zeros_in(digits: &[u8]) -> usize
    ensures { result ≡ length (take_while (λ digit. digit == 0x30) digits.now) }
{
    digits.iter().take_while(|digit| **digit == b'0').count()
}

/// A name, with a point for each byte that is no character which can be printed.
pub(crate) fn put_name(text: &mut Text, name: &[u8])
    requires { length text.old.items + length name.now ≤ 10752 }
    ensures items { text.new.items ≡ text.old.items ++ map character name.now }
    ensures size { length text.new.items ≡ length text.old.items + length name.now }
{
    'name: for byte in name {
        text.push(character(*byte));
    }
}

/// The byte as a character that can be printed.
fn character(byte: u8) -> u8
    ensures { result ≡ character byte }
{
    if 0x20 <= byte && byte <= 0x7E {
        byte
    } else {
        b'.'
    }
}
