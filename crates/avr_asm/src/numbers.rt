//! Numbers, decimal and hexadecimal, and the numbers of registers.
ghost use Rattle.std.specs.Prelude.{◌≡◌, ◌≤◌, ◌<◌, true, min, length, option_map};
ghost use Rattle.asm_spec.specs.Tokens.{are_digits, decimal_number, digit_value, has_no_leading_zero, hex_number, number, number_on};
ghost use Rattle.asm_spec.specs.Tokens.{register_number};
ghost use Rattle.avr_asm.specs.Told.{capped};

/// The greatest number that is told; a greater one is told as it, since no field and no place is as large.
const MOST: u64 = 0xFFFF_FFFF;

/// The most digits of a hexadecimal number.
const HEX_DIGITS: usize = 8;

/// A number: hexadecimal digits behind `0x`, or decimal ones.
pub(crate) fn number_in(bytes: &[u8]) -> Option<u32>
    ensures { result ≡ option_map capped (number bytes.now) }
{
    if bytes.starts_with(b"0x") {
        hex_number(&bytes[2..])
    } else {
        decimal_number(bytes)
    }
}

/// The number of a register: `r` and the number in decimal.
pub(crate) fn register_number(bytes: &[u8]) -> Option<u32>
    ensures { result ≡ option_map capped (register_number bytes.now) }
{
    if bytes.starts_with(b"r") {
        decimal_number(&bytes[1..])
    } else {
        None
    }
}

/// A number in decimal digits.
fn decimal_number(digits: &[u8]) -> Option<u32>
    ensures { result ≡ option_map capped (decimal_number digits.now) }
{
    if !are_digits(10, digits) {
        return None;
    }
    if !has_no_leading_zero(digits) {
        return None;
    }
    Some(value_of(10, digits))
}

/// A number of 1 to 8 hexadecimal digits.
fn hex_number(digits: &[u8]) -> Option<u32>
    ensures { result ≡ option_map capped (hex_number digits.now) }
{
    if digits.is_empty() {
        return None;
    }
    if digits.len() > HEX_DIGITS {
        return None;
    }
    if !are_digits(16, digits) {
        return None;
    }
    Some(value_of(16, digits))
}

/// Whether there is a byte, and no 0 in front of another.
fn has_no_leading_zero(digits: &[u8]) -> bool
    ensures { result ≡ has_no_leading_zero digits.now }
{
    match digits {
        [] => false,
        [_] => true,
        [first, _, ..] => *first != b'0',
    }
}

/// Whether each byte is a digit in a base.
fn are_digits(base: u64, bytes: &[u8]) -> bool
    ensures { result ≡ are_digits base bytes.now }
{
    bytes.iter().all(|byte| digit_value(*byte) < base)
}

/// The value of a digit, up to 15 in either case; of another byte 16.
fn digit_value(byte: u8) -> u64
    ensures value { result ≡ digit_value byte }
    ensures limit { result ≤ 16 }
{
    match byte {
        b'0'..=b'9' => u64::from(byte - b'0'),
        b'A'..=b'F' => u64::from(byte - b'A' + 10),
        b'a'..=b'f' => u64::from(byte - b'a' + 10),
        _ => 16,
    }
}

/// The number that digits are in a base, or the greatest that is told.
fn value_of(base: u64, digits: &[u8]) -> u32
    requires some { 1 ≤ base }
    requires few { base ≤ 16 }
    ensures { result ≡ capped (number_on base 0 digits.now) }
{
    let mut number: u64 = 0;
    'digits: for digit in digits {
        number = (base * number + digit_value(*digit)).min(MOST);
    }
    number as u32
}
