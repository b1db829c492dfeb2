//! The records of Intel HEX.
ghost use Rattle.std.specs.Prelude.{◌≡◌, ◌<◌, ◌%◌, ◌==◌, length, Option, None, Some, MatchOption, sum};
ghost use Rattle.image_hex.specs.Records.{bytes_in, number_of, record_in, record_of};
ghost use Rattle.image_hex.specs.Told.{record_shown, IsNoRecord};

use arrayvec::ArrayVec;

/// The most bytes of a record: 255 and the five around them.
const RECORD_BYTES: usize = 260;

/// What a record says.
#[derive(Clone, Copy, Debug, PartialEq, Eq)]
pub(crate) enum Record<'a> {
    /// Bytes from an address on, which counts from the base.
    Data(u16, &'a [u8]),
    /// The image ends.
    End,
    /// Addresses count from here on.
    Base(u32),
    /// Where the program starts, which has no effect.
    Start,
}

/// The bytes of a line, None where they are those of no record.
pub(crate) fn bytes_of(line: &[u8]) -> Option<ArrayVec<u8, RECORD_BYTES>>
    ensures { MatchOption result (IsNoRecord line.now) (λ bytes. bytes_in line.now ≡ Some bytes.items) }
{
    let [first, digits @ ..] = line else {
        return None;
    };
    if *first != b':' {
        return None;
    }
    let mut bytes = ArrayVec::from([0; RECORD_BYTES]);
    bytes.truncate(digits.len() / 2);
    match hex::decode_to_slice(digits, bytes.as_mut_slice()) {
        Ok(()) => Some(bytes),
        Err(_) => None,
    }
}

/// The record of the bytes of a line, None where they are those of none.
pub(crate) fn record_of(bytes: &[u8]) -> Option<Record<'_>>
    ensures { MatchOption result (record_in bytes.now ≡ None) (λ record_. record_in bytes.now ≡ Some (record_shown record_)) }
{
    match bytes {
        [count, high, low, kind, content @ .., _] if content.len() == usize::from(*count) => {
            record_of_kind(*kind, 256 * u16::from(*high) + u16::from(*low), content)
        }
        _ => None,
    }
}

/// The record of this type, None where there is none with such content.
fn record_of_kind(kind: u8, address: u16, content: &[u8]) -> Option<Record<'_>>
    ensures { MatchOption result (record_of kind address content.now ≡ None)
        (λ record_. record_of kind address content.now ≡ Some (record_shown record_)) }
{
    match kind {
        0x00 => Some(Record::Data(address, content)),
        0x01 if content.is_empty() => Some(Record::End),
        0x02 if content.len() == 2 => Some(Record::Base(16 * number_of(content))),
        0x03 if content.len() == 4 => Some(Record::Start),
        0x04 if content.len() == 2 => Some(Record::Base(65_536 * number_of(content))),
        0x05 if content.len() == 4 => Some(Record::Start),
        _ => None,
    }
}

/// Two bytes as a number, the high one first.
fn number_of(bytes: &[u8]) -> u32
    requires { length bytes.now ≡ 2 }
    ensures value { result ≡ number_of bytes.now }
    ensures fits { result < 65536 }
{
    256 * u32::from(bytes[0]) + u32::from(bytes[1])
}

/// Whether the bytes add up to 0 modulo 256.
pub(crate) fn sums_to_zero(bytes: &[u8]) -> bool
    ensures { result ≡ (sum bytes.now % 256 == 0) }
{
    let mut sum: u8 = 0;
    for byte in bytes {
        sum = sum.wrapping_add(*byte);
    }
    sum == 0
}
