//! The line that sums a session up.
ghost use Rattle.std.specs.Prelude.{◌≡◌, ◌+◌, ◌≤◌, ◌++◌, length};
ghost use Rattle.std.specs.Fmt.{decimal};
ghost use Rattle.shell_spec.specs.Listing.{four_digits};
ghost use Rattle.made_session.specs.Counting.{summed_up};

use arrayvec::ArrayVec;
use ice_frame::append;

/// The most bytes of the line: three numbers of at most 20 digits, four digits of the check, and 31 bytes of text.
pub const SUMMARY: usize = 96;

/// The line of so many frames taken, replies and events sent, and the check of their bodies.
pub(crate) fn summary_line(
    taken: u32,
    replies: u64,
    events: u64,
    check: u16,
) -> ArrayVec<u8, SUMMARY>
    ensures { result.items ≡ summed_up taken replies events check }
{
    let mut line = ArrayVec::new();
    push_text(&mut line, b"frames ");
    push_decimal(&mut line, u64::from(taken));
    push_text(&mut line, b" replies ");
    push_decimal(&mut line, replies);
    push_text(&mut line, b" events ");
    push_decimal(&mut line, events);
    push_text(&mut line, b" check ");
    push_text(&mut line, &four_digits(check));
    line.push(b'\n');
    line
}

/// Appends a text.
fn push_text(line: &mut ArrayVec<u8, SUMMARY>, text: &[u8])
    requires { length line.old.items + length text.now ≤ SUMMARY }
    ensures items { line.new.items ≡ line.old.items ++ text.now }
    ensures size { length line.new.items ≡ length line.old.items + length text.now }
{
    append(line, text);
}

/// Appends a number in decimal digits.
fn push_decimal(line: &mut ArrayVec<u8, SUMMARY>, number: u64)
    requires { length line.old.items + length (decimal number) ≤ SUMMARY }
    ensures items { line.new.items ≡ line.old.items ++ decimal number }
    ensures size { length line.new.items ≤ length line.old.items + 20 }
{
    if number < 10 {
        line.push(b'0' + number as u8);
        return;
    }
    push_decimal(line, number / 10);
    line.push(b'0' + (number % 10) as u8);
}

/// The four hexadecimal digits of a number.
fn four_digits(number: u16) -> [u8; 4]
    ensures { result ≡ four_digits number }
{
    let bytes = number.to_be_bytes();
    let mut digits = [0; 4];
    match hex::encode_to_slice(bytes.as_slice(), digits.as_mut_slice()) {
        Ok(()) => digits,
        Err(_) => unreachable!(),
    }
}
