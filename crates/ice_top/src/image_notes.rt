//! The line that says what is wrong with an image.
ghost use Rattle.std.specs.Prelude.{◌≡◌, ◌≤◌, ◌++◌, length};
ghost use Rattle.std.specs.Fmt.{decimal};
ghost use Rattle.ice_top.specs.Notes.{line, refusal_text};

use crate::notes::LINE;
use arrayvec::ArrayVec;
use ice_text::{push_decimal, push_text};
use image_hex::ImageError;

/// The line for a refused image; lines of a text and byte addresses are in decimal.
pub(crate) fn refusal_line(error: ImageError) -> ArrayVec<u8, LINE>
    ensures { result.items ≡ line (refusal_text error) }
{
    match error {
        ImageError::BadRecord(number) => numbered_line(b"image: record ", number),
        ImageError::BadSum(number) => numbered_line(b"image: sum ", number),
        ImageError::TooLarge => plain_line(b"image: large"),
        ImageError::Odd => plain_line(b"image: odd"),
        ImageError::Overlap(address) => numbered_line(b"image: overlap ", address),
        ImageError::Memory => plain_line(b"memory"),
    }
}

/// A text as a line.
fn plain_line(text: &[u8]) -> ArrayVec<u8, LINE>
    requires { length text.now ≤ 20 }
    ensures { result.items ≡ line text.now }
{
    let mut line = ArrayVec::new();
    push_text(&mut line, text);
    line.push(b'\n');
    line
}

/// A text with a number behind it as a line.
fn numbered_line(text: &[u8], number: u32) -> ArrayVec<u8, LINE>
    requires { length text.now ≤ 20 }
    ensures { result.items ≡ line (text.now ++ decimal number) }
{
    let mut line = ArrayVec::new();
    push_text(&mut line, text);
    push_decimal(&mut line, u64::from(number));
    line.push(b'\n');
    line
}
