//! Texts, piece by piece, in a line of fixed room.
#![tactic(auto)]

ghost use Rattle.std.specs.Prelude.{◌≡◌, ◌+◌, ◌*◌, ◌≤◌, ◌++◌, length};
ghost use Rattle.std.specs.Fmt.{decimal};
ghost use Rattle.hex.specs.Hex.{encode_lower};

use arrayvec::ArrayVec;

/// The most bytes whose digits are made in one piece.
const PIECE: usize = 64;

/// The most decimal digits of a number.
const DECIMAL: usize = 20;

/// The hexadecimal digits of so many bytes.
const DIGITS: usize = 128;

/// Appends a text, for which there is room.
pub fn push_text<const N: usize>(line: &mut ArrayVec<u8, N>, text: &[u8])
    requires { length line.old.items + length text.now ≤ N }
    ensures items { line.new.items ≡ line.old.items ++ text.now }
    ensures size { length line.new.items ≡ length line.old.items + length text.now }
{
    match line.try_extend_from_slice(text) {
        Ok(()) => {}
        Err(_) => {}
    }
}

/// Appends a number in decimal digits, at most 20, for which there is room.
pub fn push_decimal<const N: usize>(line: &mut ArrayVec<u8, N>, number: u64)
    requires { length line.old.items + length (decimal number) ≤ N }
    ensures items { line.new.items ≡ line.old.items ++ decimal number }
    ensures size { length line.new.items ≤ length line.old.items + 20 }
{
    let mut digits: ArrayVec<u8, DECIMAL> = ArrayVec::new();
    push_digits(&mut digits, number);
    push_text(line, digits.as_slice());
}

/// Appends the decimal digits of a number.
fn push_digits(line: &mut ArrayVec<u8, DECIMAL>, number: u64)
    requires { length line.old.items + length (decimal number) ≤ 20 }
    ensures { line.new.items ≡ line.old.items ++ decimal number }
{
    if number < 10 {
        line.push(b'0' + number as u8);
        return;
    }
    push_digits(line, number / 10);
    line.push(b'0' + (number % 10) as u8);
}

/// Appends bytes in lower-case hexadecimal digits, two for each, for which there is room.
pub fn push_hex<const N: usize>(line: &mut ArrayVec<u8, N>, bytes: &[u8])
    requires { length line.old.items + 2 * length bytes.now ≤ N }
    ensures items { line.new.items ≡ line.old.items ++ encode_lower bytes.now }
    ensures size { length line.new.items ≡ length line.old.items + 2 * length bytes.now }
{
    let mut used = 0;
    'pieces: while used < bytes.len() {
        let (_, rest) = bytes.split_at(used);
        let count = rest.len().min(PIECE);
        let (piece, _) = rest.split_at(count);
        push_piece(line, piece);
        used += count;
    }
}

/// Appends the digits of at most 64 bytes.
fn push_piece<const N: usize>(line: &mut ArrayVec<u8, N>, bytes: &[u8])
    requires few { length bytes.now ≤ 64 }
    requires room { length line.old.items + 2 * length bytes.now ≤ N }
    ensures { line.new.items ≡ line.old.items ++ encode_lower bytes.now }
{
    let mut digits = [0u8; DIGITS];
    let (made, _) = digits.split_at_mut(2 * bytes.len());
    match hex::encode_to_slice(bytes, made) {
        Ok(()) => push_text(line, made),
        Err(_) => unreachable!(),
    }
}

#[cfg(test)]
mod tests {
    use super::*;
    use std::test::Fail;

    #[test]
    fn texts_of_each_kind(rt: HostRuntime) {
        let mut line: ArrayVec<u8, 64> = ArrayVec::new();
        push_text(&mut line, b"at ");
        push_hex(&mut line, &[0x0F, 0xA0]);
        push_text(&mut line, b": ");
        push_decimal(&mut line, 18_446_744_073_709_551_615);
        assert_eq!(rt;
            line.as_slice(),
            b"at 0fa0: 18446744073709551615".as_slice()
        );
    }
}
