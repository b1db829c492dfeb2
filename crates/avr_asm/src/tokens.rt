//! The smallest parts of a line: blanks and names.
ghost use Rattle.std.specs.Prelude.{◌≡◌, ◌==◌, ◌||◌, ◌≤◌, length, not, reverse};
ghost use Rattle.std.specs.List.{list_all, take_while};
ghost use Rattle.asm_spec.specs.Tokens.{behind_blanks, is_blank, is_digit, is_letter, is_name, trimmed};

/// The most bytes of a name behind its first one.
const MORE: usize = 30;

/// Whether a byte is a space or a tab.
pub(crate) fn is_blank(byte: u8) -> bool
    ensures { result ≡ is_blank byte }
{
    byte == b' ' || byte == b'\t'
}

/// Bytes without the blanks in front.
pub(crate) fn behind_blanks(bytes: &[u8]) -> &[u8]
    ensures { result.now ≡ behind_blanks bytes.now }
{
    let mut rest = bytes;
    'blanks: while let [first, more @ ..] = rest {
        if !is_blank(*first) {
            return rest;
        }
        rest = more;
    }
    rest
}

/// Bytes without the blanks at their end.
fn before_blanks(bytes: &[u8]) -> &[u8]
    ensures { result.now ≡ reverse (behind_blanks (reverse bytes.now)) }
{
    let mut front = bytes;
    'blanks: while let [less @ .., last] = front {
        if !is_blank(*last) {
            return front;
        }
        front = less;
    }
    front
}

/// Bytes without the blanks at both ends.
pub(crate) fn trimmed(bytes: &[u8]) -> &[u8]
    ensures { result.now ≡ trimmed bytes.now }
{
    before_blanks(behind_blanks(bytes))
}

/// Whether a byte is a letter of either case, or `_`.
fn is_letter(byte: u8) -> bool
    ensures { result ≡ is_letter byte }
{
    (b'A' <= byte && byte <= b'Z') || (b'a' <= byte && byte <= b'z') || byte == b'_'
}

/// Whether a byte is a digit from 0 to 9.
pub(crate) fn is_digit(byte: u8) -> bool
    ensures { result ≡ is_digit byte }
{
    b'0' <= byte && byte <= b'9'
}

/// Whether bytes are a name: a letter, and at most 30 more letters or digits.
pub(crate) fn is_name(bytes: &[u8]) -> bool
    ensures { result ≡ is_name bytes.now }
{
    match bytes {
        [] => false,
        [first, more @ ..] => is_letter(*first) && more.len() <= MORE && are_of_names(more),
    }
}

/// Whether each byte is a letter or a digit.
fn are_of_names(bytes: &[u8]) -> bool
    ensures { result ≡ list_all (λ byte. is_letter byte || is_digit byte) bytes.now }
{
    bytes.iter().all(|byte| is_letter(*byte) || is_digit(*byte))
}

/// How many bytes come before the first of a kind, or all.
pub(crate) fn before(bytes: &[u8], stop: u8) -> usize
    ensures end { result ≡ length (take_while (λ other. not (other == stop)) bytes.now) }
    ensures within { result ≤ length bytes.now }
{
    let mut end = 0;
    'bytes: while end < bytes.len() {
        if bytes[end] == stop {
            return end;
        }
        end += 1;
    }
    end
}

/// Bytes up to the first blank.
pub(crate) fn ahead_of_blanks(bytes: &[u8]) -> &[u8]
    ensures { result.now ≡ take_while (λ byte. not (is_blank byte)) bytes.now }
{
    &bytes[..first_blank(bytes)]
}

/// The place of the first blank, or the end.
fn first_blank(bytes: &[u8]) -> usize
    ensures end { result ≡ length (take_while (λ byte. not (is_blank byte)) bytes.now) }
    ensures within { result ≤ length bytes.now }
{
    let mut end = 0;
    'bytes: while end < bytes.len() {
        if is_blank(bytes[end]) {
            return end;
        }
        end += 1;
    }
    end
}
