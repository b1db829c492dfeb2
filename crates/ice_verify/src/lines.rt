//! The lines of a record, read from their texts.
ghost use Rattle.std.specs.Prelude.{◌≡◌, ◌≢◌, ◌<◌, ◌≤◌, ◌+◌, ◌*◌, ℕ, List, ◌++◌, codes, length, [], ◌∷◌, MatchOption, Decides};
ghost use Rattle.hex.specs.Hex.{encode_lower};
ghost use Rattle.line_spec.specs.Frames.{IsBytes};
ghost use Rattle.debug_spec.specs.Stop.{Cause as Why, cause_code};
ghost use Rattle.record_spec.specs.Lines.{IsDecimal, IsText, Line, leads};
ghost use Rattle.ice_answer.specs.Values.{why_of};
ghost use Rattle.ice_verify.specs.Told.{IsRead, IsTold, counted};

use arrayvec::ArrayVec;
use ice_answer::Cause;
use ice_text::push_hex;
use record_spec::limits::{IN_LIMIT, LINE_LIMIT, STEP_LIMIT};

/// The most bytes that the digits of a line stand for.
const MOST_BYTES: usize = LINE_LIMIT / 2;

/// The bytes that a line tells.
pub(crate) type Bytes = ArrayVec<u8, MOST_BYTES>;

/// What a line tells.
#[derive(Drop)]
pub(crate) enum Told {
    /// These bytes of the line come in, at most 512.
    Comes(Bytes),
    /// No bytes come in, and a frame that waits is heard.
    Waits,
    /// The line ends.
    LineEnds,
    /// The run that is out ends.
    Halts {
        /// The steps that it has made; above the limit of a record, one more than that.
        steps: u32,
        /// Why it ends.
        cause: Cause,
    },
    /// These bytes are sent.
    Out(Bytes),
}

/// What a text tells, without its line feed; None where it is no line of a record.
pub(crate) fn read(text: &[u8]) -> Option<Told>
    ensures { MatchOption result ((line : Line) → IsText text.now line → length text.now ≤ LINE_LIMIT → ⊥)
        (λ told. (length text.now ≤ LINE_LIMIT) × IsTold text.now told) }
{
    if text.len() > LINE_LIMIT {
        return None;
    }
    if let Some(rest) = behind(text, b"in ") {
        return read_in(rest);
    }
    if let Some(rest) = behind(text, b"out ") {
        return read_out(rest);
    }
    if let Some(rest) = behind(text, b"halt ") {
        return read_halt(rest);
    }
    if b"end".as_slice() == text {
        return Some(Told::LineEnds);
    }
    None
}

/// What stands behind a word at the front of a text, where it stands there.
fn behind<'a>(text: &'a [u8], word: &[u8]) -> Option<&'a [u8]>
    ensures { MatchOption result ((rest : List ℕ) → text.now ≢ word.now ++ rest) (λ rest. text.now ≡ word.now ++ rest.now) }
{
    text.strip_prefix(word)
}

/// What stands behind `in`: bytes, or none.
fn read_in(text: &[u8]) -> Option<Told>
    requires { length text.now ≤ LINE_LIMIT }
    ensures { IsRead (codes "in " ++ text.now) result }
{
    if b"-".as_slice() == text {
        return Some(Told::Waits);
    }
    let Some(bytes) = read_bytes(text) else {
        return None;
    };
    if bytes.len() > IN_LIMIT {
        return None;
    }
    Some(Told::Comes(bytes))
}

/// What stands behind `out`: bytes, or none.
fn read_out(text: &[u8]) -> Option<Told>
    requires { length text.now + 4 ≤ LINE_LIMIT }
    ensures { IsRead (codes "out " ++ text.now) result }
{
    if b"-".as_slice() == text {
        return Some(Told::Out(ArrayVec::new()));
    }
    match read_bytes(text) {
        Some(bytes) => Some(Told::Out(bytes)),
        None => None,
    }
}

/// What stands behind `halt`: the cause in two digits, and the steps.
fn read_halt(text: &[u8]) -> Option<Told>
    ensures { IsRead (codes "halt " ++ text.now) result }
{
    let [zero, digit, blank, steps @ ..] = text else {
        return None;
    };
    if *zero != b'0' || *blank != b' ' {
        return None;
    }
    let Some(cause) = read_cause(*digit) else {
        return None;
    };
    let Some(steps) = read_steps(steps) else {
        return None;
    };
    Some(Told::Halts { steps, cause })
}

/// The cause that a digit stands for.
fn read_cause(digit: u8) -> Option<Cause>
    ensures { MatchOption result ((why : Why) → digit ≢ 48 + cause_code why) (λ cause. digit ≡ 48 + cause_code (why_of cause)) }
{
    match digit {
        b'1' => Some(Cause::Breakpoint),
        b'2' => Some(Cause::Forced),
        b'3' => Some(Cause::SingleStep),
        b'4' => Some(Cause::Restarted),
        b'5' => Some(Cause::OwnBreak),
        b'6' => Some(Cause::Undefined),
        b'7' => Some(Cause::FailedWrite),
        _ => None,
    }
}

/// There is a digit, and no 0 ahead of another.
fn lead_a_number(digits: &[u8]) -> bool
    ensures { result ≡ leads digits.now }
{
    match digits {
        [] => false,
        [_] => true,
        [first, _, ..] => *first >= b'1',
    }
}

/// The number of decimal digits, of which none leads as 0; above the limit of a record, one more than that.
fn read_steps(digits: &[u8]) -> Option<u32>
    ensures { MatchOption result ((all : ℕ) → IsDecimal digits.now all → ⊥)
        (λ steps. (all : ℕ) × IsDecimal digits.now all × (steps ≡ counted all)) }
{
    if !lead_a_number(digits) {
        return None;
    }
    let mut number: u32 = 0;
    'digits: for digit in digits {
        if *digit < b'0' || *digit > b'9' {
            return None;
        }
        number = (10 * number + u32::from(*digit - b'0')).min(STEP_LIMIT + 1);
    }
    Some(number)
}

/// The bytes of digits, two in lower case for each, and at least one byte.
fn read_bytes(digits: &[u8]) -> Option<Bytes>
    requires { length digits.now ≤ LINE_LIMIT }
    ensures { MatchOption result ((bytes : List ℕ) → 0 < length bytes → IsBytes bytes → digits.now ≡ encode_lower bytes → ⊥)
        (λ bytes. (0 < length bytes.items) × IsBytes bytes.items × (digits.now ≡ encode_lower bytes.items)) }
{
    if digits.len() == 0 {
        return None;
    }
    match decode(digits) {
        None => None,
        Some(bytes) => {
            if are_written(bytes.as_slice(), digits) {
                return Some(bytes);
            }
            None
        }
    }
}

/// The bytes of digits of either case, two for each.
fn decode(digits: &[u8]) -> Option<Bytes>
    requires { length digits.now ≤ LINE_LIMIT }
    ensures { MatchOption result ((bytes : List ℕ) → IsBytes bytes → digits.now ≡ encode_lower bytes → ⊥)
        (λ made. (bytes : List ℕ) → IsBytes bytes → digits.now ≡ encode_lower bytes → made.items ≡ bytes) }
{
    let mut bytes = ArrayVec::from([0; MOST_BYTES]);
    bytes.truncate(digits.len() / 2);
    match hex::decode_to_slice(digits, bytes.as_mut_slice()) {
        Ok(()) => Some(bytes),
        Err(_) => None,
    }
}

/// These are the digits with which the bytes are written: in lower case.
fn are_written(bytes: &[u8], digits: &[u8]) -> bool
    requires { length bytes.now ≤ MOST_BYTES }
    ensures written { Decides result (digits.now ≡ encode_lower bytes.now) }
    ensures range { IsBytes bytes.now }
{
    let mut written: ArrayVec<u8, LINE_LIMIT> = ArrayVec::new();
    push_hex(&mut written, bytes);
    written.as_slice() == digits
}
