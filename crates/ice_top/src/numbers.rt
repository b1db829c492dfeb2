//! Numbers in words.
ghost use Rattle.std.specs.Prelude.{◌≡◌, MatchOption};
ghost use Rattle.ice_top.specs.Stops.{IsNumber, number_of};

/// The number of a text of decimal digits with no zero ahead of others, where it is one from the least to the most.
pub(crate) fn number_of(text: &[u8], least: u32, most: u32) -> Option<u32>
    ensures { MatchOption result (IsNumber least most text.now → ⊥) (λ number. IsNumber least most text.now × (number ≡ number_of text.now)) }
{
    if text.is_empty() || (text.len() > 1 && text[0] == b'0') {
        return None;
    }
    let mut number = 0u64;
    for byte in text {
        if !byte.is_ascii_digit() {
            return None;
        }
        number = 10 * number + u64::from(*byte - b'0');
        if number > u64::from(most) {
            return None;
        }
    }
    if number < u64::from(least) {
        return None;
    }
    Some(number as u32)
}
