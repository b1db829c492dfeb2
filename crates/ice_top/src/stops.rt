//! STOPS, the numbers of steps after which the runs of a session are stopped.
ghost use Rattle.std.specs.Prelude.{◌≡◌, MatchOption};
ghost use Rattle.ice_top.specs.Stops.{IsStops, numbers_of};

use crate::numbers::number_of;
use arrayvec::ArrayVec;

/// The most numbers.
pub(crate) const STOPS: usize = 64;

/// The greatest number.
const MOST_STEPS: u32 = 100_000_000;

/// The numbers of a text of one to 64 numbers from 1 to 100,000,000, separated by commas.
pub(crate) fn stops_of(text: &[u8]) -> Option<ArrayVec<u32, STOPS>>
    ensures { MatchOption result (IsStops text.now → ⊥) (λ stops. IsStops text.now × (stops.items ≡ numbers_of text.now)) }
{
    let mut stops = ArrayVec::new();
    for piece in text.split(|byte| *byte == b',') {
        if stops.is_full() {
            return None;
        }
        let Some(number) = number_of(piece, 1, MOST_STEPS) else {
            return None;
        };
        stops.push(number);
    }
    Some(stops)
}
