//! Sets of word addresses.
ghost use Rattle.std.specs.Prelude.{◌≡◌, ◌≤◌, false, length, insert};
ghost use Rattle.debug_spec.specs.Patch.{has as has_by, without as without_by};
ghost use Rattle.debug_spec.specs.Breakpoints.{inserted};

use arrayvec::ArrayVec;

/// A set has an address.
pub(crate) fn has(set: &[u16], address: u32) -> bool
    ensures { result ≡ has_by set.now address }
{
    for other in set {
        if address == u32::from(*other) {
            return true;
        }
    }
    false
}

/// Where a new address goes in a set in rising order.
pub(crate) fn place_of(set: &[u16], address: u16) -> usize
    requires { has_by set.now address ≡ false }
    ensures place { inserted address set.now ≡ insert set.now result address }
    ensures within { result ≤ length set.now }
{
    let mut place = 0;
    for other in set {
        if address < *other {
            return place;
        }
        place += 1;
    }
    place
}

/// A set without one address.
pub(crate) fn without<const N: usize>(set: &[u16], address: u32) -> ArrayVec<u16, N>
    requires { length set.now ≤ N }
    ensures { result.items ≡ without_by address set.now }
{
    let mut others = ArrayVec::new();
    for other in set {
        if address != u32::from(*other) {
            others.push(*other);
        }
    }
    others
}
