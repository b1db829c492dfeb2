//! Comparators: each may hold a word address at which the target stops.
ghost use Rattle.std.specs.Prelude.{◌≡◌, ◌<◌, ◌^◌, ℕ, false, [], ◌∷◌};
ghost use Rattle.debug_spec.specs.Stop.{compared as compared_by};

/// How many comparators there are.
pub(crate) const COMPARATORS: usize = 4;

/// How many of the boundaries to come, of so many, need no test: all but the last one where no comparator holds an address, and else none.
/// It is not inlined: told where the number comes from, the compiler would test for that too at each boundary.
#[inline(never)]
pub(crate) fn untested(comparators: &[Option<u16>; COMPARATORS], boundaries: u32) -> u32
    requires { 0 < boundaries }
    ensures some { result < boundaries }
    ensures none_holds { 0 < result → (address : ℕ) → compared_by comparators.now address ≡ false }
{
    if is_armed(comparators) {
        0
    } else {
        boundaries - 1
    }
}

/// One of them holds an address.
fn is_armed(comparators: &[Option<u16>; COMPARATORS]) -> bool
    ensures { result ≡ false → (address : ℕ) → compared_by comparators.now address ≡ false }
{
    let [first, second, third, fourth] = comparators;
    first.is_some() || second.is_some() || third.is_some() || fourth.is_some()
}

/// One of them holds this address.
pub(crate) fn compared(comparators: &[Option<u16>; COMPARATORS], address: u16) -> bool
    ensures { result ≡ compared_by comparators.now address }
{
    let [first, second, third, fourth] = comparators;
    holds(first, address)
        || holds(second, address)
        || holds(third, address)
        || holds(fourth, address)
}

/// A comparator holds this address.
#[inline]
fn holds(comparator: &Option<u16>, address: u16) -> bool
    ensures { result ≡ compared_by (comparator.now ∷ []) address }
{
    match comparator {
        None => false,
        Some(other) => address == *other,
    }
}
