//! The calls of an object in memory that are to fail.
ghost use Rattle.std.specs.Prelude.{◌≡◌};
ghost use Rattle.ice_base.specs.Failing.{failed_amount};

/// How much the call with this number does before it fails, where it is to fail.
pub(crate) fn failing(fails: &[(u64, usize)], call: u64) -> Option<usize>
    ensures { result ≡ failed_amount fails.now call }
{
    fails
        .iter()
        .find(|entry| entry.0 == call)
        .map(|entry| entry.1)
}
