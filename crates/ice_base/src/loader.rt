//! Where named contents come from.
ghost use Rattle.std.specs.Prelude.{◌≡◌, ◌≤◌, ℕ, List, Option, take, Some, IfOk, OnOk, IfSome, IsErrOf, vec_len};
ghost use Rattle.ice_base.specs.Counts.{Rose};

use std::alloc::Global;

/// Why a content was not loaded.
#[derive(Clone, Copy, Debug, PartialEq, Eq)]
pub enum LoadError {
    /// The name is not there, or could not be read.
    Failed,
    /// There is no memory for the content.
    Memory,
}

/// A store of contents by name, which no load changes.
pub trait Loader: Drop {
    /// The contents by name, where they are told; a name that is not there has none.
    ghost contents: { Self → Option (List ℕ → Option (List ℕ)) };

    /// How many calls have failed, up to the greatest u64.
    ghost faults: { Self → ℕ };

    /// The first `most` bytes of the content with this name.
    fn load(&mut self, alloc: Global, name: &str, most: usize) -> Result<Vec<u8>, LoadError>
        ensures size { IfOk result (λ v. vec_len v ≤ most) }
        ensures bytes { IfOk result (λ v. IfSome (contents self.old) (λ content_of.
            (bytes : List ℕ) × (content_of name.now ≡ Some bytes) × (v.items ≡ take most bytes))) }
        ensures missing { IsErrOf result LoadError.Failed → IfSome (contents self.old) (λ content_of. content_of name.now ≡ None) }
        ensures kept { contents self.new ≡ contents self.old }
        ensures counts { faults self.old ≤ faults self.new }
        ensures cause { IsErrOf result LoadError.Failed → Rose (faults self.old) (faults self.new) }
        ensures still { OnOk result (faults self.new ≡ faults self.old) };
}
