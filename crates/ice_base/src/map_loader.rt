//! A loader in memory.
ghost use Rattle.std.specs.Prelude.{◌≡◌, ◌≤◌, ◌↔◌, ℕ, List, None, Some, take, map, string_bytes, IfOk, IfSome, IfNone, IsErrOf, vec_len};
ghost use Rattle.std.specs.Option.{option_map, option_copied};
ghost use Rattle.std.specs.List.{find};
ghost use Rattle.std.specs.Str.{bytes_eq};
ghost use Rattle.ice_base.specs.Counts.{Rose, next_count};
ghost use Rattle.ice_base.specs.MapLoader.{content_of};

use crate::{LoadError, Loader};
use std::alloc::Global;
use std::marker::Model;

/// A loader of named contents that it was made with.
#[derive(Drop)]
pub struct MapLoader {
    pairs: Vec<(String, Vec<u8>)>,
    faults: u64,
}

impl Model for MapLoader {
    ghost use Rattle.std.specs.Prelude.{map, string_bytes};
    ghost use Rattle.ice_base.specs.MapLoader.{LoaderState};

    ghost Value = { LoaderState };

    ghost view = { λ s. record { pairs = map (λ pair. (string_bytes pair.0, pair.1.items)) s.pairs.items; faults = s.faults } };
}

impl MapLoader {
    /// A loader of these pairs of a name and its content. Of several pairs with one name the first counts.
    pub fn of(pairs: Vec<(String, Vec<u8>)>) -> MapLoader
        ensures { result ≡ record { pairs = map (λ pair. (string_bytes pair.0, pair.1.items)) pairs.items; faults = 0 } }
    {
        MapLoader { pairs, faults: 0 }
    }

    /// How many calls have failed, up to the greatest u64.
    pub fn faults(&self) -> u64
        ensures { result ≡ self.now.faults }
    {
        self.faults
    }

    /// The content with this name.
    fn content(&self, name: &str) -> Option<&[u8]>
        ensures { option_copied result ≡ content_of self.now.pairs name.now }
    {
        find_content(&self.pairs, name)
    }
}

/// The content with this name.
fn find_content<'a>(pairs: &'a [(String, Vec<u8>)], name: &str) -> Option<&'a [u8]>
    ensures { option_copied result ≡ option_map (λ pair. pair.1.items) (find (λ pair. bytes_eq (string_bytes pair.0) name.now) pairs.now) }
{
    pairs
        .iter()
        .find(|pair| pair.0.as_str() == name)
        .map(|pair| pair.1.as_slice())
}

impl Loader for MapLoader {
    ghost contents = { λ s. Some (content_of s.pairs) };

    ghost faults = { λ s. s.faults };

    fn load(&mut self, alloc: Global, name: &str, most: usize) -> Result<Vec<u8>, LoadError>
        ensures size { IfOk result (λ v. vec_len v ≤ most) }
        ensures bytes { IfOk result (λ v. (bytes : List ℕ) × (content_of self.old.pairs name.now ≡ Some bytes) × (v.items ≡ take most bytes)) }
        ensures missing { IsErrOf result LoadError.Failed ↔ (content_of self.old.pairs name.now ≡ None) }
        ensures kept { self.new.pairs ≡ self.old.pairs }
        ensures counts { self.old.faults ≤ self.new.faults }
        ensures cause { IsErrOf result LoadError.Failed → Rose self.old.faults self.new.faults }
        ensures after { IfSome (content_of self.old.pairs name.now) (λ _. self.new ≡ self.old) }
        ensures after_missing { IfNone (content_of self.old.pairs name.now) (self.new ≡ record self.old { faults = next_count self.old.faults }) }
    {
        let Some(bytes) = self.content(name) else {
            self.faults = self.faults.saturating_add(1);
            return Err(LoadError::Failed);
        };
        let front = &bytes[..bytes.len().min(most)];
        match front.to_vec(alloc) {
            Ok(content) => Ok(content),
            Err(_) => Err(LoadError::Memory),
        }
    }
}
