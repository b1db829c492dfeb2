//! A loader over the files of the runtime.
ghost use Rattle.std.specs.Prelude.{◌≡◌, ◌≤◌, ℕ, None, IfOk, OnOk, IsErrOf, vec_len};
ghost use Rattle.ice_base.specs.Counts.{Rose, next_count};

use crate::{LoadError, Loader};
use std::alloc::Global;
use std::io::{ErrorKind, Read};
use std::marker::Model;
use std::rt::Files;
use std::{fs, io};

/// A loader of the files that their names name.
#[derive(Drop)]
pub struct StdLoader<F: Files + Drop> {
    files: F,
    faults: u64,
}

// Clauses see the count of faults.
impl<F: Files + Drop> Model for StdLoader<F> {
    ghost use Rattle.std.specs.Prelude.{ℕ};

    ghost Value = { ℕ };

    ghost view = { λ s. s.faults };
}

impl<F: Files + Drop> StdLoader<F> {
    /// A loader over these files.
    pub fn of(files: F) -> StdLoader<F>
        ensures { result ≡ 0 }
    {
        StdLoader { files, faults: 0 }
    }

    /// How many calls have failed, up to the greatest u64.
    pub fn faults(&self) -> u64
        ensures { result ≡ self.now }
    {
        self.faults
    }
}

/// The first `most` bytes of a file.
fn load_front<F: Files>(files: &F, alloc: Global, name: &str, most: usize) -> io::Result<Vec<u8>>
    ensures { IfOk result (λ v. vec_len v ≤ most) }
{
    let file = fs::open(files, name)?;
    let mut content = Vec::new(alloc);
    file.take(most as u64).read_to_end(&mut content)?;
    content.truncate(most);
    Ok(content)
}

impl<F: Files + Drop> Loader for StdLoader<F> {
    ghost contents = { λ _. None };

    ghost faults = { λ s. s };

    fn load(&mut self, alloc: Global, name: &str, most: usize) -> Result<Vec<u8>, LoadError>
        ensures size { IfOk result (λ v. vec_len v ≤ most) }
        ensures kept { OnOk result (self.new ≡ self.old) }
        ensures counts { self.old ≤ self.new }
        ensures cause { IsErrOf result LoadError.Failed → Rose self.old self.new }
        ensures counted { IsErrOf result LoadError.Failed → self.new ≡ next_count self.old }
        ensures memory { IsErrOf result LoadError.Memory → self.new ≡ self.old }
    {
        match load_front(&self.files, alloc, name, most) {
            Ok(content) => Ok(content),
            Err(error) if error.kind() == ErrorKind::OutOfMemory => Err(LoadError::Memory),
            Err(_) => {
                self.faults = self.faults.saturating_add(1);
                Err(LoadError::Failed)
            }
        }
    }
}
