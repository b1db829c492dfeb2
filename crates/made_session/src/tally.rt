//! A sink that counts the frames that are written to it.
ghost use Rattle.std.specs.Prelude.{◌≡◌, ℕ, [], ◌∷◌, ◌++◌, Some, fold, take, OnOk, OnErr};
ghost use Rattle.std.specs.Io.KnownBytes.{Appends};
ghost use Rattle.ice_base.specs.Counts.{HasCause};
ghost use Rattle.made_session.specs.Counting.{counted, start};
ghost use Rattle.made_session.specs.Told.{bytes_told};

use crate::count::Count;
use http_server::Log;
use ice_base::{Failed, Sink};

/// A sink that keeps what the bytes written to it come to. The bytes themselves only proofs see: their log takes no memory.
#[derive(Drop)]
pub(crate) struct Tally {
    /// What they come to.
    pub count: Count,
    log: Log<u8, ()>,
    ghost counts: { count ≡ fold counted start (bytes_told log.items) },
}

impl Tally {
    /// No byte was written.
    pub(crate) fn new() -> Tally
        ensures { bytes_told result.log.items ≡ [] }
    {
        Tally {
            count: Count::start(),
            log: Log::new(),
        }
    }

    /// Takes one byte.
    fn take_byte(&mut self, byte: u8)
        ensures { bytes_told self.new.log.items ≡ bytes_told self.old.log.items ++ byte ∷ [] }
    {
        self.count = self.count.with(byte);
        self.log = self.log.and(&byte, &());
    }
}

impl Sink for Tally {
    ghost written = { λ tally. Some (bytes_told tally.log.items) };

    ghost faults = { λ _. 0 };

    fn put(&mut self, piece: &[u8]) -> Result<(), Failed> {
        for byte in piece {
            self.take_byte(*byte);
        }
        Ok(())
    }
}
