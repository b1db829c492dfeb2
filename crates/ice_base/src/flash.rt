//! The flash of the target.
ghost use Rattle.std.specs.Prelude.{◌≡◌, ◌<◌, ℕ, Bool, List, Option, [], ◌∷◌, length, slice_index, OnOk, OnErr, is_ok};
ghost use Rattle.part_spec.specs.declared.part.Part.{Part};
ghost use Rattle.part_spec.specs.Chip.{chip_of, words_of};
ghost use Rattle.part_spec.specs.Pages.{PageWrite, with_page, IsTorn};
ghost use Rattle.ice_base.specs.Counts.{HasCause};
ghost use Rattle.ice_base.specs.Journal.{Logs};

use crate::Failed;
use part_spec::Part;

/// The flash of a part, in pages of 64 words.
pub trait Flash: Drop {
    /// Whose flash it is.
    ghost part: { Self → Part };

    /// The words that it holds, by word address.
    ghost words: { Self → List ℕ };

    /// The page writes that were made, in order, where they are told.
    ghost journal: { Self → Option (List PageWrite) };

    /// How many calls have failed, up to the greatest u64.
    ghost faults: { Self → ℕ };

    /// What a page write does: the flash before, the page, its words, whether the write was made, the flash after.
    ghost writes: { Self → ℕ → List ℕ → Bool → Self → Type 0 };

    /// Whose flash it is. This never changes.
    fn part(&self) -> Part
        ensures { result ≡ part self.now };

    /// The word at a word address.
    fn word(&self, address: u16) -> u16
        requires { address < words_of (chip_of (part self.now)) }
        ensures word { result ≡ slice_index (words self.now) address }
        ensures size { length (words self.now) ≡ words_of (chip_of (part self.now)) };

    /// Gives a page these words and changes no other. An `Err` leaves each word of the page old or new.
    fn write_page(&mut self, page: u16, content: &[u16; 64]) -> Result<(), Failed>
        requires { page < (chip_of (part self.old)).pages }
        ensures moved { writes self.old page content.now (is_ok result) self.new }
        ensures part { part self.new ≡ part self.old }
        ensures size_before { length (words self.old) ≡ words_of (chip_of (part self.old)) }
        ensures size { length (words self.new) ≡ words_of (chip_of (part self.new)) }
        ensures ok { OnOk result (words self.new ≡ with_page (words self.old) page content.now) }
        ensures logged { OnOk result (Logs (journal self.old) (journal self.new) (record { page = page; words = content.now } ∷ [])) }
        ensures err { OnErr result (IsTorn (words self.old) (words self.new) page content.now) }
        ensures err_logged { OnErr result (Logs (journal self.old) (journal self.new) []) }
        ensures cause { HasCause result (faults self.old) (faults self.new) }
        ensures still { OnOk result (faults self.new ≡ faults self.old) };
}
