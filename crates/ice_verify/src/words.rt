//! The words that the target runs: those of the program, with nothing planted over them.
ghost use Rattle.std.specs.Prelude.{◌≡◌, ◌+◌, ◌*◌, ◌≤◌, ◌++◌, None, true, length, take, drop, vec_len, IfOk};
ghost use Rattle.part_spec.specs.Chip.{chip_of, page_words, words_of};
ghost use Rattle.part_spec.specs.Pages.{with_page};

use flash_patch::Plan;
use ice_base::{Failed, Flash};
use part_spec::{PAGE_WORDS, Part};
use std::alloc::{AllocError, Global};
use std::marker::Model;

/// The words of a part's flash, whose page writes never fail.
#[derive(Drop)]
pub(crate) struct Words {
    part: Part,
    words: Vec<u16>,
}

impl Model for Words {
    ghost use Rattle.std.specs.Prelude.{◌≡◌, vec_len};
    ghost use Rattle.part_spec.specs.Chip.{chip_of, words_of};
    ghost use Rattle.ice_verify.specs.Kept.{WordsState};

    ghost Value = { WordsState };

    ghost view = { λ s. record { part = s.part; words = s.words.items } };

    ghost invariant = { λ s. vec_len s.words ≡ words_of (chip_of s.part) };
}

impl Words {
    /// The words of a program. All memory is taken here.
    pub(crate) fn of(alloc: Global, part: Part, program: &[u16]) -> Result<Words, AllocError>
        requires { length program.now ≡ words_of (chip_of part) }
        ensures { IfOk result (λ words. words ≡ record { part = part; words = program.now }) }
    {
        let mut words = Vec::new(alloc);
        words.extend_from_slice(program)?;
        Ok(Words { part, words })
    }

    /// Becomes the program of a plan.
    pub(crate) fn follow(&mut self, plan: &Plan)
        requires { self.old.part ≡ plan.now.part }
        ensures { self.new ≡ record { part = self.old.part; words = plan.now.prog } }
    {
        let _ = plan.restore(self);
    }
}

/// Gives a page these words.
fn set_page(words: &mut Vec<u16>, page: u16, content: &[u16; PAGE_WORDS])
    requires { page_words * page + page_words ≤ vec_len words.old }
    ensures words { words.new.items ≡ with_page words.old.items page content.now }
    ensures len { vec_len words.new ≡ vec_len words.old }
{
    let start = PAGE_WORDS * usize::from(page);
    words[start..start + PAGE_WORDS].copy_from_slice(content);
}

impl Flash for Words {
    ghost part = { λ s. s.part };

    ghost words = { λ s. s.words };

    ghost journal = { λ s. None };

    ghost faults = { λ s. 0 };

    ghost writes = { λ s page words made t. made ≡ true };

    fn part(&self) -> Part {
        self.part
    }

    fn word(&self, address: u16) -> u16 {
        self.words[usize::from(address)]
    }

    fn write_page(&mut self, page: u16, content: &[u16; PAGE_WORDS]) -> Result<(), Failed> {
        set_page(&mut self.words, page, content);
        Ok(())
    }
}
