//! A flash in memory.
ghost use Rattle.std.specs.Prelude.{◌≡◌, ◌<◌, ◌≤◌, ◌+◌, ◌*◌, ℕ, [], ◌∷◌, ◌++◌, None, Some, length, take, drop, slice_index, unwrap_or, is_ok, IfOk, OnOk, OnErr, vec_len, vec_capacity};
ghost use Rattle.part_spec.specs.declared.part.Part.TheVariants.{M16};
ghost use Rattle.part_spec.specs.Chip.{m16, chip_of, page_words, words_of};
ghost use Rattle.ice_base.specs.Counts.{HasCause};
ghost use Rattle.part_spec.specs.Pages.{erased, overlaid, page_of, with_page, IsTorn};
ghost use Rattle.ice_base.specs.Journal.{Logs};
ghost use Rattle.ice_base.specs.MemFlash.{with_front, torn_at, WritesPage};

use crate::failing::failing;
use crate::{Failed, Flash};
use part_spec::{PAGE_WORDS, Part};
use std::alloc::{AllocError, Global};
use std::marker::Model;

/// A page write as a journal keeps it.
#[derive(Clone, Copy, Debug, PartialEq, Eq)]
pub struct LoggedWrite {
    /// The page, from 0.
    pub page: u16,
    /// The words that the page was given.
    pub words: [u16; PAGE_WORDS],
}

impl Model for LoggedWrite {
    ghost use Rattle.part_spec.specs.Pages.{PageWrite};

    ghost Value = { PageWrite };

    ghost view = { λ w. record { page = w.page; words = w.words } };

    ghost inverse = { λ w. record { page = w.page; words = w.words } };
}

/// A flash in memory, whose page writes fail where it is told.
#[derive(Drop)]
pub struct MemFlash {
    part: Part,
    words: Vec<u16>,
    journal: Vec<LoggedWrite>,
    is_logged: bool,
    room: usize,
    fails: Vec<(u64, usize)>,
    calls: u64,
    faults: u64,
}

impl Model for MemFlash {
    ghost use Rattle.std.specs.Prelude.{◌≡◌, ◌≤◌, None, Some, if◌then◌else◌, vec_len, vec_capacity};
    ghost use Rattle.part_spec.specs.Chip.{chip_of, words_of};
    ghost use Rattle.ice_base.specs.MemFlash.{FlashState};

    ghost Value = { FlashState };

    ghost view = { λ s. record {
      part = s.part;
      words = s.words.items;
      journal = (if s.is_logged then Some s.journal.items else None);
      room = s.room;
      fails = s.fails.items;
      calls = s.calls;
      faults = s.faults;
    } };

    ghost invariant = { λ s. (vec_len s.words ≡ words_of (chip_of s.part)) × (s.room ≤ vec_capacity s.journal) };
}

impl MemFlash {
    /// An erased flash of an ATmega16, each word FFFF, that keeps no journal. The write calls that `fails` lists, by their number
    /// from 1, set the first so many words of their page, at most 64, and fail.
    pub fn of(alloc: Global, fails: Vec<(u64, usize)>) -> Result<MemFlash, AllocError>
        ensures { IfOk result (λ flash. flash ≡ record { part = M16; words = erased m16; journal = None; room = 0; fails = fails.items; calls = 0; faults = 0 }) }
    {
        MemFlash::of_part(alloc, Part::M16, fails)
    }

    /// The same of a part.
    pub fn of_part(
        alloc: Global,
        part: Part,
        fails: Vec<(u64, usize)>,
    ) -> Result<MemFlash, AllocError>
        ensures { IfOk result (λ flash. flash ≡ record { part = part; words = erased (chip_of part); journal = None; room = 0; fails = fails.items; calls = 0; faults = 0 }) }
    {
        Ok(MemFlash {
            part,
            words: erased_words(alloc, part)?,
            journal: Vec::new(alloc),
            is_logged: false,
            room: 0,
            fails,
            calls: 0,
            faults: 0,
        })
    }

    /// An erased flash of an ATmega16 with a journal, for which `room` entries are reserved here. A write that finds no room left
    /// there fails and sets no word, also where it is listed.
    pub fn logged(
        alloc: Global,
        fails: Vec<(u64, usize)>,
        room: usize,
    ) -> Result<MemFlash, AllocError>
        ensures { IfOk result (λ flash. flash ≡ record { part = M16; words = erased m16; journal = Some []; room = room; fails = fails.items; calls = 0; faults = 0 }) }
    {
        MemFlash::logged_part(alloc, Part::M16, fails, room)
    }

    /// The same of a part.
    pub fn logged_part(
        alloc: Global,
        part: Part,
        fails: Vec<(u64, usize)>,
        room: usize,
    ) -> Result<MemFlash, AllocError>
        ensures { IfOk result (λ flash. flash ≡ record { part = part; words = erased (chip_of part); journal = Some []; room = room; fails = fails.items; calls = 0; faults = 0 }) }
    {
        Ok(MemFlash {
            part,
            words: erased_words(alloc, part)?,
            journal: Vec::with_capacity(alloc, room)?,
            is_logged: true,
            room,
            fails,
            calls: 0,
            faults: 0,
        })
    }

    /// The words, by word address.
    pub fn words(&self) -> &[u16]
        ensures { result.now ≡ self.now.words }
    {
        &self.words
    }

    /// The page writes that were made, in order, where they are kept.
    pub fn journal(&self) -> &[LoggedWrite]
        ensures { result.now ≡ unwrap_or self.now.journal [] }
    {
        if self.is_logged { &self.journal } else { &[] }
    }

    /// How many calls have failed, up to the greatest u64.
    pub fn faults(&self) -> u64
        ensures { result ≡ self.now.faults }
    {
        self.faults
    }

    /// How many words of its page the write call with this number sets where it fails.
    fn torn(&self, call: u64) -> Option<usize>
        ensures { result ≡ torn_at self.now call }
    {
        if self.is_logged && self.journal.len() >= self.room {
            return Some(0);
        }
        failing(&self.fails, call).map(|amount| amount.min(PAGE_WORDS))
    }
}

/// The words of a part's erased flash.
fn erased_words(alloc: Global, part: Part) -> Result<Vec<u16>, AllocError>
    ensures words { IfOk result (λ v. v.items ≡ erased (chip_of part)) }
    ensures len { IfOk result (λ v. vec_len v ≡ words_of (chip_of part)) }
{
    vec![in alloc; 0xFFFF; usize::from(part.words())]
}

/// Gives the first `count` words of a page these words.
fn set_front(words: &mut Vec<u16>, page: u16, count: usize, content: &[u16; PAGE_WORDS])
    requires inside { page_words * page + page_words ≤ vec_len words.old }
    requires count { count ≤ page_words }
    ensures words { words.new.items ≡ with_front words.old.items page count content.now }
    ensures len { vec_len words.new ≡ vec_len words.old }
{
    set_words(words, PAGE_WORDS * page as usize, &content[..count]);
}

/// Gives a page these words.
fn set_page(words: &mut Vec<u16>, page: u16, content: &[u16; PAGE_WORDS])
    requires inside { page_words * page + page_words ≤ vec_len words.old }
    ensures words { words.new.items ≡ with_page words.old.items page content.now }
    ensures len { vec_len words.new ≡ vec_len words.old }
{
    set_front(words, page, PAGE_WORDS, content);
}

/// Gives the words from an address on these values.
fn set_words(words: &mut Vec<u16>, address: usize, content: &[u16])
    requires { address + length content.now ≤ vec_len words.old }
    ensures words { words.new.items ≡ overlaid words.old.items address content.now }
    ensures len { vec_len words.new ≡ vec_len words.old }
{
    words[address..address + content.len()].copy_from_slice(content);
}

impl Flash for MemFlash {
    ghost part = { λ s. s.part };

    ghost words = { λ s. s.words };

    ghost journal = { λ s. s.journal };

    ghost faults = { λ s. s.faults };

    ghost writes = { WritesPage };

    fn part(&self) -> Part {
        self.part
    }

    fn word(&self, address: u16) -> u16 {
        self.words[address as usize]
    }

    fn write_page(&mut self, page: u16, content: &[u16; PAGE_WORDS]) -> Result<(), Failed> {
        let call = self.calls.saturating_add(1);
        let torn = self.torn(call);
        self.calls = call;
        match torn {
            None => {
                set_page(&mut self.words, page, content);
                if self.is_logged {
                    let words = *content;
                    let _ = self.journal.push(LoggedWrite { page, words });
                }
                Ok(())
            }
            Some(count) => {
                set_front(&mut self.words, page, count, content);
                self.faults = self.faults.saturating_add(1);
                Err(Failed)
            }
        }
    }
}
