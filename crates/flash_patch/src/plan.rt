//! The plan of a flash.
ghost use Rattle.std.specs.Prelude.{◌≡◌, ◌⊎◌, ◌<◌, ◌≤◌, ℕ, List, [], true, length, is_ok, None, Some};
ghost use Rattle.std.specs.Prelude.{IfOk, IfSome, OnOk, OnErr, MatchResult};
ghost use Rattle.part_spec.specs.declared.part.Part.{Part};
ghost use Rattle.part_spec.specs.Chip.{chip_of, m16, m32, words_of};
ghost use Rattle.part_spec.specs.Pages.{page_of, with_page};
ghost use Rattle.ice_base.specs.Counts.{HasCause};
ghost use Rattle.debug_spec.specs.Patch.{before as address_before, has as has_by, patch, plantable as may_plant, without as without_by};
ghost use Rattle.debug_spec.specs.Breakpoints.{inserted, soft_limit};
ghost use Rattle.debug_spec.specs.Device.{synced};
ghost use Rattle.debug_spec.specs.Programming.{programmed_from};
ghost use Rattle.debug_spec.specs.Debugger.{targets_by};
ghost use Rattle.avr_spec.specs.Step.{word_at};
ghost use Rattle.flash_patch.specs.State.{IsRising, planted};
ghost use Rattle.flash_patch.specs.Setting.{refusal};
ghost use Rattle.flash_patch.specs.Asking.{seen, Asks, Programs};

use crate::addresses;
use crate::pages::{patched_page, sync_page, sync_pages};
use arrayvec::ArrayVec;
use avr_decode::{is_skip, two_word};
use ice_base::{Flash, Part};
use part_spec::PAGE_WORDS;
use std::alloc::{AllocError, Global};
use std::marker::Model;

/// The most software breakpoints.
const SOFT_LIMIT: usize = 64;

/// The most addresses that are planted: those and an extra one.
const MOST_PLANTED: usize = SOFT_LIMIT + 1;

/// A page write failed.
#[derive(Clone, Copy, Debug, PartialEq, Eq)]
pub struct FlashFault;

/// No software breakpoint is set there.
#[derive(Clone, Copy, Debug, PartialEq, Eq)]
pub struct NotSet;

/// Why a software breakpoint is not set.
#[derive(Clone, Copy, Debug, PartialEq, Eq)]
pub enum Refused {
    /// The address is not in the flash.
    Range,
    /// A two-word instruction begins there behind a skip, which skips both its words and would skip one word of a BREAK.
    AfterSkip,
    /// As many are set as there may be.
    Full,
}

/// The program that a flash is to hold, and the software breakpoints that are planted in it.
#[derive(Drop)]
pub struct Plan {
    part: Part,
    program: Vec<u16>,
    soft: ArrayVec<u16, SOFT_LIMIT>,
}

impl Model for Plan {
    ghost use Rattle.std.specs.Prelude.{◌≡◌, vec_len};
    ghost use Rattle.part_spec.specs.Chip.{chip_of, words_of};
    ghost use Rattle.flash_patch.specs.State.{PlanState, IsRising};

    ghost Value = { PlanState };

    ghost view = { λ s. record { part = s.part; prog = s.program.items; soft = s.soft.items } };

    ghost invariant = { λ s. (vec_len s.program ≡ words_of (chip_of s.part)) × IsRising s.soft.items };
}

impl Plan {
    /// The plan of a program, with no software breakpoint. All memory is taken here. The part is told by the number of words.
    pub fn new(alloc: Global, program: &[u16]) -> Result<Plan, AllocError>
        requires { (length program.now ≡ words_of m16) ⊎ (length program.now ≡ words_of m32) }
        ensures program { IfOk result (λ plan. plan.prog ≡ program.now) }
        ensures size { IfOk result (λ plan. length plan.prog ≡ words_of (chip_of plan.part)) }
        ensures part { IfOk result (λ plan. (part : Part) → length program.now ≡ words_of (chip_of part) → plan.part ≡ part) }
        ensures empty { IfOk result (λ plan. plan.soft ≡ []) }
    {
        let part = if program.len() == usize::from(Part::M16.words()) {
            Part::M16
        } else {
            Part::M32
        };
        let mut words = Vec::new(alloc);
        words.extend_from_slice(program)?;
        Ok(Plan {
            part,
            program: words,
            soft: ArrayVec::new(),
        })
    }

    /// Whose program it is.
    pub fn part(&self) -> Part
        ensures { result ≡ self.now.part }
    {
        self.part
    }

    /// A BREAK may be planted at an address: it is in the flash, and no two-word instruction begins there behind a skip.
    pub fn plantable(&self, address: u32) -> bool
        ensures { result ≡ may_plant (chip_of self.now.part) self.now.prog address }
    {
        if address >= u32::from(self.part.words()) {
            return false;
        }
        let word = self.program_word(address as u16);
        let word_before = self.program_word(self.before(address as u16));
        !(two_word(word) && is_skip(word_before))
    }

    /// The address before another, modulo the flash.
    fn before(&self, address: u16) -> u16
        requires { address < words_of (chip_of self.now.part) }
        ensures is { result ≡ address_before (chip_of self.now.part) address }
        ensures within { result < words_of (chip_of self.now.part) }
    {
        if address == 0 {
            self.part.words() - 1
        } else {
            address - 1
        }
    }

    /// A software breakpoint is set at an address. Those that are set stand in rising order, and there are at most 64.
    pub fn has(&self, address: u16) -> bool
        ensures has { result ≡ has_by self.now.soft address }
        ensures rising { IsRising self.now.soft }
        ensures few { length self.now.soft ≤ soft_limit }
    {
        addresses::has(self.soft.as_slice(), u32::from(address))
    }

    /// The program's word at an address.
    pub fn program_word(&self, address: u16) -> u16
        requires { address < words_of (chip_of self.now.part) }
        ensures word { result ≡ word_at self.now.prog address }
        ensures size { length self.now.prog ≡ words_of (chip_of self.now.part) }
    {
        self.program[usize::from(address)]
    }

    /// Sets a software breakpoint. Where it is set already nothing changes.
    pub fn set(&mut self, address: u32) -> Result<(), Refused>
        ensures rest { self.new ≡ record self.old { soft = self.new.soft } }
        ensures answer { MatchResult result (λ _. refusal self.old address ≡ None) (λ refused. refusal self.old address ≡ Some refused) }
        ensures set { OnOk result (self.new ≡ record self.old { soft = inserted address self.old.soft }) }
        ensures already { OnOk result (has_by self.old.soft address ≡ true → self.new ≡ self.old) }
        ensures refused { OnErr result (self.new ≡ self.old) }
    {
        if address >= u32::from(self.part.words()) {
            return Err(Refused::Range);
        }
        if !self.plantable(address) {
            return Err(Refused::AfterSkip);
        }
        self.insert(address as u16)
    }

    /// Sets a software breakpoint where it may stand.
    fn insert(&mut self, address: u16) -> Result<(), Refused>
        requires { may_plant (chip_of self.old.part) self.old.prog address ≡ true }
        ensures rest { self.new ≡ record self.old { soft = self.new.soft } }
        ensures answer { MatchResult result (λ _. refusal self.old address ≡ None) (λ refused. refusal self.old address ≡ Some refused) }
        ensures set { OnOk result (self.new ≡ record self.old { soft = inserted address self.old.soft }) }
        ensures already { OnOk result (has_by self.old.soft address ≡ true → self.new ≡ self.old) }
        ensures refused { OnErr result (self.new ≡ self.old) }
    {
        if self.has(address) {
            return Ok(());
        }
        if self.soft.len() >= SOFT_LIMIT {
            return Err(Refused::Full);
        }
        let place = addresses::place_of(self.soft.as_slice(), address);
        self.soft.insert(place, address);
        Ok(())
    }

    /// Clears a software breakpoint.
    pub fn clear(&mut self, address: u32) -> Result<(), NotSet>
        ensures rest { self.new ≡ record self.old { soft = self.new.soft } }
        ensures answer { is_ok result ≡ has_by self.old.soft address }
        ensures cleared { OnOk result (self.new ≡ record self.old { soft = without_by address self.old.soft }) }
        ensures refused { OnErr result (self.new ≡ self.old) }
    {
        if !addresses::has(self.soft.as_slice(), address) {
            return Err(NotSet);
        }
        self.soft = addresses::without(self.soft.as_slice(), address);
        Ok(())
    }

    /// Clears every software breakpoint.
    pub fn forget(&mut self)
        ensures { self.new ≡ record self.old { soft = [] } }
    {
        self.soft.clear();
    }

    /// The wanted words of a page, with a BREAK at each software breakpoint and at an extra address.
    pub fn page(&self, page: u16, extra: Option<u16>) -> [u16; PAGE_WORDS]
        requires { page < (chip_of self.now.part).pages }
        ensures { result ≡ page_of (patch self.now.prog (planted None extra self.now.soft)) page }
    {
        let set = self.planted(None, extra);
        patched_page(&self.program, set.as_slice(), page)
    }

    /// The software breakpoints, and an extra address.
    fn targets(&self, extra: Option<u16>) -> ArrayVec<u16, MOST_PLANTED>
        ensures { result.items ≡ targets_by extra self.now.soft }
    {
        let mut set = ArrayVec::new();
        if let Some(address) = extra {
            set.push(address);
        }
        let _ = set.try_extend_from_slice(self.soft.as_slice());
        set
    }

    /// The addresses that are planted.
    fn planted(&self, leave_out: Option<u16>, extra: Option<u16>) -> ArrayVec<u16, MOST_PLANTED>
        ensures { result.items ≡ planted leave_out extra self.now.soft }
    {
        let targets = self.targets(extra);
        match leave_out {
            None => targets,
            Some(address) => addresses::without(targets.as_slice(), u32::from(address)),
        }
    }

    /// Makes a flash the program with a BREAK at each software breakpoint and at an extra address, but for one that is left out: it
    /// writes, in rising order, the pages that have other words, up to the first write that fails.
    pub fn sync<F: Flash>(
        &self,
        flash: &mut F,
        leave_out: Option<u16>,
        extra: Option<u16>,
    ) -> Result<(), FlashFault>
        requires part { F.part flash.old ≡ self.now.part }
        requires left_out { IfSome leave_out (λ address. address < words_of (chip_of self.now.part)) }
        requires extra { IfSome extra (λ address. may_plant (chip_of self.now.part) self.now.prog address ≡ true) }
        ensures asks { Asks (seen F.words F.journal F.faults F.writes)
            (synced (chip_of self.now.part) (patch self.now.prog (planted leave_out extra self.now.soft)))
            flash.old (is_ok result) flash.new }
        ensures words { OnOk result (F.words flash.new ≡ patch self.now.prog (planted leave_out extra self.now.soft)) }
        ensures part { F.part flash.new ≡ F.part flash.old }
        ensures cause { HasCause result (F.faults flash.old) (F.faults flash.new) }
        ensures still { OnOk result (F.faults flash.new ≡ F.faults flash.old) }
    {
        let set = self.planted(leave_out, extra);
        sync_pages(flash, self.part, &self.program, set.as_slice())
    }

    /// Makes a flash the program, as `sync` does with nothing planted.
    pub fn restore<F: Flash>(&self, flash: &mut F) -> Result<(), FlashFault>
        requires { F.part flash.old ≡ self.now.part }
        ensures asks { Asks (seen F.words F.journal F.faults F.writes)
            (synced (chip_of self.now.part) self.now.prog) flash.old (is_ok result) flash.new }
        ensures words { OnOk result (F.words flash.new ≡ self.now.prog) }
        ensures part { F.part flash.new ≡ F.part flash.old }
        ensures cause { HasCause result (F.faults flash.old) (F.faults flash.new) }
        ensures still { OnOk result (F.faults flash.new ≡ F.faults flash.old) }
    {
        sync_pages(flash, self.part, &self.program, &[])
    }

    /// Programs a page: the flash is given these words there, where it has others, and then the program. Where the write fails the
    /// program stays.
    pub fn program_page<F: Flash>(
        &mut self,
        flash: &mut F,
        page: u16,
        words: &[u16; PAGE_WORDS],
    ) -> Result<(), FlashFault>
        requires part { F.part flash.old ≡ self.old.part }
        requires empty { self.old.soft ≡ [] }
        requires within { page < (chip_of self.old.part).pages }
        ensures asks { (wanted : List ℕ) → page_of wanted page ≡ words.now →
            Programs (seen F.words F.journal F.faults F.writes)
            (programmed_from wanted page 1 self.old.prog) flash.old (is_ok result) self.new.prog flash.new }
        ensures rest { self.new ≡ record self.old { prog = self.new.prog } }
        ensures ok { OnOk result (self.new ≡ record self.old { prog = with_page self.old.prog page words.now }) }
        ensures device { OnOk result (page_of (F.words flash.new) page ≡ words.now) }
        ensures err { OnErr result (self.new ≡ self.old) }
        ensures part { F.part flash.new ≡ F.part flash.old }
        ensures cause { HasCause result (F.faults flash.old) (F.faults flash.new) }
        ensures still { OnOk result (F.faults flash.new ≡ F.faults flash.old) }
    {
        match sync_page(flash, page, words) {
            Ok(()) => {
                self.set_page(page, words);
                Ok(())
            }
            Err(fault) => Err(fault),
        }
    }

    /// Gives a page of the program these words.
    fn set_page(&mut self, page: u16, words: &[u16; PAGE_WORDS])
        requires { page < (chip_of self.old.part).pages }
        ensures { self.new ≡ record self.old { prog = with_page self.old.prog page words.now } }
    {
        let start = PAGE_WORDS * usize::from(page);
        self.program[start..start + PAGE_WORDS].copy_from_slice(words);
    }
}
