//! A job: the run of a target, with its device.
ghost use Rattle.std.specs.Prelude.{◌≡◌, ◌≢◌, ◌≤◌, ◌<◌, None, Some, false, true, not, is_some, IfSome};
ghost use Rattle.part_spec.specs.Chip.{chip_of};
ghost use Rattle.avr_core.specs.Stands.{Moves, Shows};
ghost use Rattle.ice_base.specs.Counts.{Rose};
ghost use Rattle.avr_spec.specs.Step as book;
ghost use Rattle.flash_patch.specs.Asking.{seen};
ghost use Rattle.run_control.specs.Looking.{Looked};
ghost use Rattle.debug_spec.specs.Run.{is_undefined};
ghost use Rattle.run_control.specs.Runs.{AdvancesJob, MayAdvance, IsReplanted, IsBegun, single_halt};

use crate::boundary::run_on;
use crate::comparators::COMPARATORS;
use crate::look::StopLook;
use avr_core::{Ahead, Core};
use flash_patch::sync_page;
use ice_base::Flash;
use part_spec::PAGE_WORDS;

/// A run of a target, from where it stands.
#[derive(Drop)]
pub struct Job<F: Flash> {
    /// The target's core.
    pub core: Core,
    /// The device: the words that the target runs.
    pub flash: F,
    /// Word addresses at which the target stops.
    pub comparators: [Option<u16>; COMPARATORS],
    /// A page, and the words that it is to have behind the first step: the breakpoint at the start is planted again.
    pub replant: Option<(u16, [u16; PAGE_WORDS])>,
    /// No step was made yet. The first one is not tested for a stop, and runs a BREAK as a NOP.
    pub fresh: bool,
}

/// Why a run halted.
#[derive(Clone, Copy, Debug, PartialEq, Eq)]
pub enum Halt {
    /// A comparator holds the address of the next instruction.
    Comparator,
    /// A BREAK stands there.
    Word,
    /// A word that does not run stands there.
    Undefined,
    /// It was asked to stop.
    Forced,
    /// It was a single step.
    Single,
    /// The page behind its first step could not be written.
    FlashFault,
}

/// What an advance came to.
#[derive(Clone, Copy, Debug, PartialEq, Eq)]
pub enum Turn {
    /// The run has ended.
    Halted(Halt),
    /// All its steps were made, and nothing ended the run.
    NotYet,
}

impl<F: Flash> Job<F> {
    /// Makes at most `budget` steps, up to a boundary that ends the run. The first step of a fresh job is not tested for a stop and
    /// runs a BREAK as a NOP; behind it `replant` is written. At each boundary there is one look, and where an interrupt is ahead
    /// nothing else stops the run.
    pub fn advance<L: StopLook>(&mut self, budget: u32, look: &mut L) -> Turn
        requires some { 1 ≤ budget }
        requires ready { MayAdvance (seen F.words F.journal F.faults F.writes) F.part self.old }
        ensures advances { AdvancesJob (seen F.words F.journal F.faults F.writes) self.old budget result self.new
            (record { looks = L.looks look.old; yes = L.yes look.old; last = L.last look.old; mark = L.mark look.old })
            (record { looks = L.looks look.new; yes = L.yes look.new; last = L.last look.new; mark = L.mark look.new }) }
        ensures halts { result ≢ Turn.Halted Halt.Single }
        ensures ready { result ≡ Turn.NotYet → MayAdvance (seen F.words F.journal F.faults F.writes) F.part self.new }
        ensures part { F.part self.new.flash ≡ F.part self.old.flash }
        ensures counts { F.faults self.old.flash ≤ F.faults self.new.flash }
        ensures cause { result ≡ Turn.Halted Halt.FlashFault → Rose (F.faults self.old.flash) (F.faults self.new.flash) }
    {
        match self.begin() {
            Some(halt) => Turn::Halted(halt),
            None => run_on(&mut self.core, &self.flash, &self.comparators, budget, look),
        }
    }

    /// Makes one step, an own BREAK as a NOP: `Single`. `Undefined`, with nothing changed, exactly where no step is ahead.
    pub fn single(&mut self) -> Halt
        requires replant { self.old.replant ≡ None }
        requires part { chip_of (F.part self.old.flash) ≡ self.old.core.part }
        ensures answer { Shows self.old.core result (λ part p.
            single_halt (is_undefined (book.ahead part p (F.words self.old.flash)))) }
        ensures moves { result ≡ Halt.Single → Moves self.old.core self.new.core (λ part p. book.go_on part p (F.words self.old.flash)) }
        ensures rest { self.new ≡ record self.old { core = self.new.core } }
        ensures part { self.new.core.part ≡ self.old.core.part }
        ensures stays { result ≡ Halt.Undefined → self.new ≡ self.old }
    {
        if go(&mut self.core, &self.flash) {
            Halt::Single
        } else {
            Halt::Undefined
        }
    }

    /// Makes the first step of an advance, with what comes behind it. Answers the end of a run that comes to no boundary.
    fn begin(&mut self) -> Option<Halt>
        requires { MayAdvance (seen F.words F.journal F.faults F.writes) F.part self.old }
        ensures begun { IsBegun (seen F.words F.journal F.faults F.writes) self.old result self.new }
        ensures comparators { self.new.comparators ≡ self.old.comparators }
        ensures core { self.new.core.part ≡ self.old.core.part }
        ensures part { F.part self.new.flash ≡ F.part self.old.flash }
        ensures counts { F.faults self.old.flash ≤ F.faults self.new.flash }
        ensures cause { result ≡ Some Halt.FlashFault → Rose (F.faults self.old.flash) (F.faults self.new.flash) }
    {
        if !self.fresh {
            run_step(&mut self.core, &self.flash);
            return None;
        }
        if !go(&mut self.core, &self.flash) {
            return Some(Halt::Undefined);
        }
        self.fresh = false;
        if self.plant() {
            None
        } else {
            Some(Halt::FlashFault)
        }
    }

    /// Writes the page that is to be written behind the first step. Answers whether it has its words.
    fn plant(&mut self) -> bool
        requires { IfSome self.old.replant (λ asked. asked.0 < (chip_of (F.part self.old.flash)).pages) }
        ensures planted { IsReplanted (seen F.words F.journal F.faults F.writes) self.old.replant self.old.flash result self.new.flash }
        ensures asked { result ≡ false → is_some self.old.replant ≡ true }
        ensures rest { self.new ≡ record self.old { flash = self.new.flash; replant = None } }
        ensures part { F.part self.new.flash ≡ F.part self.old.flash }
        ensures counts { F.faults self.old.flash ≤ F.faults self.new.flash }
        ensures cause { result ≡ false → Rose (F.faults self.old.flash) (F.faults self.new.flash) }
    {
        match self.replant {
            None => true,
            Some(asked) => {
                self.replant = None;
                sync_page(&mut self.flash, asked.0, &asked.1).is_ok()
            }
        }
    }
}

/// Makes one step, a BREAK as a NOP. Where no step is ahead it answers false, and nothing changed.
fn go<F: Flash>(core: &mut Core, flash: &F) -> bool
    requires { chip_of (F.part flash.now) ≡ core.old.part }
    ensures ahead { Shows core.old result (λ part p. not (is_undefined (book.ahead part p (F.words flash.now)))) }
    ensures moves { result ≡ true → Moves core.old core.new (λ part p. book.go_on part p (F.words flash.now)) }
    ensures stays { result ≡ false → core.new ≡ core.old }
    ensures part { core.new.part ≡ core.old.part }
{
    match core.ahead(flash) {
        Ahead::Undefined => return false,
        Ahead::Break => core.skip_break(flash),
        Ahead::Interrupt => run_step(core, flash),
        Ahead::Ready => run_step(core, flash),
    }
    true
}

/// Makes one step, away from the loop of a run.
#[inline(never)]
pub(crate) fn run_step<F: Flash>(core: &mut Core, flash: &F)
    requires { chip_of (F.part flash.now) ≡ core.old.part }
    ensures moves { Moves core.old core.new (λ part p. book.step part p (F.words flash.now)) }
    ensures part { core.new.part ≡ core.old.part }
{
    let _ = core.step(flash);
}
