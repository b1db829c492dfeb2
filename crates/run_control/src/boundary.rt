//! The boundaries of a run behind its first step, up to one that ends it.
ghost use Rattle.std.specs.Prelude.{◌≡◌, ◌≢◌, ◌<◌, ℕ, List, [], false, true, Option, Some, if◌then◌else◌, IfNone, IfSome};
ghost use Rattle.part_spec.specs.Chip.{Chip, chip_of};
ghost use Rattle.avr_spec.specs.Machine.{Machine};
ghost use Rattle.avr_spec.specs.Kept.{kept};
ghost use Rattle.avr_spec.specs.Step as book;
ghost use Rattle.avr_core.specs.Stands.{Shows};
ghost use Rattle.debug_spec.specs.Stop.{breakpoint, compared as compared_by, stop as stop_by};
ghost use Rattle.run_control.specs.Runs.{cause_of_stop, HaltsAtBoundary, IsAtBoundary, IsStep, RunsThrough, Turns};

use crate::comparators::{COMPARATORS, compared, untested};
use crate::job::{Halt, Turn, run_step};
use crate::look::StopLook;
use avr_core::{Ahead, Core, Stepped};
use ice_base::Flash;

/// Goes on with a run that stands behind its first step, up to a boundary that ends it, or through `budget` steps in all.
pub(crate) fn run_on<F: Flash, L: StopLook>(
    core: &mut Core,
    flash: &F,
    comparators: &[Option<u16>; COMPARATORS],
    budget: u32,
    look: &mut L,
) -> Turn
    requires some { 0 < budget }
    requires part { chip_of (F.part flash.now) ≡ core.old.part }
    ensures runs { RunsThrough (F.words flash.now) comparators.now budget core.old result core.new
        (record { looks = L.looks look.old; yes = L.yes look.old; last = L.last look.old; mark = L.mark look.old })
        (record { looks = L.looks look.new; yes = L.yes look.new; last = L.last look.new; mark = L.mark look.new }) }
    ensures ahead { result ≡ Turn.NotYet → (part : Chip) (p : Machine) → core.new ≡ kept part p →
        IsStep (book.ahead part p (F.words flash.now)) }
    ensures halts { HaltsAtBoundary result }
    ensures part { core.new.part ≡ core.old.part }
{
    // The boundaries that need no test are counted apart from those that do: one count tells where they end. At one that needs none the
    // next step's own answer is enough, which tells a BREAK and a word that does not run.
    let mut free = untested(comparators, budget);
    let mut tested = budget - free;
    'boundaries: loop {
        let told = look.look();
        if told || free == 0 {
            match turn_here(core, flash, comparators, told, free + tested - 1) {
                Some(turn) => return turn,
                None => {}
            }
            tested -= 1;
        } else {
            match step_on(core, flash) {
                Some(turn) => return turn,
                None => {}
            }
            free -= 1;
        }
    }
}

/// What a boundary makes of a run, by what is ahead: it ends, or a step is made.
#[cold]
#[inline(never)]
fn turn_here<F: Flash>(
    core: &mut Core,
    flash: &F,
    comparators: &[Option<u16>; COMPARATORS],
    told: bool,
    left: u32,
) -> Option<Turn>
    requires { chip_of (F.part flash.now) ≡ core.old.part }
    ensures turns { (part : Chip) (p : Machine) → core.old ≡ kept part p →
        Turns part p (F.words flash.now) comparators.now told left result core.new }
    ensures goes { IfNone result ((told ≡ false) × (0 < left)) }
    ensures spent { result ≡ Some Turn.NotYet → (told ≡ false) × (left ≡ 0) }
    ensures ahead { result ≡ Some Turn.NotYet → (part : Chip) (p : Machine) → core.new ≡ kept part p →
        IsStep (book.ahead part p (F.words flash.now)) }
    ensures halts { IfSome result HaltsAtBoundary }
    ensures forced { result ≡ Some (Turn.Halted Halt.Forced) → told ≡ true }
    ensures part { core.new.part ≡ core.old.part }
{
    match stop(core, flash, comparators) {
        Some(halt) => return Some(Turn::Halted(halt)),
        None => {}
    }
    if told {
        return Some(Turn::Halted(Halt::Forced));
    }
    if left == 0 {
        return Some(Turn::NotYet);
    }
    run_step(core, flash);
    None
}

/// What stops a run where it stands.
fn stop<F: Flash>(core: &Core, flash: &F, comparators: &[Option<u16>; COMPARATORS]) -> Option<Halt>
    requires { chip_of (F.part flash.now) ≡ core.now.part }
    ensures stop { Shows core.now (cause_of_stop result) (λ part p. stop_by part p (F.words flash.now) [] comparators.now) }
    ensures halts { IfSome result IsAtBoundary }
    ensures forced { result ≢ Some Halt.Forced }
{
    match core.ahead(flash) {
        Ahead::Interrupt => None,
        Ahead::Ready => stop_at(core.pc(), comparators, None),
        Ahead::Break => stop_at(core.pc(), comparators, Some(Halt::Word)),
        Ahead::Undefined => stop_at(core.pc(), comparators, Some(Halt::Undefined)),
    }
}

/// What stops a run at an address, told what stops it there by its word.
fn stop_at(pc: u16, comparators: &[Option<u16>; COMPARATORS], word: Option<Halt>) -> Option<Halt>
    requires halts { IfSome word IsAtBoundary }
    requires forced { word ≢ Some Halt.Forced }
    ensures stop { cause_of_stop result ≡ (if compared_by comparators.now pc then Some breakpoint else cause_of_stop word) }
    ensures halts { IfSome result IsAtBoundary }
    ensures forced { result ≢ Some Halt.Forced }
{
    if compared(comparators, pc) {
        return Some(Halt::Comparator);
    }
    word
}

/// What a boundary makes of a run that no comparator stops there, that is not asked to stop and has steps left.
fn step_on<F: Flash>(core: &mut Core, flash: &F) -> Option<Turn>
    requires { chip_of (F.part flash.now) ≡ core.old.part }
    ensures turns { (part : Chip) (p : Machine) (comparators : List (Option ℕ)) (left : ℕ) → core.old ≡ kept part p →
        compared_by comparators p.pc ≡ false → 0 < left → Turns part p (F.words flash.now) comparators false left result core.new }
    ensures spent { result ≢ Some Turn.NotYet }
    ensures halts { IfSome result HaltsAtBoundary }
    ensures forced { result ≢ Some (Turn.Halted Halt.Forced) }
    ensures part { core.new.part ≡ core.old.part }
{
    match core.step(flash) {
        Stepped::Ran => None,
        Stepped::AtBreak => Some(Turn::Halted(Halt::Word)),
        Stepped::AtUndefined => Some(Turn::Halted(Halt::Undefined)),
    }
}
