//! Runs of the target, and single steps, under the program's own words.
ghost use Rattle.std.specs.Prelude.{◌≡◌, ◌≢◌, ◌<◌, ℕ, [], ◌∷◌, ◌||◌, true, false, not, Decides, IfSome, None, Some, if◌then◌else◌};
ghost use Rattle.part_spec.specs.Chip.{Chip, chip_of};
ghost use Rattle.avr_spec.specs.Machine.{Machine};
ghost use Rattle.avr_spec.specs.Kept.{kept};
ghost use Rattle.avr_spec.specs.Step as book;
ghost use Rattle.avr_core.specs.Stands.{Moves, Shows};
ghost use Rattle.debug_spec.specs.Patch.{has};
ghost use Rattle.debug_spec.specs.Stop.{breakpoint, compared as compared_by, forced, undefined};
ghost use Rattle.debug_spec.specs.Run.{is_undefined};
ghost use Rattle.debug_spec.specs.Debugger.{targets_by};
ghost use Rattle.debug_spec.specs.Running.{single_stepped};
ghost use Rattle.ice_answer.specs.Values.{why_of, whys_of};
ghost use Rattle.ice_verify.specs.Well.{DoesWell};
ghost use Rattle.ice_verify.specs.Standing.{IsReady, at_of};
ghost use Rattle.ice_verify.specs.Going.{ComesTo, DoesNotComeTo, MayStop, RunsOn, SteppedBy, Stops, stop_in};

use crate::plain::Plain;
use avr_core::{Ahead, Stepped};
use ice_answer::{COMPARATORS, Cause, Out, okay, tell};

impl Plain {
    /// Makes a single step for the frame with this number, and tells it; a word that does not run stays.
    pub(crate) fn single_step(&mut self, out: &mut Out, number: u16)
        requires ready { IsReady self.old }
        requires empty { out.old.items ≡ [] }
        ensures does { DoesWell (λ part. single_stepped false part number) (at_of self.old out.old.items) (at_of self.new out.new.items) }
        ensures rest { self.new ≡ record self.old { core = self.new.core } }
        ensures part { self.new.core.part ≡ self.old.core.part }
    {
        okay(out, number);
        let cause = self.single();
        tell(out, self.core.pc(), cause)
    }

    /// Makes a single step, and gives the cause that it is told with.
    fn single(&mut self) -> Cause
        requires { chip_of self.old.words.part ≡ self.old.core.part }
        ensures steps { (part : Chip) (p : Machine) → self.old.core ≡ kept part p →
            SteppedBy (is_undefined (book.ahead part p self.old.words.words)) part p self.old.words.words (why_of result) self.new.core }
        ensures rest { self.new ≡ record self.old { core = self.new.core } }
        ensures part { self.new.core.part ≡ self.old.core.part }
    {
        if self.go() {
            return Cause::SingleStep;
        }
        Cause::Undefined
    }

    /// Whether the run that is out may end so. The target is then where that end is.
    pub(crate) fn runs_to(&mut self, steps: u32, cause: Cause) -> bool
        requires ready { IsReady self.old }
        ensures comes { result ≡ true → ComesTo self.old (record { steps = steps; cause = why_of cause }) self.new }
        ensures not { result ≡ false → DoesNotComeTo self.old (record { steps = steps; cause = why_of cause }) }
        ensures rest { self.new ≡ record self.old { core = self.new.core } }
        ensures part { self.new.core.part ≡ self.old.core.part }
    {
        if steps == 0 {
            return self.ends_at_once(cause);
        }
        if !self.go() {
            return false;
        }
        if !self.runs_on(steps - 1) {
            return false;
        }
        self.may_stop(cause)
    }

    /// The run that is out may end before its first step, for this cause.
    fn ends_at_once(&self, cause: Cause) -> bool
        requires { chip_of self.now.words.part ≡ self.now.core.part }
        ensures { (part : Chip) (p : Machine) → self.now.core ≡ kept part p →
            Decides result ((is_undefined (book.ahead part p self.now.words.words) ≡ true) × (why_of cause ≡ undefined)) }
    {
        if !self.is_undefined_ahead() {
            return false;
        }
        is_same(cause, Cause::Undefined)
    }

    /// What is ahead does not run.
    fn is_undefined_ahead(&self) -> bool
        requires { chip_of self.now.words.part ≡ self.now.core.part }
        ensures { Shows self.now.core result (λ part p. is_undefined (book.ahead part p self.now.words.words)) }
    {
        match self.core.ahead(&self.words) {
            Ahead::Undefined => true,
            Ahead::Interrupt => false,
            Ahead::Ready => false,
            Ahead::Break => false,
        }
    }

    /// Makes one step, a BREAK as a NOP. Where what is ahead does not run it answers false, and nothing changed.
    fn go(&mut self) -> bool
        requires { chip_of self.old.words.part ≡ self.old.core.part }
        ensures ahead { Shows self.old.core result (λ part p. not (is_undefined (book.ahead part p self.old.words.words))) }
        ensures moves { result ≡ true → Moves self.old.core self.new.core (λ part p. book.go_on part p self.old.words.words) }
        ensures stays { result ≡ false → self.new ≡ self.old }
        ensures rest { self.new ≡ record self.old { core = self.new.core } }
        ensures part { self.new.core.part ≡ self.old.core.part }
    {
        match self.core.ahead(&self.words) {
            Ahead::Undefined => return false,
            Ahead::Break => self.core.skip_break(&self.words),
            Ahead::Interrupt => self.step(),
            Ahead::Ready => self.step(),
        }
        true
    }

    /// Makes one step.
    fn step(&mut self)
        requires { chip_of self.old.words.part ≡ self.old.core.part }
        ensures moves { Moves self.old.core self.new.core (λ part p. book.step part p self.old.words.words) }
        ensures rest { self.new ≡ record self.old { core = self.new.core } }
        ensures part { self.new.core.part ≡ self.old.core.part }
    {
        let _ = self.core.step(&self.words);
    }

    /// Makes so many steps, if nothing stops the target ahead of any of them.
    fn runs_on(&mut self, steps: u32) -> bool
        requires { chip_of self.old.words.part ≡ self.old.core.part }
        ensures goes { result ≡ true → RunsOn self.old steps self.new }
        ensures stops { result ≡ false → Stops self.old steps }
        ensures rest { self.new ≡ record self.old { core = self.new.core } }
        ensures part { self.new.core.part ≡ self.old.core.part }
    {
        for _ in 0..steps {
            if !self.passes() {
                return false;
            }
        }
        true
    }

    /// Makes a step, if nothing stops the target here.
    fn passes(&mut self) -> bool
        requires { chip_of self.old.words.part ≡ self.old.core.part }
        ensures goes { result ≡ true → Moves self.old.core self.new.core (λ part p. book.step part p self.old.words.words) }
        ensures passes { (part : Chip) (p : Machine) → self.old.core ≡ kept part p → Decides result (stop_in part p self.old ≡ None) }
        ensures rest { self.new ≡ record self.old { core = self.new.core } }
        ensures part { self.new.core.part ≡ self.old.core.part }
    {
        if self.stops_at(self.core.pc()) {
            return self.passes_by_interrupt();
        }
        match self.core.step(&self.words) {
            Stepped::Ran => true,
            Stepped::AtBreak => false,
            Stepped::AtUndefined => false,
        }
    }

    /// Makes a step at an address that stops the target, if an interrupt is due there.
    fn passes_by_interrupt(&mut self) -> bool
        requires part { chip_of self.old.words.part ≡ self.old.core.part }
        requires stops { (has (targets_by self.old.tool.run_to self.old.tool.plan.soft) self.old.core.pc || compared_by self.old.comparators self.old.core.pc) ≡ true }
        ensures goes { result ≡ true → Moves self.old.core self.new.core (λ part p. book.step part p self.old.words.words) }
        ensures passes { (part : Chip) (p : Machine) → self.old.core ≡ kept part p → Decides result (stop_in part p self.old ≡ None) }
        ensures rest { self.new ≡ record self.old { core = self.new.core } }
        ensures part { self.new.core.part ≡ self.old.core.part }
    {
        match self.core.ahead(&self.words) {
            Ahead::Interrupt => {
                self.step();
                true
            }
            Ahead::Ready => false,
            Ahead::Break => false,
            Ahead::Undefined => false,
        }
    }

    /// The target stops at an address: it is a breakpoint's, a comparator holds it, or the run goes there.
    fn stops_at(&self, address: u16) -> bool
        ensures { result ≡ (has (targets_by self.now.tool.run_to self.now.tool.plan.soft) address || compared_by self.now.comparators address) }
    {
        self.tool.is_target(address) || compared(&self.comparators, address)
    }

    /// The run may end here for this cause: it is what stops the target, or nothing does and a stop was asked for.
    fn may_stop(&self, cause: Cause) -> bool
        requires { chip_of self.now.words.part ≡ self.now.core.part }
        ensures { (part : Chip) (p : Machine) → self.now.core ≡ kept part p → Decides result (MayStop part p self.now (why_of cause)) }
    {
        match self.stop() {
            Some(stop) => is_same(cause, stop),
            None => is_same(cause, Cause::Forced) && self.tool.stop_asked,
        }
    }

    /// What stops the target where it stands.
    fn stop(&self) -> Option<Cause>
        requires { chip_of self.now.words.part ≡ self.now.core.part }
        ensures stop { Shows self.now.core (whys_of result) (λ part p. stop_in part p self.now) }
        ensures forced { IfSome result (λ cause. why_of cause ≢ forced) }
    {
        match self.core.ahead(&self.words) {
            Ahead::Interrupt => None,
            Ahead::Ready => self.stop_by(None),
            Ahead::Break => self.stop_by(Some(Cause::OwnBreak)),
            Ahead::Undefined => self.stop_by(Some(Cause::Undefined)),
        }
    }

    /// The same, told what the word there stops it for.
    fn stop_by(&self, word: Option<Cause>) -> Option<Cause>
        requires { IfSome word (λ cause. why_of cause ≢ forced) }
        ensures stop { whys_of result ≡ (if has (targets_by self.now.tool.run_to self.now.tool.plan.soft) self.now.core.pc || compared_by self.now.comparators self.now.core.pc then Some breakpoint else whys_of word) }
        ensures forced { IfSome result (λ cause. why_of cause ≢ forced) }
    {
        if self.stops_at(self.core.pc()) {
            return Some(Cause::Breakpoint);
        }
        word
    }
}

/// Two causes are one.
fn is_same(cause: Cause, other: Cause) -> bool
    ensures { Decides result (why_of cause ≡ why_of other) }
{
    cause.code() == other.code()
}

/// One of the comparators holds this address.
fn compared(comparators: &[Option<u16>; COMPARATORS], address: u16) -> bool
    ensures { result ≡ compared_by comparators.now address }
{
    let [first, second, third, fourth] = comparators;
    holds(first, address)
        || holds(second, address)
        || holds(third, address)
        || holds(fourth, address)
}

/// A comparator holds this address.
fn holds(comparator: &Option<u16>, address: u16) -> bool
    ensures { result ≡ compared_by (comparator.now ∷ []) address }
{
    match comparator {
        None => false,
        Some(other) => address == *other,
    }
}
