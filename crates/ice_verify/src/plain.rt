//! The debugger that plants nothing, with its target.
ghost use Rattle.std.specs.Prelude.{◌≡◌, ◌⊎◌, ℕ, List, [], None, true, false};
ghost use Rattle.debug_spec.specs.Debugger.{closed, is_out as is_out_in, stopped};
ghost use Rattle.debug_spec.specs.Running.{left};
ghost use Rattle.debug_spec.specs.Take.{goes_on};
ghost use Rattle.ice_answer.specs.Values.{why_of};
ghost use Rattle.ice_answer.specs.Kept.{prepared_number};
ghost use Rattle.ice_verify.specs.Well.{DoesWell};
ghost use Rattle.ice_verify.specs.Standing.{at_of};
ghost use Rattle.ice_verify.specs.Going.{EndsRun};
ghost use Rattle.debug_spec.specs.SessionLaws.{is_closed as is_closed_in};

use crate::words::Words;
use avr_core::Core;
use ice_answer::{COMPARATORS, Cause, Mode, Out, Tool, tell};

/// The debugger that plants nothing: what it keeps, and its target.
#[derive(Drop)]
pub(crate) struct Plain {
    /// What it keeps beside its target.
    pub(crate) tool: Tool,
    /// The target.
    pub(crate) core: Core,
    /// The words that the target runs: the program's.
    pub(crate) words: Words,
    /// Word addresses at which the target stops.
    pub(crate) comparators: [Option<u16>; COMPARATORS],
}

impl Plain {
    /// A run is out.
    pub(crate) fn is_out(&self) -> bool
        ensures { result ≡ is_out_in self.now.tool.mode }
    {
        match self.tool.mode() {
            Mode::Stopped => false,
            Mode::Launching(_) => false,
            Mode::Running => true,
            Mode::Programming => false,
            Mode::Leaving => true,
            Mode::Closed(_) => false,
        }
    }

    /// The session is closed.
    pub(crate) fn is_closed(&self) -> bool
        ensures { result ≡ is_closed_in self.now.tool.mode }
    {
        match self.tool.mode() {
            Mode::Stopped => false,
            Mode::Launching(_) => false,
            Mode::Running => false,
            Mode::Programming => false,
            Mode::Leaving => false,
            Mode::Closed(_) => true,
        }
    }

    /// The session ends: at once, or with the run that is out, which is asked to stop.
    pub(crate) fn leave(&mut self)
        requires calm { prepared_number self.old.tool.mode ≡ None }
        requires open { is_closed_in self.old.tool.mode ≡ false }
        ensures does { (sent : List ℕ) → DoesWell (λ part. left part) (at_of self.old sent) (at_of self.new sent) }
        ensures rest { self.new ≡ record self.old { tool = self.new.tool } }
        ensures plan { self.new.tool.plan ≡ self.old.tool.plan }
        ensures away { goes_on self.new.tool.mode ≡ false }
    {
        match self.tool.mode() {
            Mode::Stopped => self.close(),
            Mode::Launching(_) => {}
            Mode::Running => self.tool.leave(),
            Mode::Programming => self.close(),
            Mode::Leaving => {}
            Mode::Closed(_) => {}
        }
    }

    /// The run that is out ends where the target stands: it is told, or the session is closed.
    pub(crate) fn end_run(&mut self, out: &mut Out, cause: Cause)
        requires empty { out.old.items ≡ [] }
        ensures ends { EndsRun self.old out.old.items (why_of cause) self.new out.new.items }
        ensures rest { self.new ≡ record self.old { tool = self.new.tool } }
        ensures plan { self.new.tool.plan ≡ self.old.tool.plan }
        ensures calm { prepared_number self.new.tool.mode ≡ None }
        ensures idle { (self.new.tool.mode ≡ stopped) ⊎ (self.new.tool.mode ≡ closed true) }
    {
        if self.tool.listens() {
            tell(out, self.core.pc(), cause);
            return self.tool.stay();
        }
        self.close()
    }

    /// Closes the session: there is nothing to restore.
    pub(crate) fn close(&mut self)
        ensures { self.new ≡ record self.old { tool = record self.old.tool { mode = closed true } } }
    {
        self.tool.close(true)
    }
}
