//! What the debugger keeps beside its target.
ghost use Rattle.std.specs.Prelude.{◌≡◌, ◌+◌, ◌%◌, ◌^◌, ℕ, false, true, List, [], Option, None, length};
ghost use Rattle.part_spec.specs.Chip.{chip_of, words_of};
ghost use Rattle.line_spec.specs.Parameters.{parameters_at_start};
ghost use Rattle.debug_spec.specs.Debugger.{listens as listens_in, running, stopped};
ghost use Rattle.line_spec.specs.Messages.{leave_programming};
ghost use Rattle.debug_spec.specs.Patch.{has, plantable as may_plant};
ghost use Rattle.ice_answer.specs.Values.{mode_of};
ghost use Rattle.debug_spec.specs.Debugger.{closed, launching, leaving, programming, targets_by};
ghost use Rattle.debug_spec.specs.Commands.{carried_out};
ghost use Rattle.ice_answer.specs.Kept.{dropping_held, prepared_number};
ghost use Rattle.ice_answer.specs.Does.{Does, at};
ghost use Rattle.debug_spec.specs.Take.{goes_on as goes_on_in};

use crate::mode::Mode;
use crate::reply::{Out, okay};
use avr_core::Core;
use flash_patch::Plan;
use ice_params::Params;
use part_spec::Part;
use std::marker::Model;

/// What the debugger keeps beside its target.
#[derive(Drop)]
pub struct Tool {
    /// What it does.
    pub mode: Mode,
    /// The program and the software breakpoints.
    pub plan: Plan,
    /// The address to which a run goes.
    pub run_to: Option<u16>,
    /// The parameters.
    pub params: Params,
    /// How many bytes were dropped, modulo 2^64.
    pub dropped: u64,
    /// Whether a stop was asked for since the launch.
    pub stop_asked: bool,
}

impl Model for Tool {
    ghost use Rattle.ice_answer.specs.Kept.{ToolState};

    ghost Value = { ToolState };

    ghost use Rattle.ice_answer.specs.Tools.{tool_of};

    ghost view = { tool_of };
}

impl Tool {
    /// The tool at the start of a session, with a plan.
    pub fn of(plan: Plan) -> Tool
        ensures { result ≡ record {
          mode = stopped;
          plan = plan;
          run_to = None;
          parameters = parameters_at_start;
          dropped = 0;
          stop_asked = false;
        } }
    {
        Tool {
            mode: Mode::Stopped,
            plan,
            run_to: None,
            params: Params::new(),
            dropped: 0,
            stop_asked: false,
        }
    }

    /// Whose program it is, which has as many words as that part.
    pub fn part(&self) -> Part
        ensures part { result ≡ self.now.plan.part }
        ensures size { length self.now.plan.prog ≡ words_of (chip_of self.now.plan.part) }
    {
        // That the program has so many words is told by this call.
        let _first = self.plan.program_word(0);
        self.plan.part()
    }

    /// A BREAK may be planted at an address.
    pub fn plantable(&self, address: u32) -> bool
        ensures { result ≡ may_plant (chip_of self.now.plan.part) self.now.plan.prog address }
    {
        self.plan.plantable(address)
    }

    /// What it does.
    pub fn mode(&self) -> Mode
        ensures { mode_of result ≡ self.now.mode }
    {
        self.mode
    }

    /// The debugger takes requests.
    pub fn listens(&self) -> bool
        ensures { result ≡ listens_in self.now.mode }
    {
        match self.mode {
            Mode::Stopped => true,
            Mode::Launching(_) => false,
            Mode::Running => true,
            Mode::Programming => true,
            Mode::Leaving => false,
            Mode::Closed(_) => false,
        }
    }

    /// The session goes on: it takes requests, or will once a launch is answered.
    pub fn goes_on(&self) -> bool
        ensures { result ≡ goes_on_in self.now.mode }
    {
        match self.mode {
            Mode::Stopped => true,
            Mode::Launching(_) => true,
            Mode::Running => true,
            Mode::Programming => true,
            Mode::Leaving => false,
            Mode::Closed(_) => false,
        }
    }

    /// The number of the frame whose run is prepared.
    pub fn prepared(&self) -> Option<u16>
        ensures { result ≡ prepared_number self.now.mode }
    {
        match self.mode {
            Mode::Stopped => None,
            Mode::Launching(number) => Some(number),
            Mode::Running => None,
            Mode::Programming => None,
            Mode::Leaving => None,
            Mode::Closed(_) => None,
        }
    }

    /// A run is out.
    pub fn run(&mut self)
        ensures { self.new ≡ record self.old { mode = running } }
    {
        self.mode = Mode::Running;
    }

    /// Counts so many bytes as dropped.
    pub fn drop_bytes(&mut self, count: u64)
        ensures { self.new ≡ record self.old { dropped = (self.old.dropped + count) % 2 ^ 64 } }
    {
        self.dropped = self.dropped.wrapping_add(count);
    }

    /// A run that is prepared or out stops at an address: at a software breakpoint, or as it goes there.
    pub fn is_target(&self, address: u16) -> bool
        ensures { result ≡ has (targets_by self.now.run_to self.now.plan.soft) address }
    {
        self.plan.has(address) || self.run_to == Some(address)
    }

    /// The bytes that are held are dropped, where the debugger listens.
    pub fn drop_held(&mut self, held: usize)
        ensures { self.new ≡ dropping_held (listens_in self.old.mode) held self.old }
    {
        if self.listens() {
            self.drop_bytes(held as u64);
        }
    }

    /// A run is prepared for the frame with this number, to an address if there is one.
    pub fn prepare(&mut self, number: u16, run_to: Option<u16>)
        ensures { self.new ≡ record self.old { mode = launching number; run_to = run_to; stop_asked = false } }
    {
        self.mode = Mode::Launching(number);
        self.run_to = run_to;
        self.stop_asked = false;
    }

    /// The session is closed, and its restore was made or not.
    pub fn close(&mut self, restored: bool)
        ensures { self.new ≡ record self.old { mode = closed restored } }
    {
        self.mode = Mode::Closed(restored);
    }

    /// The session ends with the run that is out, which is asked to stop.
    pub fn leave(&mut self)
        ensures { self.new ≡ record self.old { mode = leaving; stop_asked = true } }
    {
        self.mode = Mode::Leaving;
        self.stop_asked = true;
    }

    /// Stays stopped, and the address to which a run goes is forgotten.
    pub fn stay(&mut self)
        ensures { self.new ≡ record self.old { mode = stopped; run_to = None } }
    {
        self.mode = Mode::Stopped;
        self.run_to = None;
    }

    /// From here on the flash is programmed, with no software breakpoint.
    pub fn open_flash(&mut self)
        ensures { self.new ≡ record self.old { mode = programming; plan = record self.old.plan { soft = [] } } }
    {
        self.mode = Mode::Programming;
        self.plan.forget();
    }

    /// Programs the flash no more; the target starts anew.
    pub fn leave_programming(&mut self, core: &mut Core, out: &mut Out, number: u16)
        requires empty { out.old.items ≡ [] }
        ensures does { (comparators : List (Option ℕ)) → Does (λ part. carried_out true part number leave_programming)
            (at self.old core.old comparators out.old.items) (at self.new core.new comparators out.new.items) }
        ensures mode { self.new.mode ≡ stopped }
        ensures plan { self.new.plan ≡ self.old.plan }
        ensures part { core.new.part ≡ core.old.part }
    {
        self.mode = Mode::Stopped;
        core.restart();
        okay(out, number)
    }
}
