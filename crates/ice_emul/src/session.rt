//! How a session begins, how a launch is answered, and what is left at its end.
ghost use Rattle.std.specs.Prelude.{◌≡◌, [], length, true, false, is_some, Some, IfOk, IfErr};
ghost use Rattle.part_spec.specs.Chip.{chip_of, words_of};
ghost use Rattle.avr_spec.specs.Machine.{machine_start};
ghost use Rattle.avr_spec.specs.Kept.{kept};
ghost use Rattle.debug_spec.specs.Debugger.{listens as listens_in, running, state_number as book_state_number};
ghost use Rattle.debug_spec.specs.Take.{goes_on};
ghost use Rattle.flash_patch.specs.Asking.{seen};
ghost use Rattle.run_control.specs.declared.job.Job.{Job as Run};
ghost use Rattle.ice_recv.specs.Receiving.{Tells};
ghost use Rattle.ice_emul.specs.Standing.{IsHeld, IsSoundEmulator};
ghost use Rattle.ice_emul.specs.Taking.{is_launching};
ghost use Rattle.ice_emul.specs.Session.{Begins, DoesNotLaunch, Launches};
ghost use Rattle.ice_emul.specs.Beginning.{FailsToBegin, Leaves};

use crate::emulator::Emulator;
use avr_core::Core;
use flash_patch::Plan;
use ice_answer::{COMPARATORS, Out, Tool, okay, refuse, state_number};
use ice_base::{Flash, Part};
use ice_msg::Refusal;
use ice_recv::Receiver;
use run_control::Job;
use std::alloc::{AllocError, Global};

/// Why a session does not begin; the flash is given back.
#[derive(Drop)]
pub enum BeginError<F: Flash> {
    /// There is no memory, and the flash is as it was.
    Memory(F),
    /// A page could not be written.
    Flash(F),
}

/// The totals of a session.
#[derive(Clone, Copy, Debug, PartialEq, Eq)]
pub struct Totals {
    /// The cycles of the target, modulo 2^64.
    pub cycles: u64,
    /// Its steps, modulo 2^64.
    pub steps: u64,
    /// Its output writes, modulo 2^64.
    pub writes: u64,
    /// The bytes dropped, modulo 2^64.
    pub dropped: u64,
}

/// What a session takes memory for.
#[derive(Drop)]
struct Opened {
    receiver: Receiver,
    core: Core,
    plan: Plan,
}

/// Takes all the memory of a session.
fn open(alloc: Global, program: &[u16], part: Part) -> Result<Opened, AllocError>
    requires { length program.now ≡ words_of (chip_of part) }
    ensures receiver { IfOk result (λ opened. opened.receiver ≡ record { held = []; dropped = 0 }) }
    ensures core { IfOk result (λ opened. opened.core ≡ kept (chip_of part) (machine_start (chip_of part))) }
    ensures plan { IfOk result (λ opened. opened.plan ≡ record { part = part; prog = program.now; soft = [] }) }
{
    Ok(Opened {
        receiver: Receiver::new(alloc)?,
        core: Core::of(alloc, part)?,
        plan: Plan::new(alloc, program)?,
    })
}

impl<F: Flash> Emulator<F> {
    /// Begins a session over a program of as many words as the flash has: all memory is taken first, and then the flash is made the
    /// program.
    pub fn begin(alloc: Global, program: &[u16], flash: F) -> Result<Emulator<F>, BeginError<F>>
        requires { length program.now ≡ words_of (chip_of (F.part flash)) }
        ensures begins { IfOk result (λ e. Begins (seen F.words F.journal F.faults F.writes) F.part program.now flash e) }
        ensures sound { IfOk result (λ e. IsSoundEmulator F.part e) }
        ensures fails { IfErr result (λ failed. FailsToBegin (seen F.words F.journal F.faults F.writes) F.part program.now flash failed) }
    {
        let part = flash.part();
        let Ok(opened) = open(alloc, program, part) else {
            return Err(BeginError::Memory(flash));
        };
        let Opened {
            receiver,
            core,
            plan,
        } = opened;
        let mut flash = flash;
        match plan.restore(&mut flash) {
            Ok(()) => {}
            Err(_) => return Err(BeginError::Flash(flash)),
        }
        Ok(Emulator {
            receiver,
            tool: Tool::of(plan),
            target: Some(Job {
                core,
                flash,
                comparators: [None; COMPARATORS],
                replant: None,
                fresh: true,
            }),
        })
    }

    /// The state of the target: 1 from the answer to a launch to the end of its run; 2 from the answer that enters programming mode to the
    /// one that leaves it, or to the end of the session; else 0 (AVR067, 'Parameters': MCU_STATE).
    pub fn state(&self) -> u8
        ensures { result ≡ book_state_number self.now.tool.mode }
    {
        state_number(self.tool.mode())
    }

    /// Whether a whole frame waits, while the session goes on.
    pub fn waits(&self) -> bool
        ensures goes { goes_on self.now.tool.mode ≡ true → Tells result self.now.receiver.held }
        ensures ended { goes_on self.now.tool.mode ≡ false → result ≡ false }
    {
        self.tool.goes_on() && self.receiver.waits()
    }

    /// Whether frames are heard: the session has not ended, and waits for no launch.
    pub fn listens(&self) -> bool
        ensures { result ≡ listens_in self.now.tool.mode }
    {
        self.tool.listens()
    }

    /// Answers the frame that prepared a run: its launch worked.
    pub fn launched(&mut self, out: &mut Out)
        requires sound { IsSoundEmulator F.part self.old }
        requires launching { is_launching self.old.tool.mode ≡ true }
        requires empty { out.old.items ≡ [] }
        ensures sound { IsSoundEmulator F.part self.new }
        ensures runs { self.new.tool ≡ record self.old.tool { mode = running } }
        ensures receiver { self.new.receiver ≡ self.old.receiver }
        ensures launches { (job : Run F) → IsHeld F.part self.old job →
            Launches (seen F.words F.journal F.faults F.writes) F.part self.old job out.new.items self.new }
    {
        if let Some(number) = self.tool.prepared() {
            okay(out, number);
            self.tool.run();
        }
    }

    /// Answers the frame that prepared a run: its launch did not work, and the job is the one that was to be launched.
    pub fn launch_failed(&mut self, job: Job<F>, out: &mut Out)
        requires sound { IsSoundEmulator F.part self.old }
        requires launching { is_launching self.old.tool.mode ≡ true }
        requires held { IsHeld F.part self.old job }
        requires empty { out.old.items ≡ [] }
        ensures sound { IsSoundEmulator F.part self.new }
        ensures receiver { self.new.receiver ≡ self.old.receiver }
        ensures fails { DoesNotLaunch (seen F.words F.journal F.faults F.writes) F.part self.old job out.new.items self.new }
    {
        let mut job = job;
        job.replant = None;
        if let Some(number) = self.tool.prepared() {
            refuse(out, number, Refusal::Failed);
        }
        self.tool.stay();
        self.target = Some(job);
    }

    /// The flash and the totals of a session that is closed.
    pub fn finish(self) -> (F, Totals)
        requires { is_some self.target ≡ true }
        ensures { (job : Run F) → self.target ≡ Some job → Leaves self job result.0 result.1 }
    {
        let Emulator {
            receiver: _,
            tool,
            target,
        } = self;
        match target {
            Some(job) => {
                let totals = Totals {
                    cycles: job.core.io().cycles(),
                    steps: job.core.steps(),
                    writes: job.core.io().writes(),
                    dropped: tool.dropped,
                };
                (job.flash, totals)
            }
            None => unreachable!(),
        }
    }
}
