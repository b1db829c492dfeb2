//! The work of a target: the run of a job, up to a stop of its own or one that is raised.
ghost use Rattle.std.specs.Prelude.{◌≡◌, true, [], ◌∷◌, ◌++◌};
ghost use Rattle.std.proofs.Props.{props};
ghost use Rattle.ice_inbox.specs.Ready.{IsStep-prop};
ghost use Rattle.flash_patch.specs.Asking.{seen};
ghost use Rattle.run_control.specs.Looking.{Looked};
ghost use Rattle.run_control.specs.Runs.{MayAdvance};
ghost use Rattle.ice_inbox.specs.Targets.{IsUnasked, IsAsked, RunsTarget, EndsLooked, SendsHalted};

use crate::inbox::TargetSender;
use crate::stop_word::StopLooker;
use avr_core::stands_for_a_state;
use ice_base::{Flash, Gate, Work};
use run_control::{Done, Halt, Job, StopLook, Turn};
use std::sync::Wait;

/// The most steps between two passes of the gate.
const BUDGET: u32 = 4096;

/// Makes the run of a job, and tells its end to the inbox.
#[derive(Drop)]
pub struct TargetWork<F: Flash, G: Gate, R: Wait + Copy> {
    pub(crate) rt: R,
    pub(crate) job: Job<F>,
    pub(crate) number: u64,
    pub(crate) looker: StopLooker,
    pub(crate) sender: TargetSender,
    pub(crate) gate: G,
    ghost ready: { MayAdvance (seen F.words F.journal F.faults F.writes) F.part job } by { Prim.hlevel (props, IsStep-prop) },
    ghost unasked: { IsUnasked looker },
}

/// What the work of a target gives.
#[derive(Drop)]
pub struct TargetDone<F: Flash, G: Gate> {
    /// The job at the end of its run.
    pub done: Done<F>,
    /// The looker, with its loads.
    pub looker: StopLooker,
    /// The sender, by which the end was told.
    pub sender: TargetSender,
    /// The gate.
    pub gate: G,
}

/// Looks for the number of a job at a stop word.
#[derive(Drop)]
struct JobLook {
    looker: StopLooker,
    number: u64,
    told: bool,
    yes: u64,
    ghost asked: { IsAsked number looker },
    ghost seen: { told ≡ true → looker.seen ≡ number },
}

impl StopLook for JobLook {
    ghost use Rattle.ice_inbox.specs.Targets.{LookMark};

    ghost Mark = { LookMark };

    ghost looks = { λ s. s.looker.loads };

    ghost yes = { λ s. s.yes };

    ghost last = { λ s. s.told };

    ghost mark = { λ s. record { word = s.looker.word; number = s.number } };

    fn look(&mut self) -> bool {
        let told = self.looker.look_for(self.number);
        self.told = told;
        self.yes = self.yes.wrapping_add(u64::from(told));
        told
    }
}

impl<F: Flash, G: Gate, R: Wait + Copy> Work for TargetWork<F, G, R> {
    type Done = TargetDone<F, G>;

    ghost gives = { λ work end.
        RunsTarget (seen F.words F.journal F.faults F.writes) F.part work.job work.number work.looker end.done end.looker ×
        SendsHalted work.sender work.number end.sender };

    fn run(self) -> TargetDone<F, G> {
        let TargetWork {
            rt,
            job,
            number,
            looker,
            sender,
            gate,
        } = self;
        let mut job = job;
        let mut sender = sender;
        let mut gate = gate;
        let mut look = JobLook {
            looker,
            number,
            told: false,
            yes: 0,
        };
        let halt = run_out(&rt, &mut job, &mut look, &mut gate);
        sender.send(&rt, number);
        let JobLook {
            looker,
            number: _,
            told: _,
            yes: _,
        } = look;
        TargetDone {
            done: Done { job, halt },
            looker,
            sender,
            gate,
        }
    }
}

/// Makes the run of a job to its end, with a pass of the gate after each turn that did not end it.
fn run_out<F: Flash, G: Gate, R: Wait>(
    rt: &R,
    job: &mut Job<F>,
    look: &mut JobLook,
    gate: &mut G,
) -> Halt
    requires ready { MayAdvance (seen F.words F.journal F.faults F.writes) F.part job.old }
    requires unlooked { look.old.looker.loads ≡ 0 }
    ensures ends { EndsLooked (seen F.words F.journal F.faults F.writes) F.part job.old (record { job = job.new; halt = result })
        look.new.looker.loads look.new.told }
    ensures mark { (look.new.looker.word ≡ look.old.looker.word) × (look.new.number ≡ look.old.number) }
{
    stands_for_a_state(&job.core);
    let mut turn: u64 = 0;
    for _ in rt.forever() {
        match job.advance(BUDGET, look) {
            Turn::Halted(halt) => return halt,
            Turn::NotYet => {
                turn = turn.wrapping_add(1);
                gate.pass(turn);
            }
        }
    }
    unreachable!()
}
