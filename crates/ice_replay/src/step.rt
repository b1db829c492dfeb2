//! One step: some bytes are taken, a run is launched or stopped, and its end is taken where it comes.
ghost use Rattle.std.specs.Prelude.{◌≡◌, ◌<◌, ◌≤◌, ◌+◌, ◌^◌, ◌++◌, ℕ, suc, List, [], true, false, length};
ghost use Rattle.part_spec.specs.Chip.{chip_of};
ghost use Rattle.debug_spec.specs.Device.{Asked};
ghost use Rattle.debug_spec.specs.Debugger.{is_out, listens};
ghost use Rattle.debug_spec.specs.Replay.{steps_for};
ghost use Rattle.flash_patch.specs.Asking.{seen};
ghost use Rattle.run_control.specs.Ends.{IsGiven, IsSoundInline, is_taken};
ghost use Rattle.run_control.specs.Runs.{MayAdvance};
ghost use Rattle.run_control.specs.declared.job.Job.{Job as Run};
ghost use Rattle.run_control.specs.declared.runner.Done.{Done};
ghost use Rattle.ice_emul.specs.Launching.{IsOwn};
ghost use Rattle.ice_emul.specs.Standing.{IsHeld, IsLaunched, IsSoundEmulator};
ghost use Rattle.ice_emul.specs.Taking.{is_launching};
ghost use Rattle.ice_replay.specs.Keeping.{IsKept, Waits, place};
ghost use Rattle.ice_replay.specs.Steps.{EndsIn, IsPlaced, IsSome, IsStoppedFor, Settles, Spends, StandsSo, Starts, Steps};

use crate::settle::{Came, settle};
use ice_base::Flash;
use ice_emul::{Emulator, Input, Next, Out};
use run_control::{Inline, Job, Runner};

/// What one step sends: the answer to a frame, or that of a launch, and then the end of a run.
#[derive(Drop)]
pub(crate) struct Sent {
    /// The answer to a frame.
    pub answer: Out,
    /// The answer to a frame whose run was launched.
    pub okay: Out,
    /// The end of a run.
    pub event: Out,
}

/// What one step did.
#[derive(Drop)]
pub(crate) struct Stepped {
    /// How many of the bytes were used.
    pub used: usize,
    /// What came of it.
    pub came: Came,
    /// A run was out, and was asked to stop: what its frame is answered comes before its end.
    pub stopped: bool,
}

/// Takes bytes up to and with the first frame among them.
pub(crate) fn step<F: Flash>(
    emulator: &mut Emulator<F>,
    runner: &mut Inline<F>,
    bytes: &[u8],
    sent: &mut Sent,
) -> Stepped
    requires placed { IsPlaced (seen F.words F.journal F.faults F.writes) F.part emulator.old runner.old }
    requires listens { listens emulator.old.tool.mode ≡ true }
    requires few { runner.old.launches < 2 ^ 62 }
    requires empty { (sent.old.answer.items ≡ []) × (sent.old.okay.items ≡ []) × (sent.old.event.items ≡ []) }
    ensures placed { IsPlaced (seen F.words F.journal F.faults F.writes) F.part emulator.new runner.new }
    ensures came { StandsSo result.came emulator.new.tool.mode }
    ensures stopped { IsStoppedFor result.came result.stopped emulator.old.tool.mode }
    ensures spends { Spends result.came (length bytes.now) result.used emulator.old emulator.new }
    ensures most { result.used ≤ length bytes.now }
    ensures still { result.came ≡ Came.Nothing → sent.new.answer.items ++ (sent.new.okay.items ++ sent.new.event.items) ≡ [] }
    ensures counts { runner.new.launches + length emulator.new.receiver.held ≤
        runner.old.launches + length emulator.old.receiver.held + result.used }
    ensures part { emulator.new.tool.plan.part ≡ emulator.old.tool.plan.part }
    ensures stops { runner.new.stops.items ≡ runner.old.stops.items }
    ensures steps { (job : Run F) (pend : List Asked) →
        IsKept (seen F.words F.journal F.faults F.writes) F.part (place emulator.old runner.old job pend) →
        Steps (seen F.words F.journal F.faults F.writes) F.part result.came (place emulator.old runner.old job pend) bytes.now result.used
        (sent.new.answer.items ++ (sent.new.okay.items ++ sent.new.event.items)) emulator.new runner.new }
{
    let taken = emulator.take(Input::Bytes(bytes), &mut sent.answer);
    let used = taken.used;
    let mut stopped = false;
    let came = match taken.next {
        Next::Idle => Came::Nothing,
        Next::Answered => Came::Frame,
        Next::Launch(job) => start(emulator, runner, job, &mut sent.okay, &mut sent.event),
        Next::RaiseStop => {
            stopped = true;
            stop(emulator, runner, &mut sent.event)
        }
        Next::Closed(restored) => Came::Closed(restored),
    };
    Stepped {
        used,
        came,
        stopped,
    }
}

/// Launches a job, and takes the end of its run where that came within its steps.
fn start<F: Flash>(
    emulator: &mut Emulator<F>,
    runner: &mut Inline<F>,
    job: Job<F>,
    okay: &mut Out,
    event: &mut Out,
) -> Came
    requires sound { IsSoundEmulator F.part emulator.old }
    requires launching { is_launching emulator.old.tool.mode ≡ true }
    requires runner { IsSoundInline runner.old.stops.items runner.old.seat }
    requires free { is_taken runner.old.seat ≡ false }
    requires counts { runner.old.collects ≤ runner.old.launches }
    requires few { runner.old.launches < 2 ^ 62 }
    requires launched { IsLaunched F.part emulator.old.tool job }
    requires may { MayAdvance (seen F.words F.journal F.faults F.writes) F.part job }
    requires empty { (okay.old.items ≡ []) × (event.old.items ≡ []) }
    ensures sound { IsSoundEmulator F.part emulator.new }
    ensures came { StandsSo result emulator.new.tool.mode }
    ensures part { emulator.new.tool.plan.part ≡ emulator.old.tool.plan.part }
    ensures some { IsSome result }
    ensures receiver { emulator.new.receiver ≡ emulator.old.receiver }
    ensures runner { IsSoundInline runner.new.stops.items runner.new.seat }
    ensures counts { (runner.new.launches ≡ suc runner.old.launches) × (runner.new.collects ≤ runner.new.launches) }
    ensures stops { runner.new.stops.items ≡ runner.old.stops.items }
    ensures starts { Starts (seen F.words F.journal F.faults F.writes) F.part emulator.old runner.old job okay.new.items event.new.items
        emulator.new runner.new }
{
    match runner.launch(job) {
        Ok(()) => {}
        Err(_) => unreachable!(),
    }
    emulator.launched(okay);
    if runner.ready() {
        return settle(emulator, runner, event);
    }
    Came::Frame
}

/// Stops the run that is out, and takes its end.
pub(crate) fn stop<F: Flash>(
    emulator: &mut Emulator<F>,
    runner: &mut Inline<F>,
    event: &mut Out,
) -> Came
    requires sound { IsSoundEmulator F.part emulator.old }
    requires out { is_out emulator.old.tool.mode ≡ true }
    requires runner { IsSoundInline runner.old.stops.items runner.old.seat }
    requires taken { is_taken runner.old.seat ≡ true }
    requires due { runner.old.collects < runner.old.launches }
    requires own { (done : Done F) → IsGiven runner.old.seat done → IsOwn F.part emulator.old.tool done.job }
    requires empty { event.old.items ≡ [] }
    ensures sound { IsSoundEmulator F.part emulator.new }
    ensures came { StandsSo result emulator.new.tool.mode }
    ensures home { is_out emulator.new.tool.mode ≡ false }
    ensures part { emulator.new.tool.plan.part ≡ emulator.old.tool.plan.part }
    ensures some { IsSome result }
    ensures receiver { emulator.new.receiver ≡ emulator.old.receiver }
    ensures runner { IsSoundInline runner.new.stops.items runner.new.seat }
    ensures free { is_taken runner.new.seat ≡ false }
    ensures ends { EndsIn result emulator.old.tool.mode emulator.new.tool.mode }
    ensures counts { (runner.new.launches ≡ runner.old.launches) × (runner.new.collects ≤ runner.new.launches) }
    ensures stops { runner.new.stops.items ≡ runner.old.stops.items }
    ensures settles { (job : Run F) (pend : List Asked) → IsHeld F.part emulator.old job →
        Waits (seen F.words F.journal F.faults F.writes) F.part (place emulator.old runner.old job pend) →
        Settles (seen F.words F.journal F.faults F.writes) F.part (steps_for runner.old.stops.items runner.old.launches) false pend
        emulator.old job event.new.items emulator.new }
{
    runner.raise_stop();
    settle(emulator, runner, event)
}
