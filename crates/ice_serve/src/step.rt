//! One step: some bytes are taken, and a run is launched or stopped.
ghost use Rattle.std.specs.Prelude.{◌≡◌, ◌<◌, ◌≤◌, ◌+◌, ◌^◌, ◌++◌, [], true, false, length};
ghost use Rattle.debug_spec.specs.Debugger.{listens};
ghost use Rattle.flash_patch.specs.Asking.{seen};
ghost use Rattle.ice_line.specs.Lines.{Writes};
ghost use Rattle.run_control.specs.Runs.{MayAdvance};
ghost use Rattle.run_control.specs.declared.job.Job.{Job as Run};
ghost use Rattle.ice_emul.specs.Standing.{IsLaunched, IsSoundEmulator};
ghost use Rattle.ice_emul.specs.Taking.{is_launching, takes_line};
ghost use Rattle.ice_serve.specs.Keeping.{IsFree, IsKept, IsPlaced, seen_as};
ghost use Rattle.ice_serve.specs.Steps.{Spends, StandsSo, Starts, Steps};

use flash_patch::FlashFault;
use ice_base::{Flash, Sink};
use ice_emul::{Emulator, Input, Next, Out};
use ice_line::write_some;
use run_control::{Job, Runner};

/// What came of a step.
#[derive(Drop)]
pub(crate) enum Came {
    /// All bytes are used, and no frame came to wait.
    Nothing,
    /// A frame was taken.
    Frame,
    /// The session is closed with it: its flash is the program again, unless a page write failed.
    Closed(Result<(), FlashFault>),
}

/// What one step did.
#[derive(Drop)]
pub(crate) struct Stepped {
    /// How many of the bytes were used.
    pub used: usize,
    /// What came of it.
    pub came: Came,
}

/// What one step sends: the answer to a frame, or that to one that asked for a launch.
#[derive(Drop)]
pub(crate) struct Sent {
    /// The answer to a frame.
    pub answer: Out,
    /// The answer to a frame that asked for a launch.
    pub okay: Out,
}

impl Sent {
    /// Nothing is sent yet.
    pub(crate) fn new() -> Sent
        ensures { (result.answer.items ≡ []) × (result.okay.items ≡ []) }
    {
        Sent {
            answer: Out::new(),
            okay: Out::new(),
        }
    }

    /// Writes what is sent, and tells whether all of it was written.
    pub(crate) fn write<K: Sink>(&self, sink: &mut K) -> bool
        ensures writes { Writes result (K.written sink.old) (K.written sink.new) (K.faults sink.old) (K.faults sink.new)
            (self.now.answer.items ++ self.now.okay.items) }
        ensures faults { K.faults sink.old ≤ K.faults sink.new }
    {
        if !write_some(self.answer.as_slice(), sink) {
            return false;
        }
        write_some(self.okay.as_slice(), sink)
    }
}

/// Takes bytes up to and with the first frame among them. A session that was left, or is closed, ignores them.
pub(crate) fn step<F: Flash, X: Runner<F>>(
    emulator: &mut Emulator<F>,
    runner: &mut X,
    launches: &mut u64,
    bytes: &[u8],
    sent: &mut Sent,
) -> Stepped
    requires placed { IsPlaced (seen F.words F.journal F.faults F.writes) F.part emulator.old
        (seen_as (X.is_out runner.old) (X.raised runner.old) (X.may_give runner.old) (X.launches runner.old) (X.collects runner.old) (X.faults runner.old)) }
    requires sound { X.sound runner.old }
    requires takes { takes_line emulator.old.tool.mode ≡ true }
    requires counted { launches.old ≡ X.launches runner.old }
    requires few { launches.old < 2 ^ 62 }
    requires empty { (sent.old.answer.items ≡ []) × (sent.old.okay.items ≡ []) }
    ensures placed { IsPlaced (seen F.words F.journal F.faults F.writes) F.part emulator.new
        (seen_as (X.is_out runner.new) (X.raised runner.new) (X.may_give runner.new) (X.launches runner.new) (X.collects runner.new) (X.faults runner.new)) }
    ensures sound { X.sound runner.new }
    ensures kept { X.kept runner.new ≡ X.kept runner.old }
    ensures counted { launches.new ≡ X.launches runner.new }
    ensures came { StandsSo result.came emulator.old.tool.mode emulator.new.tool.mode }
    ensures spends { Spends result.came (length bytes.now) result.used emulator.old emulator.new }
    ensures most { result.used ≤ length bytes.now }
    ensures still { result.came ≡ Came.Nothing → sent.new.answer.items ++ sent.new.okay.items ≡ [] }
    ensures few { launches.new + length emulator.new.receiver.held ≤ launches.old + length emulator.old.receiver.held + result.used }
    ensures part { emulator.new.tool.plan.part ≡ emulator.old.tool.plan.part }
    ensures steps { (job : Run F) → IsKept (seen F.words F.journal F.faults F.writes) F.part emulator.old job
        (seen_as (X.is_out runner.old) (X.raised runner.old) (X.may_give runner.old) (X.launches runner.old) (X.collects runner.old) (X.faults runner.old)) →
        Steps (seen F.words F.journal F.faults F.writes) F.part result.came emulator.old job
        (seen_as (X.is_out runner.old) (X.raised runner.old) (X.may_give runner.old) (X.launches runner.old) (X.collects runner.old) (X.faults runner.old))
        bytes.now result.used (sent.new.answer.items ++ sent.new.okay.items) emulator.new
        (seen_as (X.is_out runner.new) (X.raised runner.new) (X.may_give runner.new) (X.launches runner.new) (X.collects runner.new) (X.faults runner.new)) }
{
    if !emulator.listens() {
        return Stepped {
            used: bytes.len(),
            came: Came::Nothing,
        };
    }
    let taken = emulator.take(Input::Bytes(bytes), &mut sent.answer);
    let used = taken.used;
    let came = match taken.next {
        Next::Idle => Came::Nothing,
        Next::Answered => Came::Frame,
        Next::Launch(job) => start(emulator, runner, launches, job, &mut sent.okay),
        Next::RaiseStop => {
            runner.raise_stop();
            Came::Frame
        }
        Next::Closed(restored) => Came::Closed(restored),
    };
    Stepped { used, came }
}

/// Launches a job, and answers the frame that asked for it.
fn start<F: Flash, X: Runner<F>>(
    emulator: &mut Emulator<F>,
    runner: &mut X,
    launches: &mut u64,
    job: Job<F>,
    okay: &mut Out,
) -> Came
    requires emulator { IsSoundEmulator F.part emulator.old }
    requires launching { is_launching emulator.old.tool.mode ≡ true }
    requires sound { X.sound runner.old }
    requires free { IsFree
        (seen_as (X.is_out runner.old) (X.raised runner.old) (X.may_give runner.old) (X.launches runner.old) (X.collects runner.old) (X.faults runner.old)) }
    requires counted { launches.old ≡ X.launches runner.old }
    requires few { launches.old < 2 ^ 62 }
    requires launched { IsLaunched F.part emulator.old.tool job }
    requires may { MayAdvance (seen F.words F.journal F.faults F.writes) F.part job }
    requires empty { okay.old.items ≡ [] }
    ensures came { result ≡ Came.Frame }
    ensures emulator { IsSoundEmulator F.part emulator.new }
    ensures listens { listens emulator.new.tool.mode ≡ true }
    ensures sound { X.sound runner.new }
    ensures kept { X.kept runner.new ≡ X.kept runner.old }
    ensures counted { launches.new ≡ X.launches runner.new }
    ensures few { launches.new ≤ launches.old + 1 }
    ensures part { emulator.new.tool.plan.part ≡ emulator.old.tool.plan.part }
    ensures receiver { emulator.new.receiver ≡ emulator.old.receiver }
    ensures starts { Starts (seen F.words F.journal F.faults F.writes) F.part emulator.old job
        (seen_as (X.is_out runner.old) (X.raised runner.old) (X.may_give runner.old) (X.launches runner.old) (X.collects runner.old) (X.faults runner.old))
        okay.new.items emulator.new
        (seen_as (X.is_out runner.new) (X.raised runner.new) (X.may_give runner.new) (X.launches runner.new) (X.collects runner.new) (X.faults runner.new)) }
{
    match runner.launch(job) {
        Ok(()) => {
            *launches += 1;
            emulator.launched(okay);
        }
        Err(job) => emulator.launch_failed(job, okay),
    }
    Came::Frame
}
