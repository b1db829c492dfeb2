//! The end of the line, and the end of the run that is out.
ghost use Rattle.std.specs.Prelude.{◌≡◌, [], false, true};
ghost use Rattle.part_spec.specs.Chip.{chip_of};
ghost use Rattle.debug_spec.specs.Debugger.{is_out, listens};
ghost use Rattle.debug_spec.specs.Schedule.{line_ended, IsHalted};
ghost use Rattle.flash_patch.specs.Asking.{seen};
ghost use Rattle.run_control.specs.declared.job.Job.{Job as Run};
ghost use Rattle.ice_emul.specs.Taking.{takes_line};
ghost use Rattle.ice_serve.specs.Keeping.{Continues, IsKept, IsPlaced, seen_as};
ghost use Rattle.ice_serve.specs.Notes.{EndsRun, StandsBehind, told_if};

use flash_patch::FlashFault;
use ice_base::Flash;
use ice_emul::{Emulator, Input, Next, Out};
use run_control::Runner;

/// Ends the line: the session is closed, or the run that is out is asked to stop. Where it is closed, tells whether its flash is the program
/// again.
pub(crate) fn end_line<F: Flash, X: Runner<F>>(
    emulator: &mut Emulator<F>,
    runner: &mut X,
) -> Option<Result<(), FlashFault>>
    requires placed { IsPlaced (seen F.words F.journal F.faults F.writes) F.part emulator.old
        (seen_as (X.is_out runner.old) (X.raised runner.old) (X.may_give runner.old) (X.launches runner.old) (X.collects runner.old) (X.faults runner.old)) }
    requires sound { X.sound runner.old }
    requires takes { takes_line emulator.old.tool.mode ≡ true }
    ensures placed { IsPlaced (seen F.words F.journal F.faults F.writes) F.part emulator.new
        (seen_as (X.is_out runner.new) (X.raised runner.new) (X.may_give runner.new) (X.launches runner.new) (X.collects runner.new) (X.faults runner.new)) }
    ensures sound { X.sound runner.new }
    ensures kept { X.kept runner.new ≡ X.kept runner.old }
    ensures counts { X.launches runner.new ≡ X.launches runner.old }
    ensures stands { StandsBehind result emulator.new.tool.mode }
    ensures part { emulator.new.tool.plan.part ≡ emulator.old.tool.plan.part }
    ensures deaf { listens emulator.new.tool.mode ≡ false }
    ensures receiver { emulator.new.receiver ≡ emulator.old.receiver }
    ensures line { (job : Run F) → IsKept (seen F.words F.journal F.faults F.writes) F.part emulator.old job
        (seen_as (X.is_out runner.old) (X.raised runner.old) (X.may_give runner.old) (X.launches runner.old) (X.collects runner.old) (X.faults runner.old)) →
        Continues (seen F.words F.journal F.faults F.writes) F.part (λ s t. t ≡ line_ended (chip_of emulator.old.tool.plan.part) s)
        emulator.old job
        (seen_as (X.is_out runner.old) (X.raised runner.old) (X.may_give runner.old) (X.launches runner.old) (X.collects runner.old) (X.faults runner.old))
        [] emulator.new
        (seen_as (X.is_out runner.new) (X.raised runner.new) (X.may_give runner.new) (X.launches runner.new) (X.collects runner.new) (X.faults runner.new)) }
{
    let mut out = Out::new();
    match emulator.take(Input::LineEnd, &mut out).next {
        Next::Closed(restored) => Some(restored),
        Next::RaiseStop => {
            runner.raise_stop();
            None
        }
        Next::Idle => unreachable!(),
        Next::Answered => unreachable!(),
        Next::Launch(_) => unreachable!(),
    }
}

/// Takes the end of the run that is out. Where the session is closed with it, tells whether its flash is the program again.
pub(crate) fn collect<F: Flash, X: Runner<F>>(
    emulator: &mut Emulator<F>,
    runner: &mut X,
    event: &mut Out,
) -> Option<Result<(), FlashFault>>
    requires placed { IsPlaced (seen F.words F.journal F.faults F.writes) F.part emulator.old
        (seen_as (X.is_out runner.old) (X.raised runner.old) (X.may_give runner.old) (X.launches runner.old) (X.collects runner.old) (X.faults runner.old)) }
    requires sound { X.sound runner.old }
    requires ready { (x : X) → X.is_out x ≡ true → X.is_ready x ≡ true }
    requires out { is_out emulator.old.tool.mode ≡ true }
    requires empty { event.old.items ≡ [] }
    ensures placed { IsPlaced (seen F.words F.journal F.faults F.writes) F.part emulator.new
        (seen_as (X.is_out runner.new) (X.raised runner.new) (X.may_give runner.new) (X.launches runner.new) (X.collects runner.new) (X.faults runner.new)) }
    ensures sound { X.sound runner.new }
    ensures kept { X.kept runner.new ≡ X.kept runner.old }
    ensures counts { X.launches runner.new ≡ X.launches runner.old }
    ensures stands { EndsRun result emulator.old.tool.mode emulator.new.tool.mode }
    ensures part { emulator.new.tool.plan.part ≡ emulator.old.tool.plan.part }
    ensures receiver { emulator.new.receiver ≡ emulator.old.receiver }
    ensures halts { (job : Run F) → IsKept (seen F.words F.journal F.faults F.writes) F.part emulator.old job
        (seen_as (X.is_out runner.old) (X.raised runner.old) (X.may_give runner.old) (X.launches runner.old) (X.collects runner.old) (X.faults runner.old)) →
        Continues (seen F.words F.journal F.faults F.writes) F.part (IsHalted true (chip_of emulator.old.tool.plan.part)) emulator.old job
        (seen_as (X.is_out runner.old) (X.raised runner.old) (X.may_give runner.old) (X.launches runner.old) (X.collects runner.old) (X.faults runner.old))
        (told_if result event.new.items) emulator.new
        (seen_as (X.is_out runner.new) (X.raised runner.new) (X.may_give runner.new) (X.launches runner.new) (X.collects runner.new) (X.faults runner.new)) }
{
    let done = runner.collect();
    match emulator.take(Input::Halted(done), event).next {
        Next::Closed(restored) => Some(restored),
        Next::Answered => None,
        Next::Idle => unreachable!(),
        Next::Launch(_) => unreachable!(),
        Next::RaiseStop => unreachable!(),
    }
}
