//! The end of a run, taken where it is made.
ghost use Rattle.std.specs.Prelude.{◌≡◌, ◌<◌, ◌||◌, ℕ, suc, Bool, List, [], true, false};
ghost use Rattle.part_spec.specs.Chip.{chip_of};
ghost use Rattle.debug_spec.specs.Device.{Asked};
ghost use Rattle.debug_spec.specs.Debugger.{Mode, is_out};
ghost use Rattle.flash_patch.specs.Asking.{seen};
ghost use Rattle.run_control.specs.Ends.{IsGiven, IsSoundInline, is_ended, is_taken};
ghost use Rattle.run_control.specs.declared.job.Job.{Job};
ghost use Rattle.run_control.specs.declared.runner.Done.{Done};
ghost use Rattle.ice_emul.specs.Launching.{IsOwn};
ghost use Rattle.ice_emul.specs.Standing.{IsHeld, IsSoundEmulator, held};
ghost use Rattle.ice_emul.specs.Coming.{ComesTo, EndsBy, IsOver};
ghost use Rattle.ice_replay.specs.Steps.{EndsIn, Settles};

use flash_patch::FlashFault;
use ice_base::Flash;
use ice_emul::{Emulator, Input, Next, Out};
use run_control::{Inline, Runner};

/// What came of a step.
#[derive(Drop)]
pub(crate) enum Came {
    /// All bytes are used, and no frame came to wait.
    Nothing,
    /// A frame was taken.
    Frame,
    /// The session is closed with it: its flash is the program again, unless a page write failed.
    Closed(Result<(), FlashFault>),
}

/// Takes the end of the run that is out.
pub(crate) fn settle<F: Flash>(
    emulator: &mut Emulator<F>,
    runner: &mut Inline<F>,
    event: &mut Out,
) -> Came
    requires sound { IsSoundEmulator F.part emulator.old }
    requires out { is_out emulator.old.tool.mode ≡ true }
    requires runner { IsSoundInline runner.old.stops.items runner.old.seat }
    requires taken { is_taken runner.old.seat ≡ true }
    requires ready { (is_ended runner.old.seat || runner.old.raised) ≡ true }
    requires due { runner.old.collects < runner.old.launches }
    requires own { (done : Done F) → IsGiven runner.old.seat done → IsOwn F.part emulator.old.tool done.job }
    requires empty { event.old.items ≡ [] }
    ensures sound { IsSoundEmulator F.part emulator.new }
    ensures mode { EndsIn result emulator.old.tool.mode emulator.new.tool.mode }
    ensures part { emulator.new.tool.plan.part ≡ emulator.old.tool.plan.part }
    ensures receiver { emulator.new.receiver ≡ emulator.old.receiver }
    ensures runner { IsSoundInline runner.new.stops.items runner.new.seat }
    ensures free { is_taken runner.new.seat ≡ false }
    ensures counts { (runner.new.launches ≡ runner.old.launches) × (runner.new.collects ≡ suc runner.old.collects) }
    ensures stops { runner.new.stops.items ≡ runner.old.stops.items }
    ensures settles { (job : Job F) (number : ℕ) (by_itself : Bool) (pend : List Asked) → IsHeld F.part emulator.old job →
        ((done : Done F) → IsGiven runner.old.seat done →
        ComesTo (seen F.words F.journal F.faults F.writes) (held emulator.old job) done
        (EndsBy number by_itself (chip_of emulator.old.tool.plan.part)) pend) →
        Settles (seen F.words F.journal F.faults F.writes) F.part number by_itself pend emulator.old job event.new.items emulator.new }
{
    let done = runner.collect();
    let taken = emulator.take(Input::Halted(done), event);
    how_ended(taken.next)
}

/// What came with the end of a run.
fn how_ended<F: Flash>(next: Next<F>) -> Came
    ensures { (before after : Mode) → IsOver next before after → EndsIn result before after }
{
    match next {
        Next::Idle => Came::Nothing,
        Next::Answered => Came::Frame,
        Next::Launch(_) => Came::Nothing,
        Next::RaiseStop => Came::Nothing,
        Next::Closed(restored) => Came::Closed(restored),
    }
}
