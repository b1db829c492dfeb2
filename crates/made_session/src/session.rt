//! A made session: the commands are made, answered and summed up.
ghost use Rattle.std.specs.Prelude.{◌≡◌, ◌≤◌, [], Some};
ghost use Rattle.shell_spec.specs.Generator.{made_stops};
ghost use Rattle.debug_spec.specs.Debugger.{stopped};
ghost use Rattle.flash_patch.specs.Asking.{seen};
ghost use Rattle.run_control.specs.Ends.{AreStops};
ghost use Rattle.run_control.specs.declared.job.Job.{Job as Run};
ghost use Rattle.ice_emul.specs.Standing.{IsSoundEmulator};
ghost use Rattle.made_session.specs.Making.{Makes, restored_by};

use crate::line::MadeLine;
use crate::summary::{SUMMARY, summary_line};
use crate::tally::Tally;
use arrayvec::ArrayVec;
use ice_base::Flash;
use ice_emul::{Emulator, Totals};
use ice_replay::{End, Replayed, replay};

/// The most commands of a made session.
pub const COUNT_LIMIT: u32 = 100_000;

/// What is left of a made session.
#[derive(Drop)]
pub struct Made<F: Flash> {
    /// Its summary, a line.
    pub summary: ArrayVec<u8, SUMMARY>,
    /// Whether the flash is the program again.
    pub restored: bool,
    /// The flash of its target.
    pub flash: F,
    /// Its cycles, steps, output writes and dropped bytes, each modulo 2^64.
    pub totals: Totals,
}

/// Makes so many commands from the seed and a sign-off behind them, has them answered by an emulator that has begun on the made program,
/// and sums up what was sent. Each run that is asked to stop has made 50 steps. No memory is taken.
pub fn make_session<F: Flash>(emulator: Emulator<F>, seed: u32, count: u32) -> Made<F>
    requires sound { IsSoundEmulator F.part emulator }
    requires begun { emulator.tool.mode ≡ stopped }
    requires fresh { emulator.receiver ≡ record { held = []; dropped = 0 } }
    requires few { count ≤ COUNT_LIMIT }
    ensures { (own : Run F) → emulator.target ≡ Some own →
        Makes (seen F.words F.journal F.faults F.writes) F.part emulator own seed count result }
{
    let mut line = MadeLine::of(seed, count);
    let mut tally = Tally::new();
    let Replayed { end, flash, totals } = replay(emulator, made_stops(), &mut line, &mut tally);
    let sent = tally.count;
    Made {
        summary: summary_line(count + 1, sent.replies, sent.events, sent.check),
        restored: restored_by(end),
        flash,
        totals,
    }
}

/// The steps of each run that is asked to stop.
fn made_stops() -> ArrayVec<u32, 64>
    ensures items { result.items ≡ made_stops }
    ensures are { AreStops result.items }
{
    let mut stops = ArrayVec::new();
    stops.push(50);
    stops
}

/// Whether the flash is the program again where the session ended so.
fn restored_by(end: End) -> bool
    ensures { result ≡ restored_by end }
{
    match end {
        End::Okay => true,
        End::Flash => false,
        End::Read => false,
        End::Write => false,
        End::TooLong => false,
    }
}
