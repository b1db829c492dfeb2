//! A link in memory to an emulator, which takes each piece that is sent as a replay takes a chunk of its line.
ghost use Rattle.std.specs.Prelude.{◌≡◌, ◌≤◌, ◌<◌, ◌+◌, ◌^◌, ℕ, List, [], true, false, None, Some, is_some, length, take, drop, IfOk, OnOk, OnErr};
ghost use Rattle.std.specs.Io.KnownBytes.{Appends, Consumes, IsAtEnd, Keeps};
ghost use Rattle.line_spec.specs.Frames.{IsPartial};
ghost use Rattle.debug_spec.specs.Debugger.{closed, listens, stopped};
ghost use Rattle.flash_patch.specs.Asking.{seen};
ghost use Rattle.run_control.specs.Ends.{AreStops};
ghost use Rattle.ice_base.specs.Counts.{HasCause};
ghost use Rattle.run_control.specs.declared.job.Job.{Job as Run};
ghost use Rattle.ice_emul.specs.Beginning.{Leaves};
ghost use Rattle.ice_emul.specs.Standing.{IsSoundEmulator};
ghost use Rattle.ice_replay.specs.Endings.{is_closed};
ghost use Rattle.ice_replay.specs.Steps.{IsPlaced};
ghost use Rattle.ice_script.specs.Leaving.{LeavesBehind};
ghost use Rattle.ice_script.specs.Scripts.{IsFreshWire};
ghost use Rattle.ice_script.specs.Wires.{Receives, Sends, StandsBy, TakesPiece, no_faults, side, waiting};

use crate::queue::Queue;
use arrayvec::ArrayVec;
use ice_base::{Failed, Flash, Link};
use ice_emul::{Emulator, Totals};
use ice_replay::{Chunk, end_line, take_chunk};
use run_control::Inline;
use std::marker::Model;

/// The most bytes that a wire takes, all its pieces together.
const TAKE_LIMIT: usize = 1_099_511_627_776;

/// A link to an emulator that stands in the same process. What the emulator sends waits until it is received.
#[derive(Drop)]
pub struct Wire<F: Flash> {
    emulator: Emulator<F>,
    runner: Inline<F>,
    queue: Queue,
    /// How many bytes more are taken.
    allowed: usize,
    /// Something that was sent had no room to wait, and the line has ended.
    lost: bool,
    /// Whether the flash of a session that is closed is the program again, where nothing is lost.
    restored: bool,
}

impl<F: Flash> Model for Wire<F> {
    ghost use Rattle.std.specs.Prelude.{◌≡◌, true, false};
    ghost use Rattle.debug_spec.specs.Debugger.{closed};
    ghost use Rattle.flash_patch.specs.Asking.{seen};
    ghost use Rattle.ice_replay.specs.Endings.{is_closed};
    ghost use Rattle.ice_script.specs.Wires.{IsWire, WireState};

    ghost Value = { WireState F };

    ghost view = { λ s. record {
      side = record { emulator = s.emulator; runner = s.runner; queue = s.queue };
      allowed = s.allowed;
      lost = s.lost;
    } };

    ghost invariant = { λ s. IsWire (seen F.words F.journal F.faults F.writes) F.part (record {
      side = record { emulator = s.emulator; runner = s.runner; queue = s.queue };
      allowed = s.allowed;
      lost = s.lost;
    }) × (s.lost ≡ true → is_closed s.emulator.tool.mode ≡ true) ×
        (s.lost ≡ false → is_closed s.emulator.tool.mode ≡ true → s.emulator.tool.mode ≡ closed s.restored) };
}

/// What is left of a wire.
#[derive(Drop)]
pub struct Left<F: Flash> {
    /// Whether the session was closed before the line ended.
    pub signed: bool,
    /// Whether the flash is the program again.
    pub restored: bool,
    /// The flash of the target.
    pub flash: F,
    /// Its cycles, steps, output writes and dropped bytes, each modulo 2^64.
    pub totals: Totals,
}

/// What came of a piece.
#[derive(Clone, Copy, Debug, PartialEq, Eq)]
struct Came {
    /// Something that was sent had no room to wait, and the line has ended.
    lost: bool,
    /// Whether the flash of a session that is closed is the program again, where nothing is lost.
    restored: bool,
}

impl<F: Flash> Wire<F> {
    /// A wire to an emulator that has begun, with an empty queue.
    pub(crate) fn of(emulator: Emulator<F>, queue: Queue, stops: ArrayVec<u32, 64>) -> Wire<F>
        requires sound { IsSoundEmulator F.part emulator }
        requires begun { emulator.tool.mode ≡ stopped }
        requires received { emulator.receiver ≡ record { held = []; dropped = 0 } }
        requires stops { AreStops stops.items }
        requires queue { queue ≡ record { bytes = []; full = false } }
        ensures fresh { IsFreshWire F.part stops.items result }
        ensures emulator { result.side.emulator ≡ emulator }
    {
        Wire {
            emulator,
            runner: Inline::of(stops),
            queue,
            allowed: TAKE_LIMIT,
            lost: false,
            restored: false,
        }
    }

    /// Ends the line, where the session is not closed, and tells what is left.
    pub fn finish(self) -> Left<F>
        ensures leaves { LeavesBehind (seen F.words F.journal F.faults F.writes) F.part self result }
    {
        let Wire {
            mut emulator,
            mut runner,
            queue: _,
            allowed: _,
            lost: _,
            restored,
        } = self;
        if !emulator.listens() {
            return leave(emulator, true, restored);
        }
        let restored = end_line(&mut emulator, &mut runner).is_ok();
        leave(emulator, false, restored)
    }
}

/// What is left of a session that is closed.
fn leave<F: Flash>(emulator: Emulator<F>, signed: bool, restored: bool) -> Left<F>
    requires { is_some emulator.target ≡ true }
    ensures told { (result.signed ≡ signed) × (result.restored ≡ restored) }
    ensures leaves { (job : Run F) → emulator.target ≡ Some job → Leaves emulator job result.flash result.totals }
{
    let (flash, totals) = emulator.finish();
    Left {
        signed,
        restored,
        flash,
        totals,
    }
}

/// Takes a piece. Where the queue has no room for what it is answered, the line ends.
fn take_piece<F: Flash>(
    emulator: &mut Emulator<F>,
    runner: &mut Inline<F>,
    piece: &[u8],
    queue: &mut Queue,
) -> Came
    requires placed { IsPlaced (seen F.words F.journal F.faults F.writes) F.part emulator.old runner.old }
    requires listens { listens emulator.old.tool.mode ≡ true }
    requires partial { IsPartial emulator.old.receiver.held }
    requires few { runner.old.launches + length emulator.old.receiver.held + length piece.now < 2 ^ 62 }
    ensures placed { IsPlaced (seen F.words F.journal F.faults F.writes) F.part emulator.new runner.new }
    ensures stands { StandsBy (listens emulator.new.tool.mode) emulator.new }
    ensures counts { listens emulator.new.tool.mode ≡ true → runner.new.launches + length emulator.new.receiver.held ≤
        runner.old.launches + length emulator.old.receiver.held + length piece.now }
    ensures lost { result.lost ≡ true → is_closed emulator.new.tool.mode ≡ true }
    ensures restored { result.lost ≡ false → is_closed emulator.new.tool.mode ≡ true → emulator.new.tool.mode ≡ closed result.restored }
    ensures takes { TakesPiece (seen F.words F.journal F.faults F.writes) F.part (side emulator.old runner.old queue.old) piece.now
        (side emulator.new runner.new queue.new) result.lost }
{
    let came = take_chunk(emulator, runner, piece, queue);
    let _ = queue.is_full();
    match came {
        Chunk::Taken => Came {
            lost: false,
            restored: false,
        },
        Chunk::Closed(restored) => Came {
            lost: false,
            restored: restored.is_ok(),
        },
        Chunk::Unsent(true) => Came {
            lost: true,
            restored: false,
        },
        Chunk::Unsent(false) => {
            let _ = end_line(emulator, runner);
            Came {
                lost: true,
                restored: false,
            }
        }
    }
}

impl<F: Flash> Link for Wire<F> {
    ghost sent = { λ w. None };

    ghost incoming = { λ w. Some (waiting w) };

    ghost faults = { no_faults };

    ghost sends = { Sends (seen F.words F.journal F.faults F.writes) F.part };

    ghost receives = { Receives };

    fn send(&mut self, piece: &[u8]) -> Result<(), Failed>
        ensures moved { OnOk result (Sends (seen F.words F.journal F.faults F.writes) F.part self.old piece.now self.new) }
        ensures ok { OnOk result (Appends None None piece.now) }
        ensures err { OnErr result ((n : ℕ) × Appends None None (take n piece.now)) }
        ensures answered { (bytes : List ℕ) × Appends (Some (waiting self.old)) (Some (waiting self.new)) bytes }
        ensures cause { HasCause result (no_faults self.old) (no_faults self.new) }
        ensures still { OnOk result (no_faults self.new ≡ no_faults self.old) }
    {
        if !self.emulator.listens() || piece.len() > self.allowed {
            return Ok(());
        }
        self.allowed -= piece.len();
        let came = take_piece(&mut self.emulator, &mut self.runner, piece, &mut self.queue);
        self.lost = came.lost;
        self.restored = came.restored;
        Ok(())
    }

    fn receive(&mut self, buf: &mut [u8]) -> Result<usize, Failed>
        ensures moved { IfOk result (λ n. Receives self.old (take n buf.new) self.new) }
        ensures count { IfOk result (λ n. n ≤ length buf.old) }
        ensures bytes { IfOk result (λ n. Consumes (Some (waiting self.old)) (Some (waiting self.new)) (take n buf.new)) }
        ensures rest { IfOk result (λ n. drop n buf.new ≡ drop n buf.old) }
        ensures end { IfOk result (λ n. n ≡ 0 → 0 < length buf.old → IsAtEnd (Some (waiting self.new))) }
        ensures err { OnErr result (Keeps (Some (waiting self.old)) (Some (waiting self.new))) }
        ensures sent { Keeps None None }
        ensures cause { HasCause result (no_faults self.old) (no_faults self.new) }
        ensures still { OnOk result (no_faults self.new ≡ no_faults self.old) }
    {
        Ok(self.queue.take(buf))
    }
}
