//! A session whose line and target each run on a thread of its own.
ghost use Rattle.std.specs.Prelude.{◌≡◌, ◌+◌, ◌%◌, ◌^◌, [], Some, IfOk, IfErr, OnOk, OnErr};
ghost use Rattle.debug_spec.specs.Debugger.{stopped};
ghost use Rattle.flash_patch.specs.Asking.{seen};
ghost use Rattle.ice_base.specs.Counts.{Rose};
ghost use Rattle.run_control.specs.declared.job.Job.{Job as Run};
ghost use Rattle.ice_emul.specs.Standing.{IsSoundEmulator};
ghost use Rattle.ice_serve.specs.Endings.{counts};
ghost use Rattle.ice_serve.specs.Serving.{IsFresh, RoseBy, Serves, TakesLine, threads};

use crate::notes::{End, Remains, session};
use ice_base::{Flash, Gate, Sink, Source, Spawner};
use ice_emul::{Emulator, Totals};
use ice_inbox::{
    LineDone, LineSender, LineWork, NoteReceiver, StopRaiser, StopWord, TargetSender, TargetWork,
    Threaded, make_inbox,
};
use std::alloc::{AllocError, Global};
use std::sync::Wait;

/// What the threads of one session share: its inbox, by which nothing was sent yet, and its stop word, which was never raised.
#[derive(Drop)]
pub struct Desk {
    line: LineSender,
    target: TargetSender,
    receiver: NoteReceiver,
    raiser: StopRaiser,
    ghost fresh: { IsFresh line receiver raiser },
}

/// Takes all the memory that the threads of a session share.
pub fn open_desk(alloc: Global) -> Result<Desk, AllocError> {
    let (line, target, receiver) = make_inbox(alloc)?;
    let raiser = StopWord::make(alloc)?;
    Ok(Desk {
        line,
        target,
        receiver,
        raiser,
    })
}

/// What is left of a session that was served.
#[derive(Drop)]
pub struct Served<S: Source, F: Flash, P: Drop> {
    /// Why it ended.
    pub end: End,
    /// What is left of the line.
    pub source: S,
    /// The flash of its target.
    pub flash: F,
    /// Its cycles, steps, output writes and dropped bytes, each modulo 2^64.
    pub totals: Totals,
    /// Who started the threads of the target.
    pub targets: P,
    /// The notes, as they were taken.
    pub pass: NoteReceiver,
}

/// What is left where the thread of the line could not be started: all is as it was.
#[derive(Drop)]
pub struct Unserved<S: Source, F: Flash, P: Drop> {
    /// The line, of which nothing was read.
    pub source: S,
    /// The flash, which is the program.
    pub flash: F,
    /// Who starts the threads of the target.
    pub targets: P,
}

/// Serves a session on an emulator that has begun: the line is read on a thread of its own, and each run is made on one.
pub fn serve<
    F: Flash,
    G: Gate,
    S: Source,
    K: Sink,
    R: Wait + Copy,
    P: Spawner<TargetWork<F, G, R>>,
    Q: Spawner<LineWork<S, R>>,
>(
    rt: R,
    emulator: Emulator<F>,
    desk: Desk,
    source: S,
    gate: G,
    targets: P,
    lines: &mut Q,
    sink: &mut K,
) -> Result<Served<S, F, P>, Unserved<S, F, P>>
    requires emulator { IsSoundEmulator F.part emulator }
    requires begun { emulator.tool.mode ≡ stopped }
    requires received { emulator.receiver ≡ record { held = []; dropped = 0 } }
    requires targets { P.sound targets }
    requires lines { Q.sound lines.old }
    ensures serves { IfOk result (λ served. (own : Run F) → emulator.target ≡ Some own →
        Serves (seen F.words F.journal F.faults F.writes) F.part emulator own served.pass.taken served.end served.flash served.totals
        (counts (K.written sink.old) (K.faults sink.old) (P.faults targets))
        (counts (K.written sink.new) (K.faults sink.new) (P.faults served.targets))
        (threads (P.starts targets) (P.joins targets)) (threads (P.starts served.targets) (P.joins served.targets))) }
    ensures line { IfOk result (λ served. TakesLine S.left S.faults source served.source served.pass.taken) }
    ensures lines { OnOk result (RoseBy 1 (threads (Q.starts lines.old) (Q.joins lines.old)) (threads (Q.starts lines.new) (Q.joins lines.new))) }
    ensures unserved { IfErr result (λ left. (left.source ≡ source) × (left.targets ≡ targets) × (sink.new ≡ sink.old)) }
    ensures program { IfErr result (λ left. (own : Run F) → emulator.target ≡ Some own → left.flash ≡ own.flash) }
    ensures refused { OnErr result (Rose (Q.faults lines.old) (Q.faults lines.new)) }
    ensures sound { Q.sound lines.new }
{
    let Desk {
        line,
        target,
        receiver,
        raiser,
    } = desk;
    let mut receiver = receiver;
    match lines.start(LineWork::of(rt, source, line)) {
        Err(work) => {
            let LineDone { source, sender: _ } = work.undo();
            let (flash, _) = emulator.finish();
            Err(Unserved {
                source,
                flash,
                targets,
            })
        }
        Ok(ticket) => {
            let runner = Threaded::of(rt, raiser, target, gate, targets);
            let (runner, left) = session(&rt, emulator, runner, &mut receiver, sink);
            let LineDone { source, sender } = lines.join(ticket);
            receiver.take_in(sender);
            let Remains { end, flash, totals } = left;
            Ok(Served {
                end,
                source,
                flash,
                totals,
                targets: runner.finish(),
                pass: receiver,
            })
        }
    }
}
