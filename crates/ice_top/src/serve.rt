//! A session with a client, whose target runs on a thread of its own.
ghost use Rattle.std.specs.Prelude.{◌≡◌, ◌≤◌, ℕ, List, [], Option, None, IfSome, MatchOption, length};
ghost use Rattle.part_spec.specs.Chip.{chip_of, words_of};
ghost use Rattle.debug_spec.specs.Debugger.{stopped};
ghost use Rattle.flash_patch.specs.Asking.{seen};
ghost use Rattle.ice_emul.specs.Session.{Begins};
ghost use Rattle.ice_emul.specs.Standing.{IsSoundEmulator};
ghost use Rattle.ice_line.specs.Lines.{line_at};
ghost use Rattle.ice_serve.specs.Serving.{TakesLine};
ghost use Rattle.ice_top.specs.Outside.{ends_at, outside};
ghost use Rattle.ice_top.specs.ServedPlain.{AreServedAsPlain};
ghost use Rattle.ice_top.specs.Servings.{RanServed, ServesBy, around, starter, status_for};
ghost use Rattle.ice_top.specs.Words.{Says, SaysFor, SaysNoServe, serving, texts};

use crate::notes::refused;
use crate::opening::{give_back, load, refuse};
use crate::words::{Call, Form, call_of};
use crate::{Ended, Status};
use ice_base::{Flash, Gate, Loader, Sink, Source, Spawner};
use ice_emul::{Emulator, Totals};
use ice_inbox::{LineWork, NoteReceiver, TargetWork};
use ice_serve::{Desk, End, open_desk};
use part_spec::Part;
use std::alloc::Global;
use std::sync::Wait;

/// The end of a session with a client.
#[derive(Drop)]
pub struct Served<S: Source, F: Flash, P: Drop> {
    /// How the call ended.
    pub status: Status,
    /// What is left of the line.
    pub source: S,
    /// The flash as it is then.
    pub flash: F,
    /// Who started the threads of the target.
    pub targets: P,
    /// The notes of the line and of the target, as they were taken; none where no session opened.
    pub pass: Option<NoteReceiver>,
    /// The totals of the session; none where none opened.
    pub totals: Option<Totals>,
}

/// The image of a session with a client.
#[derive(Drop)]
struct Service<'a> {
    /// The part that the target is.
    part: Part,
    /// The name of the image.
    image: &'a str,
}

/// Debugs the program of an image for one client, over a line of AVR067 that may bring bytes at any time: a thread of its own reads the
/// line, and another makes each run, so that a forced stop arrives while the target runs.
///
/// The words are `serve PORT IMAGE`, with `m16` or `m32` behind them or none, which `part_of` reads; the flash is that of this part. The
/// loader gives the image as for `ice2`, and the flash is made the program. The controller takes one note at a time, of the line or of
/// the target; replies and break events go to the sink. After a failed write the line counts as ended. Behind the end of the session the
/// notes are taken and ignored up to the line's last. A launch whose thread cannot be started is answered FAILED; where that of the line
/// cannot, no session opens, and the flash is the program. The first cause in time gives the status; a line that fails, or that has more
/// than 67,108,864 bytes, is one while no sign-off was answered. All memory but that of threads is taken before the flash is touched.
///
/// The call waits for the threads, and so for the line and its client.
pub fn ice2_serve<
    L: Loader,
    S: Source,
    K: Sink,
    E: Sink,
    F: Flash,
    G: Gate,
    R: Wait + Copy,
    P: Spawner<TargetWork<F, G, R>>,
    Q: Spawner<LineWork<S, R>>,
>(
    rt: &R,
    alloc: Global,
    words: &[String],
    loader: &mut L,
    source: S,
    sink: &mut K,
    notes: &mut E,
    flash: F,
    gate: G,
    targets: P,
    lines: &mut Q,
) -> Served<S, F, P>
    // The flash is that of the part that the words say.
    requires part { SaysFor (texts words.now) (F.part flash) }
    requires targets { P.sound targets }
    requires lines { Q.sound lines.old }
    ensures ends { ServesBy (seen F.words F.journal F.faults F.writes) result.status (texts words.now) result.pass result.totals
        (around (outside (L.contents loader.old) (L.faults loader.old)
        (ends_at (line_at (S.left source) (S.faults source) (K.written sink.old) (K.faults sink.old))
        (E.written notes.old) (E.faults notes.old)))
        (starter (P.faults targets) (P.starts targets) (P.joins targets))
        (starter (Q.faults lines.old) (Q.starts lines.old) (Q.joins lines.old)))
        (around (outside (L.contents loader.new) (L.faults loader.new)
        (ends_at (line_at (S.left result.source) (S.faults result.source) (K.written sink.new) (K.faults sink.new))
        (E.written notes.new) (E.faults notes.new)))
        (starter (P.faults result.targets) (P.starts result.targets) (P.joins result.targets))
        (starter (Q.faults lines.new) (Q.starts lines.new) (Q.joins lines.new)))
        flash result.flash }
    // The notes of the line are what the source lost, but for one byte more where it is too long.
    ensures line { IfSome result.pass (λ pass. TakesLine S.left S.faults source result.source pass.taken) }
    // The headline: what was sent is what the plain debugger sends over the same notes, up to the first run that is not clean; and the
    // program is in the flash.
    ensures plain { IfSome result.pass (λ pass. AreServedAsPlain (seen F.words F.journal F.faults F.writes) pass.taken
        (around (outside (L.contents loader.old) (L.faults loader.old)
        (ends_at (line_at (S.left source) (S.faults source) (K.written sink.old) (K.faults sink.old))
        (E.written notes.old) (E.faults notes.old)))
        (starter (P.faults targets) (P.starts targets) (P.joins targets))
        (starter (Q.faults lines.old) (Q.starts lines.old) (Q.joins lines.old)))
        (around (outside (L.contents loader.new) (L.faults loader.new)
        (ends_at (line_at (S.left result.source) (S.faults result.source) (K.written sink.new) (K.faults sink.new))
        (E.written notes.new) (E.faults notes.new)))
        (starter (P.faults result.targets) (P.starts result.targets) (P.joins result.targets))
        (starter (Q.faults lines.new) (Q.starts lines.new) (Q.joins lines.new)))
        flash result.flash) }
    // A session that did not open has not touched the line, nor started a thread of the target.
    ensures untouched { result.pass ≡ None → (result.source ≡ source) × (sink.new ≡ sink.old) × (result.targets ≡ targets) }
    ensures contents { L.contents loader.new ≡ L.contents loader.old }
    ensures loader_counts { L.faults loader.old ≤ L.faults loader.new }
    ensures notes_counts { E.faults notes.old ≤ E.faults notes.new }
    ensures sound { Q.sound lines.new }
{
    let Some(Service { part, image }) = service_of(words) else {
        let status = refused(Status::Usage, b"usage\n", notes);
        return unopened(status, source, flash, targets);
    };
    match load(alloc, part, image, loader) {
        Ok(program) => begin(
            rt,
            alloc,
            program.as_slice(),
            source,
            sink,
            notes,
            flash,
            gate,
            targets,
            lines,
        ),
        Err(why) => unopened(refuse(why, notes), source, flash, targets),
    }
}

/// What the words say, where they say a session with a client.
fn service_of(words: &[String]) -> Option<Service<'_>>
    ensures { MatchOption result (SaysNoServe (texts words.now))
        (λ service. (port : ℕ) × Says (texts words.now) (serving port service.image.now) service.part) }
{
    let Some(Call { form, part }) = call_of(words) else {
        return None;
    };
    match form {
        Form::Serve { image, .. } => Some(Service { part, image }),
        Form::Replay { .. } => None,
        Form::Script { .. } => None,
        Form::Frames => None,
        Form::Gen { .. } => None,
        Form::Listing { .. } => None,
        Form::Verify { .. } => None,
        Form::Assembly => None,
        Form::Connect { .. } => None,
    }
}

/// The end of a call of which no session opened.
fn unopened<S: Source, F: Flash, P: Drop>(
    status: Status,
    source: S,
    flash: F,
    targets: P,
) -> Served<S, F, P>
    ensures status { result.status ≡ status }
    ensures source { result.source ≡ source }
    ensures flash { result.flash ≡ flash }
    ensures targets { result.targets ≡ targets }
    ensures pass { result.pass ≡ None }
    ensures totals { result.totals ≡ None }
{
    Served {
        status,
        source,
        flash,
        targets,
        pass: None,
        totals: None,
    }
}

/// Begins a session, and serves it.
fn begin<
    S: Source,
    K: Sink,
    E: Sink,
    F: Flash,
    G: Gate,
    R: Wait + Copy,
    P: Spawner<TargetWork<F, G, R>>,
    Q: Spawner<LineWork<S, R>>,
>(
    rt: &R,
    alloc: Global,
    program: &[u16],
    source: S,
    sink: &mut K,
    notes: &mut E,
    flash: F,
    gate: G,
    targets: P,
    lines: &mut Q,
) -> Served<S, F, P>
    requires size { length program.now ≡ words_of (chip_of (F.part flash)) }
    requires targets { P.sound targets }
    requires lines { Q.sound lines.old }
    ensures ran { (contents contents_then : Option (List ℕ → Option (List ℕ))) (loader_faults loader_faults_then : ℕ) →
        RanServed (seen F.words F.journal F.faults F.writes) result.status (chip_of (F.part flash)) program.now result.pass result.totals
        (around (outside contents loader_faults
        (ends_at (line_at (S.left source) (S.faults source) (K.written sink.old) (K.faults sink.old))
        (E.written notes.old) (E.faults notes.old)))
        (starter (P.faults targets) (P.starts targets) (P.joins targets))
        (starter (Q.faults lines.old) (Q.starts lines.old) (Q.joins lines.old)))
        (around (outside contents_then loader_faults_then
        (ends_at (line_at (S.left result.source) (S.faults result.source) (K.written sink.new) (K.faults sink.new))
        (E.written notes.new) (E.faults notes.new)))
        (starter (P.faults result.targets) (P.starts result.targets) (P.joins result.targets))
        (starter (Q.faults lines.new) (Q.starts lines.new) (Q.joins lines.new)))
        flash result.flash }
    ensures line { IfSome result.pass (λ pass. TakesLine S.left S.faults source result.source pass.taken) }
    ensures untouched { result.pass ≡ None → (result.source ≡ source) × (sink.new ≡ sink.old) × (result.targets ≡ targets) }
    ensures notes_counts { E.faults notes.old ≤ E.faults notes.new }
    ensures sound { Q.sound lines.new }
{
    let Ok(desk) = open_desk(alloc) else {
        let status = refused(Status::Memory, b"memory\n", notes);
        return unopened(status, source, flash, targets);
    };
    // A flash that tells one of its words has all of them.
    flash.word(0);
    match Emulator::begin(alloc, program, flash) {
        Ok(emulator) => run(
            rt, emulator, desk, source, sink, notes, gate, targets, lines,
        ),
        Err(failed) => {
            let Ended { status, flash } = give_back(failed, notes);
            unopened(status, source, flash, targets)
        }
    }
}

/// Serves a session that has begun.
fn run<
    S: Source,
    K: Sink,
    E: Sink,
    F: Flash,
    G: Gate,
    R: Wait + Copy,
    P: Spawner<TargetWork<F, G, R>>,
    Q: Spawner<LineWork<S, R>>,
>(
    rt: &R,
    emulator: Emulator<F>,
    desk: Desk,
    source: S,
    sink: &mut K,
    notes: &mut E,
    gate: G,
    targets: P,
    lines: &mut Q,
) -> Served<S, F, P>
    requires sound { IsSoundEmulator F.part emulator }
    requires begun { emulator.tool.mode ≡ stopped }
    requires fresh { emulator.receiver ≡ record { held = []; dropped = 0 } }
    requires targets { P.sound targets }
    requires lines { Q.sound lines.old }
    ensures ran { (program : List ℕ) (from : F) (contents contents_then : Option (List ℕ → Option (List ℕ)))
        (loader_faults loader_faults_then : ℕ) →
        Begins (seen F.words F.journal F.faults F.writes) F.part program from emulator →
        length program ≡ words_of (chip_of (F.part from)) → length (F.words from) ≡ words_of (chip_of (F.part from)) →
        RanServed (seen F.words F.journal F.faults F.writes) result.status (chip_of (F.part from)) program result.pass result.totals
        (around (outside contents loader_faults
        (ends_at (line_at (S.left source) (S.faults source) (K.written sink.old) (K.faults sink.old))
        (E.written notes.old) (E.faults notes.old)))
        (starter (P.faults targets) (P.starts targets) (P.joins targets))
        (starter (Q.faults lines.old) (Q.starts lines.old) (Q.joins lines.old)))
        (around (outside contents_then loader_faults_then
        (ends_at (line_at (S.left result.source) (S.faults result.source) (K.written sink.new) (K.faults sink.new))
        (E.written notes.new) (E.faults notes.new)))
        (starter (P.faults result.targets) (P.starts result.targets) (P.joins result.targets))
        (starter (Q.faults lines.new) (Q.starts lines.new) (Q.joins lines.new)))
        from result.flash }
    ensures line { IfSome result.pass (λ pass. TakesLine S.left S.faults source result.source pass.taken) }
    ensures untouched { result.pass ≡ None → (result.source ≡ source) × (sink.new ≡ sink.old) × (result.targets ≡ targets) }
    ensures notes_counts { E.faults notes.old ≤ E.faults notes.new }
    ensures sound { Q.sound lines.new }
{
    match ice_serve::serve(*rt, emulator, desk, source, gate, targets, lines, sink) {
        Ok(served) => Served {
            status: status_for(served.end),
            source: served.source,
            flash: served.flash,
            targets: served.targets,
            pass: Some(served.pass),
            totals: Some(served.totals),
        },
        Err(left) => {
            let status = refused(Status::NoThread, b"thread\n", notes);
            unopened(status, left.source, left.flash, left.targets)
        }
    }
}

/// The status of a session that ended for this.
fn status_for(end: End) -> Status
    ensures { result ≡ status_for end }
{
    match end {
        End::Okay => Status::Okay,
        End::Flash => Status::Flash,
        End::Read => Status::Read,
        End::Write => Status::Write,
        End::TooLong => Status::TooLong,
    }
}
