//! A session over any runner: its notes are taken one by one.
ghost use Rattle.std.specs.Prelude.{◌≡◌, ◌<◌, ◌≤◌, ◌+◌, ◌^◌, ◌++◌, ◌||◌, List, [], true, false, length, Some};
ghost use Rattle.part_spec.specs.Chip.{chip_of};
ghost use Rattle.debug_spec.specs.Debugger.{closed, stopped};
ghost use Rattle.flash_patch.specs.Asking.{seen};
ghost use Rattle.run_control.specs.declared.job.Job.{Job as Run};
ghost use Rattle.ice_inbox.specs.Notes.{has_last, is_last as is_last_note, line_limit};
ghost use Rattle.ice_inbox.specs.declared.inbox.Note.{Note as Sent};
ghost use Rattle.ice_emul.specs.Standing.{IsSoundEmulator};
ghost use Rattle.ice_emul.specs.Taking.{takes_line};
ghost use Rattle.ice_serve.specs.Keeping.{IsKept, IsPlaced, seen_as};
ghost use Rattle.ice_serve.specs.Inbox.{SessionGoes, notes_of};
ghost use Rattle.ice_serve.specs.Endings.{GoesSoFar, IsServed, StandsClosed, counts, end_by};

use crate::note::{Why, take_note};
use flash_patch::FlashFault;
use ice_base::{Flash, Sink};
use ice_emul::{Emulator, Totals};
use ice_inbox::{Note, NoteReceiver};
use run_control::Runner;
use std::sync::Wait;

/// Why a session that is served ended.
#[derive(Clone, Copy, Debug, PartialEq, Eq)]
pub enum End {
    /// The line ended, or a sign-off was answered, and the flash is the program again.
    Okay,
    /// So it was, but a page could not be written.
    Flash,
    /// The line failed while the debugger listened.
    Read,
    /// An answer or an event could not be written.
    Write,
    /// The line has more bytes than a session takes.
    TooLong,
}

/// What is left of a session.
#[derive(Drop)]
pub struct Remains<F: Flash> {
    /// Why it ended.
    pub end: End,
    /// The flash of its target.
    pub flash: F,
    /// Its cycles, steps, output writes and dropped bytes, each modulo 2^64.
    pub totals: Totals,
}

/// A session that is closed.
#[derive(Drop)]
struct Over {
    /// Why it ended, beside its closing restore.
    why: Why,
    /// Whether its flash is the program again.
    restored: Result<(), FlashFault>,
    /// The last note of the line was taken.
    last: bool,
}

/// Serves a session on an emulator that has begun, with a runner whose job can be collected as soon as it is out. The notes are taken up to
/// the last one of the line; those behind the end of the session are ignored.
pub fn session<F: Flash, X: Runner<F>, K: Sink, R: Wait>(
    rt: &R,
    emulator: Emulator<F>,
    runner: X,
    receiver: &mut NoteReceiver,
    sink: &mut K,
) -> (X, Remains<F>)
    requires emulator { IsSoundEmulator F.part emulator }
    requires begun { emulator.tool.mode ≡ stopped }
    requires received { emulator.receiver ≡ record { held = []; dropped = 0 } }
    requires sound { X.sound runner }
    requires free { X.is_out runner ≡ false }
    requires unused { (X.launches runner ≡ 0) × (X.collects runner ≡ 0) }
    requires ready { (x : X) → X.is_out x ≡ true → X.is_ready x ≡ true }
    requires untaken { receiver.old.taken ≡ [] }
    ensures sound { X.sound result.0 }
    ensures free { X.is_out result.0 ≡ false }
    ensures joined { X.collects result.0 ≡ X.launches result.0 }
    ensures kept { X.kept result.0 ≡ X.kept runner }
    ensures few { X.launches result.0 ≤ line_limit }
    ensures last { has_last receiver.new.taken ≡ true }
    ensures inbox { (receiver.new.inbox ≡ receiver.old.inbox) × (receiver.new.known ≡ receiver.old.known) }
    ensures serves { (own : Run F) → emulator.target ≡ Some own →
        SessionGoes receiver.new.taken (λ notes. IsServed (seen F.words F.journal F.faults F.writes) F.part emulator own notes result.1.end
        result.1.flash result.1.totals (X.launches result.0) (counts (K.written sink.old) (K.faults sink.old) (X.faults runner))
        (counts (K.written sink.new) (K.faults sink.new) (X.faults result.0))) }
{
    let mut emulator = emulator;
    let mut runner = runner;
    let mut launches = 0;
    let over = take_notes(
        rt,
        &mut emulator,
        &mut runner,
        &mut launches,
        receiver,
        sink,
    );
    take_rest(rt, receiver, over.last);
    let (flash, totals) = emulator.finish();
    let end = end_of(over.why, over.restored);
    (runner, Remains { end, flash, totals })
}

/// The end of a session: its closing restore matters where nothing came before.
fn end_of(why: Why, restored: Result<(), FlashFault>) -> End
    ensures { result ≡ end_by why restored }
{
    match why {
        Why::Okay => match restored {
            Ok(()) => End::Okay,
            Err(_) => End::Flash,
        },
        Why::Read => End::Read,
        Why::Write => End::Write,
        Why::TooLong => End::TooLong,
    }
}

/// Behind such a note the line sends no more.
fn is_last(note: &Note) -> bool
    ensures { result ≡ is_last_note note.now }
{
    match note {
        Note::Bytes(_) => false,
        Note::LineEnd => true,
        Note::LineFault => true,
        Note::TooLong => true,
        Note::Halted(_) => false,
    }
}

/// The last note of the line was taken before, or is this one.
fn last_with(last: bool, note: &Note) -> bool
    ensures { result ≡ (last || is_last_note note.now) }
{
    last || is_last(note)
}

/// Takes notes until the session is closed.
fn take_notes<F: Flash, X: Runner<F>, K: Sink, R: Wait>(
    rt: &R,
    emulator: &mut Emulator<F>,
    runner: &mut X,
    launches: &mut u64,
    receiver: &mut NoteReceiver,
    sink: &mut K,
) -> Over
    requires placed { IsPlaced (seen F.words F.journal F.faults F.writes) F.part emulator.old
        (seen_as (X.is_out runner.old) (X.raised runner.old) (X.may_give runner.old) (X.launches runner.old) (X.collects runner.old) (X.faults runner.old)) }
    requires sound { X.sound runner.old }
    requires ready { (x : X) → X.is_out x ≡ true → X.is_ready x ≡ true }
    requires takes { takes_line emulator.old.tool.mode ≡ true }
    requires counted { launches.old ≡ X.launches runner.old }
    requires unused { (launches.old ≡ 0) × (emulator.old.receiver.held ≡ []) }
    requires untaken { receiver.old.taken ≡ [] }
    ensures placed { IsPlaced (seen F.words F.journal F.faults F.writes) F.part emulator.new
        (seen_as (X.is_out runner.new) (X.raised runner.new) (X.may_give runner.new) (X.launches runner.new) (X.collects runner.new) (X.faults runner.new)) }
    ensures sound { X.sound runner.new }
    ensures kept { X.kept runner.new ≡ X.kept runner.old }
    ensures few { X.launches runner.new ≤ line_limit }
    ensures stands { StandsClosed result.restored emulator.new.tool.mode }
    ensures last { result.last ≡ has_last receiver.new.taken }
    ensures inbox { (receiver.new.inbox ≡ receiver.old.inbox) × (receiver.new.known ≡ receiver.old.known) }
    ensures serves { (job : Run F) → IsKept (seen F.words F.journal F.faults F.writes) F.part emulator.old job
        (seen_as (X.is_out runner.old) (X.raised runner.old) (X.may_give runner.old) (X.launches runner.old) (X.collects runner.old) (X.faults runner.old)) →
        GoesSoFar (seen F.words F.journal F.faults F.writes) F.part result.why (Some result.restored) (notes_of receiver.new.taken)
        emulator.old job
        (seen_as (X.is_out runner.old) (X.raised runner.old) (X.may_give runner.old) (X.launches runner.old) (X.collects runner.old) (X.faults runner.old))
        (K.written sink.old) (K.written sink.new) (K.faults sink.old) (K.faults sink.new) emulator.new
        (seen_as (X.is_out runner.new) (X.raised runner.new) (X.may_give runner.new) (X.launches runner.new) (X.collects runner.new) (X.faults runner.new)) }
{
    let mut why = Why::Okay;
    let mut last = false;
    'notes: for _ in rt.forever() {
        let note = receiver.take(rt);
        last = last_with(last, &note);
        let noted = take_note(&note, emulator, runner, launches, sink);
        why = why.or(noted.why);
        match noted.over {
            None => {}
            Some(restored) => {
                return Over {
                    why,
                    restored,
                    last,
                };
            }
        }
    }
    unreachable!()
}

/// Takes and ignores the notes up to the last one of the line, told whether that was taken.
fn take_rest<R: Wait>(rt: &R, receiver: &mut NoteReceiver, last: bool)
    requires { last ≡ has_last receiver.old.taken }
    ensures rest { (later : List Sent) × (receiver.new.taken ≡ receiver.old.taken ++ later) }
    ensures last { has_last receiver.new.taken ≡ true }
    ensures inbox { (receiver.new.inbox ≡ receiver.old.inbox) × (receiver.new.known ≡ receiver.old.known) }
{
    if last {
        return;
    }
    'notes: for _ in rt.forever() {
        let note = receiver.take(rt);
        if is_last(&note) {
            return;
        }
    }
    unreachable!()
}
