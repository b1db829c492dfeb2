//! One note of the inbox.
ghost use Rattle.std.specs.Prelude.{◌≡◌, ◌<◌, ◌≤◌, ◌+◌, ◌^◌, [], true, false, length};
ghost use Rattle.part_spec.specs.Chip.{chip_of};
ghost use Rattle.debug_spec.specs.Debugger.{listens};
ghost use Rattle.debug_spec.specs.Schedule as book;
ghost use Rattle.flash_patch.specs.Asking.{seen};
ghost use Rattle.run_control.specs.declared.job.Job.{Job as Run};
ghost use Rattle.ice_inbox.specs.Notes.{size_of};
ghost use Rattle.ice_emul.specs.Taking.{takes_line};
ghost use Rattle.ice_serve.specs.Causes.{cause_if, first_cause};
ghost use Rattle.ice_serve.specs.Keeping.{Continues, IsKept, IsPlaced, seen_as};
ghost use Rattle.ice_serve.specs.Notes.{IsQuiet, NotesNothing, StandsBehind, TakesNote, Tells, WritesBy};
ghost use Rattle.ice_serve.specs.Inbox.{note_of};

use crate::chunk::{Chunk, take_chunk};
use crate::ending::{collect, end_line};
use flash_patch::FlashFault;
use ice_base::{Flash, Sink};
use ice_emul::{Emulator, Out};
use ice_inbox::Note;
use ice_line::write_some;
use run_control::Runner;

/// Why a session ends, beside its closing restore.
#[derive(Clone, Copy, Debug, PartialEq, Eq)]
pub(crate) enum Why {
    /// For no fault.
    Okay,
    /// The line failed.
    Read,
    /// Bytes could not be written.
    Write,
    /// The line has more bytes than a session takes.
    TooLong,
}

impl Why {
    /// The first cause decides.
    pub(crate) fn or(self, later: Why) -> Why
        ensures { result ≡ first_cause self later }
    {
        match self {
            Why::Okay => later,
            Why::Read => Why::Read,
            Why::Write => Why::Write,
            Why::TooLong => Why::TooLong,
        }
    }
}

/// What came of a note.
#[derive(Drop)]
pub(crate) struct Noted {
    /// The cause that it brings.
    pub why: Why,
    /// Where the session is closed: whether its flash is the program again.
    pub over: Option<Result<(), FlashFault>>,
}

/// Takes a note.
pub(crate) fn take_note<F: Flash, X: Runner<F>, K: Sink>(
    note: &Note,
    emulator: &mut Emulator<F>,
    runner: &mut X,
    launches: &mut u64,
    sink: &mut K,
) -> Noted
    requires placed { IsPlaced (seen F.words F.journal F.faults F.writes) F.part emulator.old
        (seen_as (X.is_out runner.old) (X.raised runner.old) (X.may_give runner.old) (X.launches runner.old) (X.collects runner.old) (X.faults runner.old)) }
    requires sound { X.sound runner.old }
    requires ready { (x : X) → X.is_out x ≡ true → X.is_ready x ≡ true }
    requires takes { takes_line emulator.old.tool.mode ≡ true }
    requires counted { launches.old ≡ X.launches runner.old }
    requires few { launches.old + length emulator.old.receiver.held + size_of note.now < 2 ^ 62 }
    ensures placed { IsPlaced (seen F.words F.journal F.faults F.writes) F.part emulator.new
        (seen_as (X.is_out runner.new) (X.raised runner.new) (X.may_give runner.new) (X.launches runner.new) (X.collects runner.new) (X.faults runner.new)) }
    ensures sound { X.sound runner.new }
    ensures kept { X.kept runner.new ≡ X.kept runner.old }
    ensures counted { launches.new ≡ X.launches runner.new }
    ensures few { launches.new + length emulator.new.receiver.held ≤ launches.old + length emulator.old.receiver.held + size_of note.now }
    ensures stands { StandsBehind result.over emulator.new.tool.mode }
    ensures part { emulator.new.tool.plan.part ≡ emulator.old.tool.plan.part }
    ensures quiet { IsQuiet result emulator.old.tool.mode emulator.new.tool.mode }
    ensures ignores { listens emulator.old.tool.mode ≡ false →
        NotesNothing result (K.written sink.old) (K.written sink.new) (K.faults sink.old) (K.faults sink.new) }
    ensures takes { (job : Run F) → IsKept (seen F.words F.journal F.faults F.writes) F.part emulator.old job
        (seen_as (X.is_out runner.old) (X.raised runner.old) (X.may_give runner.old) (X.launches runner.old) (X.collects runner.old) (X.faults runner.old)) →
        TakesNote (seen F.words F.journal F.faults F.writes) F.part (note_of note.now) result emulator.old job
        (seen_as (X.is_out runner.old) (X.raised runner.old) (X.may_give runner.old) (X.launches runner.old) (X.collects runner.old) (X.faults runner.old))
        (K.written sink.old) (K.written sink.new) (K.faults sink.old) (K.faults sink.new) emulator.new
        (seen_as (X.is_out runner.new) (X.raised runner.new) (X.may_give runner.new) (X.launches runner.new) (X.collects runner.new) (X.faults runner.new)) }
{
    match note {
        Note::Bytes(bytes) => take_bytes(bytes.as_slice(), emulator, runner, launches, sink),
        Note::LineEnd => end_for(Why::Okay, emulator, runner),
        Note::LineFault => end_for(Why::Read, emulator, runner),
        Note::TooLong => end_for(Why::TooLong, emulator, runner),
        Note::Halted(number) => take_halt(*number, emulator, runner, *launches, sink),
    }
}

/// Takes a chunk of the line. Where an answer can't be written, the line ends behind its frame.
fn take_bytes<F: Flash, X: Runner<F>, K: Sink>(
    chunk: &[u8],
    emulator: &mut Emulator<F>,
    runner: &mut X,
    launches: &mut u64,
    sink: &mut K,
) -> Noted
    requires placed { IsPlaced (seen F.words F.journal F.faults F.writes) F.part emulator.old
        (seen_as (X.is_out runner.old) (X.raised runner.old) (X.may_give runner.old) (X.launches runner.old) (X.collects runner.old) (X.faults runner.old)) }
    requires sound { X.sound runner.old }
    requires takes { takes_line emulator.old.tool.mode ≡ true }
    requires counted { launches.old ≡ X.launches runner.old }
    requires few { launches.old + length emulator.old.receiver.held + length chunk.now < 2 ^ 62 }
    ensures placed { IsPlaced (seen F.words F.journal F.faults F.writes) F.part emulator.new
        (seen_as (X.is_out runner.new) (X.raised runner.new) (X.may_give runner.new) (X.launches runner.new) (X.collects runner.new) (X.faults runner.new)) }
    ensures sound { X.sound runner.new }
    ensures kept { X.kept runner.new ≡ X.kept runner.old }
    ensures counted { launches.new ≡ X.launches runner.new }
    ensures few { launches.new + length emulator.new.receiver.held ≤ launches.old + length emulator.old.receiver.held + length chunk.now }
    ensures stands { StandsBehind result.over emulator.new.tool.mode }
    ensures part { emulator.new.tool.plan.part ≡ emulator.old.tool.plan.part }
    ensures quiet { IsQuiet result emulator.old.tool.mode emulator.new.tool.mode }
    ensures ignores { listens emulator.old.tool.mode ≡ false →
        NotesNothing result (K.written sink.old) (K.written sink.new) (K.faults sink.old) (K.faults sink.new) }
    ensures takes { (job : Run F) → IsKept (seen F.words F.journal F.faults F.writes) F.part emulator.old job
        (seen_as (X.is_out runner.old) (X.raised runner.old) (X.may_give runner.old) (X.launches runner.old) (X.collects runner.old) (X.faults runner.old)) →
        TakesNote (seen F.words F.journal F.faults F.writes) F.part (book.bytes chunk.now) result emulator.old job
        (seen_as (X.is_out runner.old) (X.raised runner.old) (X.may_give runner.old) (X.launches runner.old) (X.collects runner.old) (X.faults runner.old))
        (K.written sink.old) (K.written sink.new) (K.faults sink.old) (K.faults sink.new) emulator.new
        (seen_as (X.is_out runner.new) (X.raised runner.new) (X.may_give runner.new) (X.launches runner.new) (X.collects runner.new) (X.faults runner.new)) }
{
    match take_chunk(emulator, runner, launches, chunk, sink) {
        Chunk::Taken => Noted {
            why: Why::Okay,
            over: None,
        },
        Chunk::Closed(restored) => Noted {
            why: Why::Okay,
            over: Some(restored),
        },
        Chunk::Unsent => Noted {
            why: Why::Write,
            over: end_line(emulator, runner),
        },
        Chunk::ClosedUnsent => Noted {
            why: Why::Write,
            over: Some(Ok(())),
        },
    }
}

/// Ends the line. What it ended for matters while the debugger listens.
fn end_for<F: Flash, X: Runner<F>>(why: Why, emulator: &mut Emulator<F>, runner: &mut X) -> Noted
    requires placed { IsPlaced (seen F.words F.journal F.faults F.writes) F.part emulator.old
        (seen_as (X.is_out runner.old) (X.raised runner.old) (X.may_give runner.old) (X.launches runner.old) (X.collects runner.old) (X.faults runner.old)) }
    requires sound { X.sound runner.old }
    requires takes { takes_line emulator.old.tool.mode ≡ true }
    ensures placed { IsPlaced (seen F.words F.journal F.faults F.writes) F.part emulator.new
        (seen_as (X.is_out runner.new) (X.raised runner.new) (X.may_give runner.new) (X.launches runner.new) (X.collects runner.new) (X.faults runner.new)) }
    ensures sound { X.sound runner.new }
    ensures kept { X.kept runner.new ≡ X.kept runner.old }
    ensures counts { X.launches runner.new ≡ X.launches runner.old }
    ensures cause { result.why ≡ cause_if (listens emulator.old.tool.mode) why }
    ensures stands { StandsBehind result.over emulator.new.tool.mode }
    ensures part { emulator.new.tool.plan.part ≡ emulator.old.tool.plan.part }
    ensures deaf { listens emulator.new.tool.mode ≡ false }
    ensures receiver { emulator.new.receiver ≡ emulator.old.receiver }
    ensures line { (job : Run F) → IsKept (seen F.words F.journal F.faults F.writes) F.part emulator.old job
        (seen_as (X.is_out runner.old) (X.raised runner.old) (X.may_give runner.old) (X.launches runner.old) (X.collects runner.old) (X.faults runner.old)) →
        Continues (seen F.words F.journal F.faults F.writes) F.part (λ s t. t ≡ book.line_ended (chip_of emulator.old.tool.plan.part) s)
        emulator.old job
        (seen_as (X.is_out runner.old) (X.raised runner.old) (X.may_give runner.old) (X.launches runner.old) (X.collects runner.old) (X.faults runner.old))
        [] emulator.new
        (seen_as (X.is_out runner.new) (X.raised runner.new) (X.may_give runner.new) (X.launches runner.new) (X.collects runner.new) (X.faults runner.new)) }
{
    let why = if emulator.listens() { why } else { Why::Okay };
    let over = end_line(emulator, runner);
    Noted { why, over }
}

/// Takes the end of a run, where it is the newest one and is out. It is written while the session goes on; where it can't be, the line ends.
fn take_halt<F: Flash, X: Runner<F>, K: Sink>(
    number: u64,
    emulator: &mut Emulator<F>,
    runner: &mut X,
    launches: u64,
    sink: &mut K,
) -> Noted
    requires placed { IsPlaced (seen F.words F.journal F.faults F.writes) F.part emulator.old
        (seen_as (X.is_out runner.old) (X.raised runner.old) (X.may_give runner.old) (X.launches runner.old) (X.collects runner.old) (X.faults runner.old)) }
    requires sound { X.sound runner.old }
    requires ready { (x : X) → X.is_out x ≡ true → X.is_ready x ≡ true }
    requires takes { takes_line emulator.old.tool.mode ≡ true }
    requires counted { launches ≡ X.launches runner.old }
    ensures placed { IsPlaced (seen F.words F.journal F.faults F.writes) F.part emulator.new
        (seen_as (X.is_out runner.new) (X.raised runner.new) (X.may_give runner.new) (X.launches runner.new) (X.collects runner.new) (X.faults runner.new)) }
    ensures sound { X.sound runner.new }
    ensures kept { X.kept runner.new ≡ X.kept runner.old }
    ensures counts { X.launches runner.new ≡ X.launches runner.old }
    ensures stands { StandsBehind result.over emulator.new.tool.mode }
    ensures part { emulator.new.tool.plan.part ≡ emulator.old.tool.plan.part }
    ensures quiet { IsQuiet result emulator.old.tool.mode emulator.new.tool.mode }
    ensures receiver { emulator.new.receiver ≡ emulator.old.receiver }
    ensures ignores { listens emulator.old.tool.mode ≡ false →
        NotesNothing result (K.written sink.old) (K.written sink.new) (K.faults sink.old) (K.faults sink.new) }
    ensures takes { (job : Run F) → IsKept (seen F.words F.journal F.faults F.writes) F.part emulator.old job
        (seen_as (X.is_out runner.old) (X.raised runner.old) (X.may_give runner.old) (X.launches runner.old) (X.collects runner.old) (X.faults runner.old)) →
        TakesNote (seen F.words F.journal F.faults F.writes) F.part (book.halted number) result emulator.old job
        (seen_as (X.is_out runner.old) (X.raised runner.old) (X.may_give runner.old) (X.launches runner.old) (X.collects runner.old) (X.faults runner.old))
        (K.written sink.old) (K.written sink.new) (K.faults sink.old) (K.faults sink.new) emulator.new
        (seen_as (X.is_out runner.new) (X.raised runner.new) (X.may_give runner.new) (X.launches runner.new) (X.collects runner.new) (X.faults runner.new)) }
{
    if emulator.state() != 1 || number != launches {
        return Noted {
            why: Why::Okay,
            over: None,
        };
    }
    let mut event = Out::new();
    match collect(emulator, runner, &mut event) {
        Some(restored) => Noted {
            why: Why::Okay,
            over: Some(restored),
        },
        None => tell(&event, emulator, runner, sink),
    }
}

/// Writes the end of a run that was told. Where it can't be written, the line ends.
fn tell<F: Flash, X: Runner<F>, K: Sink>(
    event: &Out,
    emulator: &mut Emulator<F>,
    runner: &mut X,
    sink: &mut K,
) -> Noted
    requires placed { IsPlaced (seen F.words F.journal F.faults F.writes) F.part emulator.old
        (seen_as (X.is_out runner.old) (X.raised runner.old) (X.may_give runner.old) (X.launches runner.old) (X.collects runner.old) (X.faults runner.old)) }
    requires sound { X.sound runner.old }
    requires takes { takes_line emulator.old.tool.mode ≡ true }
    ensures placed { IsPlaced (seen F.words F.journal F.faults F.writes) F.part emulator.new
        (seen_as (X.is_out runner.new) (X.raised runner.new) (X.may_give runner.new) (X.launches runner.new) (X.collects runner.new) (X.faults runner.new)) }
    ensures sound { X.sound runner.new }
    ensures kept { X.kept runner.new ≡ X.kept runner.old }
    ensures counts { X.launches runner.new ≡ X.launches runner.old }
    ensures stands { StandsBehind result.over emulator.new.tool.mode }
    ensures part { emulator.new.tool.plan.part ≡ emulator.old.tool.plan.part }
    ensures quiet { IsQuiet result emulator.old.tool.mode emulator.new.tool.mode }
    ensures receiver { emulator.new.receiver ≡ emulator.old.receiver }
    ensures writes { WritesBy result.why result.over (K.written sink.old) (K.written sink.new) (K.faults sink.old) (K.faults sink.new) event.now.items }
    ensures tells { (job : Run F) → IsKept (seen F.words F.journal F.faults F.writes) F.part emulator.old job
        (seen_as (X.is_out runner.old) (X.raised runner.old) (X.may_give runner.old) (X.launches runner.old) (X.collects runner.old) (X.faults runner.old)) →
        Continues (seen F.words F.journal F.faults F.writes) F.part (Tells result.why (chip_of emulator.old.tool.plan.part))
        emulator.old job
        (seen_as (X.is_out runner.old) (X.raised runner.old) (X.may_give runner.old) (X.launches runner.old) (X.collects runner.old) (X.faults runner.old))
        [] emulator.new
        (seen_as (X.is_out runner.new) (X.raised runner.new) (X.may_give runner.new) (X.launches runner.new) (X.collects runner.new) (X.faults runner.new)) }
{
    if write_some(event.as_slice(), sink) {
        return Noted {
            why: Why::Okay,
            over: None,
        };
    }
    Noted {
        why: Why::Write,
        over: end_line(emulator, runner),
    }
}
