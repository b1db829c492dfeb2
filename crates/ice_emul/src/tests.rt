//! Sessions worked by hand: the bytes sent, the page writes, the totals, and the device at the end.
ghost use Rattle.std.specs.Prelude.{◌≡◌, ◌<◌, ◌≤◌, ℕ, Bool, [], true, is_some, IfOk, IfSome, vec_len};
ghost use Rattle.part_spec.specs.Chip.{chip_of, words_of};
ghost use Rattle.ice_base.specs.MemFlash.{WritesPage};
ghost use Rattle.run_control.specs.Runs.{MayAdvance};
ghost use Rattle.debug_spec.specs.Debugger.{is_out};
ghost use Rattle.ice_emul.specs.Launching.{IsOwn};
ghost use Rattle.ice_emul.specs.Standing.{IsLaunched, IsSoundEmulator};
ghost use Rattle.ice_emul.specs.Taking.{is_launching, takes_line};

mod cases;
mod rows;

use crate::{BeginError, Emulator, Input, Next, Out, Totals};
use arrayvec::ArrayVec;
use cases::{CASES, Case};
use ice_base::{Flash, LoggedWrite, MemFlash, Part};
use ice_frame::{Frame, write_frame};
use part_spec::PAGE_WORDS;
use rows::{Exchange, ROWS, Row};
use run_control::{Done, Halt, Job, StopLook, Turn};
use std::alloc::{AllocError, Global};
use std::test::Fail;

/// Room for all bytes that a session sends.
type Sent = ArrayVec<u8, 8192>;

/// Never tells a run to stop.
#[derive(Drop)]
struct Never {
    looks: u64,
}

impl StopLook for Never {
    ghost use Rattle.std.specs.Prelude.{false, ⊤};

    ghost Mark = { ⊤ };

    ghost looks = { λ s. s.looks };

    ghost yes = { λ s. 0 };

    ghost last = { λ s. false };

    ghost mark = { λ s. tt };

    fn look(&mut self) -> bool {
        self.looks = self.looks.wrapping_add(1);
        false
    }
}

/// Where a session stands behind a call.
#[derive(Clone, Copy, Debug, PartialEq, Eq)]
enum Stage {
    /// It goes on.
    Goes,
    /// It is closed, and whether its flash is the program again.
    Closed(bool),
    /// The emulator asked for what no session asks for.
    Stuck,
}

/// What is kept beside the emulator.
#[derive(Drop)]
struct Rest {
    /// The bytes sent so far.
    sent: Sent,
    /// The launches so far.
    launches: u32,
    /// The launch that is denied, by number from 1.
    denied: u32,
    /// The steps of the first launch, and of each later one.
    steps: (u32, u32),
}

impl Rest {
    /// Keeps what was sent. Where there is no room the bytes are missing, and the session comes to other bytes.
    fn keep(&mut self, out: &Out) {
        let _ = self.sent.try_extend_from_slice(out.as_slice());
    }

    /// Counts a launch. Answers its steps, at least 1, where it is not denied.
    fn launch(&mut self) -> Option<u32>
        ensures { IfSome result (λ steps. 1 ≤ steps) }
    {
        self.launches = self.launches.wrapping_add(1);
        if self.launches == self.denied {
            return None;
        }
        let (first, others) = self.steps;
        Some(if self.launches == 1 {
            first.max(1)
        } else {
            others.max(1)
        })
    }
}

/// Makes a run, up to its end or so many steps: how it ended.
fn run(job: &mut Job<MemFlash>, steps: u32) -> Option<Halt>
    requires some { 1 ≤ steps }
    requires fresh { job.old.fresh ≡ true }
    requires part { chip_of job.old.flash.part ≡ job.old.core.part }
    requires replant { IfSome job.old.replant (λ asked. asked.0 < job.old.core.part.pages) }
    ensures flash { job.new.flash.part ≡ job.old.flash.part }
    ensures core { job.new.core.part ≡ job.old.core.part }
{
    let mut look = Never { looks: 0 };
    match job.advance(steps, &mut look) {
        Turn::Halted(halt) => Some(halt),
        Turn::NotYet => None,
    }
}

/// The end of a run is taken.
fn end_run(emulator: &mut Emulator<MemFlash>, done: Done<MemFlash>, rest: &mut Rest) -> Stage
    requires sound { IsSoundEmulator (λ f. f.part) emulator.old }
    requires out { is_out emulator.old.tool.mode ≡ true }
    requires own { IsOwn (λ f. f.part) emulator.old.tool done.job }
    ensures sound { IsSoundEmulator (λ f. f.part) emulator.new }
    ensures goes { result ≡ Stage.Goes → takes_line emulator.new.tool.mode ≡ true }
    ensures part { emulator.new.tool.plan.part ≡ emulator.old.tool.plan.part }
    ensures closed { (ok : Bool) → result ≡ Stage.Closed ok → is_some emulator.new.target ≡ true }
{
    let mut out = Out::new();
    let next = emulator.take(Input::Halted(done), &mut out).next;
    rest.keep(&out);
    match next {
        Next::Answered => Stage::Goes,
        Next::Closed(restored) => Stage::Closed(restored.is_ok()),
        _ => Stage::Stuck,
    }
}

/// A prepared run is launched, or denied. One that makes all its steps is kept.
fn launch(
    emulator: &mut Emulator<MemFlash>,
    job: Job<MemFlash>,
    held: &mut Option<Job<MemFlash>>,
    rest: &mut Rest,
) -> Stage
    requires sound { IsSoundEmulator (λ f. f.part) emulator.old }
    requires launching { is_launching emulator.old.tool.mode ≡ true }
    requires launched { IsLaunched (λ f. f.part) emulator.old.tool job }
    requires replant { IfSome job.replant (λ asked. asked.0 < job.core.part.pages) }
    requires held { IfSome held.old (λ own. IsOwn (λ f. f.part) emulator.old.tool own) }
    ensures sound { IsSoundEmulator (λ f. f.part) emulator.new }
    ensures goes { result ≡ Stage.Goes → takes_line emulator.new.tool.mode ≡ true }
    ensures held { IfSome held.new (λ own. IsOwn (λ f. f.part) emulator.new.tool own) }
    ensures closed { (ok : Bool) → result ≡ Stage.Closed ok → is_some emulator.new.target ≡ true }
{
    let mut out = Out::new();
    let Some(steps) = rest.launch() else {
        emulator.launch_failed(job, &mut out);
        rest.keep(&out);
        return Stage::Goes;
    };
    emulator.launched(&mut out);
    rest.keep(&out);
    let mut job = job;
    match run(&mut job, steps) {
        Some(halt) => end_run(emulator, Done { job, halt }, rest),
        None => {
            *held = Some(job);
            Stage::Goes
        }
    }
}

/// The run that is out is stopped.
fn stop(
    emulator: &mut Emulator<MemFlash>,
    held: &mut Option<Job<MemFlash>>,
    rest: &mut Rest,
) -> Stage
    requires sound { IsSoundEmulator (λ f. f.part) emulator.old }
    requires out { is_out emulator.old.tool.mode ≡ true }
    requires held { IfSome held.old (λ own. IsOwn (λ f. f.part) emulator.old.tool own) }
    ensures sound { IsSoundEmulator (λ f. f.part) emulator.new }
    ensures goes { result ≡ Stage.Goes → takes_line emulator.new.tool.mode ≡ true }
    ensures held { IfSome held.new (λ own. IsOwn (λ f. f.part) emulator.new.tool own) }
    ensures closed { (ok : Bool) → result ≡ Stage.Closed ok → is_some emulator.new.target ≡ true }
{
    match held.take() {
        Some(job) => end_run(
            emulator,
            Done {
                job,
                halt: Halt::Forced,
            },
            rest,
        ),
        None => Stage::Stuck,
    }
}

/// Bytes of the line are taken, or its end where none are given, and what is then to be done is done. Answers how many were used, too.
fn step(
    emulator: &mut Emulator<MemFlash>,
    bytes: &[u8],
    held: &mut Option<Job<MemFlash>>,
    rest: &mut Rest,
) -> (Stage, usize)
    requires sound { IsSoundEmulator (λ f. f.part) emulator.old }
    requires takes { takes_line emulator.old.tool.mode ≡ true }
    requires held { IfSome held.old (λ own. IsOwn (λ f. f.part) emulator.old.tool own) }
    ensures sound { IsSoundEmulator (λ f. f.part) emulator.new }
    ensures goes { result.0 ≡ Stage.Goes → takes_line emulator.new.tool.mode ≡ true }
    ensures held { IfSome held.new (λ own. IsOwn (λ f. f.part) emulator.new.tool own) }
    ensures closed { (ok : Bool) → result.0 ≡ Stage.Closed ok → is_some emulator.new.target ≡ true }
{
    let mut out = Out::new();
    let taken = if bytes.is_empty() {
        emulator.take(Input::LineEnd, &mut out)
    } else {
        emulator.take(Input::Bytes(bytes), &mut out)
    };
    rest.keep(&out);
    let used = taken.used;
    let stage = match taken.next {
        Next::Idle => Stage::Goes,
        Next::Answered => Stage::Goes,
        Next::Launch(job) => launch(emulator, job, held, rest),
        Next::RaiseStop => stop(emulator, held, rest),
        Next::Closed(restored) => Stage::Closed(restored.is_ok()),
    };
    (stage, used)
}

/// What a session came to.
#[derive(Drop)]
struct Came {
    sent: Sent,
    totals: Totals,
    flash: MemFlash,
    /// Whether the flash is the program again.
    restored: bool,
}

/// A session over a line in pieces of at most so many bytes, and over the end of the line; nothing where it does not end.
fn drive(emulator: Emulator<MemFlash>, line: &[u8], cut: usize, rest: Rest) -> Option<Came>
    requires sound { IsSoundEmulator (λ f. f.part) emulator }
    requires takes { takes_line emulator.tool.mode ≡ true }
{
    let mut emulator = emulator;
    let mut rest = rest;
    let mut held = None;
    let mut at = 0;
    'pieces: for _ in 0..200_000u32 {
        let left = line.get(at..).unwrap_or(&[]);
        let piece = &left[..left.len().min(cut)];
        let (stage, used) = step(&mut emulator, piece, &mut held, &mut rest);
        match stage {
            Stage::Goes => at = at.saturating_add(used),
            Stage::Closed(restored) => {
                let (flash, totals) = emulator.finish();
                let sent = rest.sent;
                return Some(Came {
                    sent,
                    totals,
                    flash,
                    restored,
                });
            }
            Stage::Stuck => return None,
        }
    }
    None
}

/// Puts words at an address of others.
fn fill(words: &mut [u16], address: usize, front: &[u16]) {
    for (i, word) in front.iter().enumerate() {
        let place = address.saturating_add(i);
        if place < words.len() {
            words[place] = *word;
        }
    }
}

/// Puts words at their addresses of others.
fn fill_all(words: &mut [u16], given: &[(usize, &[u16])]) {
    for (address, front) in given {
        fill(words, *address, front);
    }
}

/// Puts a BREAK at each of these addresses.
fn plant(words: &mut [u16], set: &[usize]) {
    for address in set {
        if *address < words.len() {
            words[*address] = 0x9598;
        }
    }
}

/// The words of a part's flash with these at their addresses, and all others erased.
fn words_with(alloc: Global, part: Part, given: &[(usize, &[u16])]) -> Result<Vec<u16>, AllocError>
    ensures { IfOk result (λ v. vec_len v ≡ words_of (chip_of part)) }
{
    let mut words = vec![in alloc; 0xFFFF; usize::from(part.words())]?;
    fill_all(&mut words, given);
    Ok(words)
}

/// An erased flash with a journal, whose write calls of these numbers fail behind so many words.
fn flash_of(alloc: Global, part: Part, fails: &[(u64, usize)]) -> Result<MemFlash, AllocError>
    ensures { IfOk result (λ flash. flash.part ≡ part) }
{
    let mut listed = Vec::new(alloc);
    for fail in fails {
        listed.push(*fail)?;
    }
    MemFlash::logged_part(alloc, part, listed, 64)
}

/// What a session is made of.
#[derive(Clone, Copy)]
struct Setting<'a> {
    part: Part,
    /// The program's words at their addresses.
    words: &'a [(usize, &'a [u16])],
    fails: &'a [(u64, usize)],
    denied: u32,
    steps: (u32, u32),
}

/// What a session over a line comes to; nothing where it does not begin, or does not end.
fn session(
    alloc: Global,
    setting: &Setting,
    line: &[u8],
    cut: usize,
) -> Result<Option<Came>, AllocError> {
    let program = words_with(alloc, setting.part, setting.words)?;
    let flash = flash_of(alloc, setting.part, setting.fails)?;
    let rest = Rest {
        sent: Sent::new(),
        launches: 0,
        denied: setting.denied,
        steps: setting.steps,
    };
    match Emulator::begin(alloc, &program, flash) {
        Ok(emulator) => Ok(drive(emulator, line, cut, rest)),
        Err(BeginError::Memory(_)) => Err(AllocError),
        Err(BeginError::Flash(_)) => Ok(None),
    }
}

/// Page 0 of a flash that begins with these words, with a BREAK at each of these addresses.
fn page(front: &[u16], set: &[usize]) -> [u16; PAGE_WORDS] {
    let mut words = [0xFFFF; PAGE_WORDS];
    fill(&mut words, 0, front);
    plant(&mut words, set);
    words
}

/// Whether the page writes are those of page 0 with a BREAK at each of these sets.
fn wrote(journal: &[LoggedWrite], front: &[u16], sets: &[&[usize]]) -> bool {
    if journal.len() != sets.len() {
        return false;
    }
    for i in 0..sets.len() {
        let wanted = LoggedWrite {
            page: 0,
            words: page(front, sets[i]),
        };
        if journal[i] != wanted {
            return false;
        }
    }
    true
}

/// The totals of cycles, steps, output writes and dropped bytes.
fn totals_of(numbers: [u64; 4]) -> Totals {
    let [cycles, steps, writes, dropped] = numbers;
    Totals {
        cycles,
        steps,
        writes,
        dropped,
    }
}

/// Whether a session in pieces of at most so many bytes comes to what is written there.
fn holds(alloc: Global, case: &Case, cut: usize) -> Result<bool, AllocError> {
    let words = [(0, case.words)];
    let setting = Setting {
        part: Part::M16,
        words: &words,
        fails: case.fails,
        denied: case.denied,
        steps: case.steps,
    };
    let Some(came) = session(alloc, &setting, case.line, cut)? else {
        return Ok(false);
    };
    let mut device = words_with(alloc, Part::M16, &words)?;
    plant(&mut device, case.left);
    Ok(
        came.sent.as_slice() == case.sent
            && came.totals == totals_of(case.totals)
            && came.restored == case.left.is_empty()
            && wrote(came.flash.journal(), case.words, case.made)
            && came.flash.words() == device.as_slice(),
    )
}

#[test]
fn sessions_come_to_what_was_worked_out(rt: HostRuntime) -> Result<(), AllocError> {
    for case in &CASES {
        assert!(rt; holds(rt.alloc(), case, usize::MAX)?, "{}", case.name);
        assert!(rt;
            holds(rt.alloc(), case, 1)?,
            "{} in single bytes",
            case.name
        );
    }
    Ok(())
}

/// Puts a frame behind others. Where there is no room it is missing.
fn put(line: &mut Sent, seq: u16, given: &[u8]) {
    let mut frame = Frame {
        seq,
        body: ArrayVec::new(),
    };
    let _ = frame.body.try_extend_from_slice(given);
    let mut bytes: ArrayVec<u8, 4116> = ArrayVec::new();
    write_frame(&frame, &mut bytes);
    let _ = line.try_extend_from_slice(bytes.as_slice());
}

/// The line of a session, and what is sent: a frame for each body, by their place, and the events.
fn frames_of(exchanges: &[Exchange]) -> (Sent, Sent) {
    let mut line = Sent::new();
    let mut sent = Sent::new();
    let mut number = 0u16;
    for (body, reply, event) in exchanges {
        put(&mut line, number, body);
        put(&mut sent, number, reply);
        number = number.wrapping_add(1);
        if let Some((pc, cause)) = event {
            let [low, high] = pc.to_le_bytes();
            put(&mut sent, 0xFFFF, &[0xE0, low, high, 0, 0, *cause]);
        }
    }
    (line, sent)
}

/// Whether a session comes to what is written in a row.
fn answers(alloc: Global, row: &Row) -> Result<bool, AllocError> {
    let (line, sent) = frames_of(row.exchanges);
    let setting = Setting {
        part: row.part,
        words: row.words,
        fails: row.fails,
        denied: 0,
        steps: row.steps,
    };
    let Some(came) = session(alloc, &setting, line.as_slice(), usize::MAX)? else {
        return Ok(false);
    };
    Ok(
        came.sent.as_slice() == sent.as_slice()
            && came.totals == totals_of(row.totals)
            && came.restored
            && came.flash.journal().len() == row.writes,
    )
}

#[test]
fn bodies_are_answered(rt: HostRuntime) -> Result<(), AllocError> {
    for row in &ROWS {
        assert!(rt; answers(rt.alloc(), row)?, "{}", row.name);
    }
    Ok(())
}

/// A session of an ATmega16 over P, whose runs make so many steps; nothing where it does not begin, or does not end.
fn plain(alloc: Global, line: &[u8]) -> Result<Option<Came>, AllocError> {
    let words: [(usize, &[u16]); 1] = [(0, &[0xE001, 0xBB07, 0xBB08, 0xCFFF])];
    let setting = Setting {
        part: Part::M16,
        words: &words,
        fails: &[],
        denied: 0,
        steps: (100, 100),
    };
    session(alloc, &setting, line, usize::MAX)
}

#[test]
fn a_frame_with_the_number_of_events_is_dropped(rt: HostRuntime) -> Result<(), AllocError> {
    let mut line = Sent::new();
    put(&mut line, 0xFFFF, &[0x0F]);
    put(&mut line, 0xFFFE, &[0x0F]);
    let mut sent = Sent::new();
    put(&mut sent, 0xFFFE, &[0x80]);
    let came = plain(rt.alloc(), line.as_slice())?;
    assert!(rt; came.is_some());
    if let Some(came) = came {
        assert!(rt; came.sent.as_slice() == sent.as_slice());
        assert_eq!(rt; came.totals.dropped, 11u64);
    }
    Ok(())
}

#[test]
fn bytes_behind_a_sign_off_are_ignored(rt: HostRuntime) -> Result<(), AllocError> {
    let mut line = Sent::new();
    put(&mut line, 0, &[0x00]);
    let mut sent = Sent::new();
    put(&mut sent, 0, &[0x80]);
    let _ = line.try_extend_from_slice(&[0x55; 20]);
    put(&mut line, 1, &[0x0F]);
    let came = plain(rt.alloc(), line.as_slice())?;
    assert!(rt; came.is_some());
    if let Some(came) = came {
        assert!(rt; came.sent.as_slice() == sent.as_slice());
        assert_eq!(rt; came.totals.dropped, 0u64);
    }
    Ok(())
}

/// The body of a command that sets the breakpoint at an address.
fn set_at(address: u8) -> [u8; 8] {
    [0x11, 0x01, 0x00, address, 0x00, 0x00, 0x00, 0x00]
}

/// Puts the next command and its reply of one byte behind others.
fn ask(line: &mut Sent, sent: &mut Sent, number: &mut u16, body: &[u8], reply: u8) {
    put(line, *number, body);
    put(sent, *number, &[reply]);
    *number = number.wrapping_add(1);
}

#[test]
fn a_65th_breakpoint_is_refused(rt: HostRuntime) -> Result<(), AllocError> {
    let (mut line, mut sent, mut number) = (Sent::new(), Sent::new(), 0u16);
    for address in 0..64u8 {
        ask(&mut line, &mut sent, &mut number, &set_at(address), 0x80);
    }
    ask(&mut line, &mut sent, &mut number, &set_at(0x40), 0xA8);
    ask(&mut line, &mut sent, &mut number, &set_at(0x00), 0x80);
    let clear_other = [0x1A, 0x00, 0x40, 0x00, 0x00, 0x00];
    ask(&mut line, &mut sent, &mut number, &clear_other, 0xA8);
    let clear_last = [0x1A, 0x00, 0x3F, 0x00, 0x00, 0x00];
    ask(&mut line, &mut sent, &mut number, &clear_last, 0x80);
    ask(&mut line, &mut sent, &mut number, &set_at(0x40), 0x80);
    ask(&mut line, &mut sent, &mut number, &[0x00], 0x80);
    let words: [(usize, &[u16]); 1] = [(0, &[0; 128])];
    let setting = Setting {
        part: Part::M16,
        words: &words,
        fails: &[],
        denied: 0,
        steps: (100, 100),
    };
    let came = session(rt.alloc(), &setting, line.as_slice(), usize::MAX)?;
    assert!(rt; came.is_some());
    if let Some(came) = came {
        assert!(rt; came.sent.as_slice() == sent.as_slice());
        assert_eq!(rt; came.flash.journal().len(), 2usize);
    }
    Ok(())
}

#[test]
fn much_junk_is_dropped(rt: HostRuntime) -> Result<(), AllocError> {
    let junk = vec![in rt.alloc(); 0x55; 70_000]?;
    let came = plain(rt.alloc(), &junk)?;
    assert!(rt; came.is_some());
    if let Some(came) = came {
        assert!(rt; came.sent.is_empty());
        assert_eq!(rt; came.totals.dropped, 70_000u64);
    }
    Ok(())
}

/// Whether a session does not begin over a flash whose first write fails behind so many words, with the flash given back so.
fn fails_to_begin(alloc: Global, part: Part, count: usize) -> Result<bool, AllocError> {
    let words: [(usize, &[u16]); 1] = [(0, &[0xE001, 0xBB07, 0xBB08, 0xCFFF])];
    let program = words_with(alloc, part, &words)?;
    let flash = flash_of(alloc, part, &[(1, count)])?;
    match Emulator::begin(alloc, &program, flash) {
        Err(BeginError::Flash(flash)) => Ok(
            flash.faults() == 1
                && flash.journal().is_empty()
                && flash.words().get(..2) == Some(&[0xE001, 0xFFFF]),
        ),
        Err(BeginError::Memory(_)) => Err(AllocError),
        Ok(_) => Ok(false),
    }
}

#[test]
fn no_session_begins_where_a_page_write_fails(rt: HostRuntime) -> Result<(), AllocError> {
    for part in [Part::M16, Part::M32] {
        assert!(rt; fails_to_begin(rt.alloc(), part, 1)?);
    }
    Ok(())
}

/// Takes bytes that bring one frame: the state of the target behind it, and whether another frame waits; nothing where the session ends.
fn told(
    emulator: &mut Emulator<MemFlash>,
    bytes: &[u8],
    held: &mut Option<Job<MemFlash>>,
    rest: &mut Rest,
) -> Option<(u8, bool)>
    requires sound { IsSoundEmulator (λ f. f.part) emulator.old }
    requires takes { takes_line emulator.old.tool.mode ≡ true }
    requires held { IfSome held.old (λ own. IsOwn (λ f. f.part) emulator.old.tool own) }
    ensures sound { IsSoundEmulator (λ f. f.part) emulator.new }
    ensures goes { is_some result ≡ true → takes_line emulator.new.tool.mode ≡ true }
    ensures held { IfSome held.new (λ own. IsOwn (λ f. f.part) emulator.new.tool own) }
{
    match step(emulator, bytes, held, rest).0 {
        Stage::Goes => Some((emulator.state(), emulator.waits())),
        _ => None,
    }
}

/// What is told behind each frame of a session: two that come as the body of a damaged one, entering programming mode, leaving it, and a
/// run that goes on.
fn all_told(emulator: Emulator<MemFlash>) -> Option<[(u8, bool); 5]>
    requires sound { IsSoundEmulator (λ f. f.part) emulator }
    requires takes { takes_line emulator.tool.mode ≡ true }
{
    let mut emulator = emulator;
    let mut rest = Rest {
        sent: Sent::new(),
        launches: 0,
        denied: 0,
        steps: (1, 1),
    };
    let mut held = None;
    let mut damaged = Sent::new();
    let _ = damaged.try_extend_from_slice(&[0x1B, 0x00, 0x00, 0x16, 0x00, 0x00, 0x00, 0x0E]);
    put(&mut damaged, 0, &[0x0F]);
    put(&mut damaged, 1, &[0x0F]);
    let _ = damaged.try_extend_from_slice(&[0x00, 0x00]);
    let two = told(&mut emulator, damaged.as_slice(), &mut held, &mut rest)?;
    let one = told(&mut emulator, &[0x55], &mut held, &mut rest)?;
    let mut entering = Sent::new();
    put(&mut entering, 2, &[0x14]);
    let programming = told(&mut emulator, entering.as_slice(), &mut held, &mut rest)?;
    let mut leaving = Sent::new();
    put(&mut leaving, 3, &[0x15]);
    let stopped = told(&mut emulator, leaving.as_slice(), &mut held, &mut rest)?;
    let mut going = Sent::new();
    put(&mut going, 4, &[0x08]);
    let running = told(&mut emulator, going.as_slice(), &mut held, &mut rest)?;
    Some([two, one, programming, stopped, running])
}

/// What is told behind each frame of that session; nothing where it does not begin.
fn told_of_loop(alloc: Global) -> Result<Option<[(u8, bool); 5]>, AllocError> {
    let words: [(usize, &[u16]); 1] = [(0, &[0xCFFF])];
    let program = words_with(alloc, Part::M16, &words)?;
    let flash = flash_of(alloc, Part::M16, &[])?;
    match Emulator::begin(alloc, &program, flash) {
        Ok(emulator) => Ok(all_told(emulator)),
        Err(BeginError::Memory(_)) => Err(AllocError),
        Err(BeginError::Flash(_)) => Ok(None),
    }
}

#[test]
fn the_state_and_a_waiting_frame_are_told(rt: HostRuntime) -> Result<(), AllocError> {
    let wanted = [(0, true), (0, false), (2, false), (0, false), (1, false)];
    assert!(rt; told_of_loop(rt.alloc())? == Some(wanted));
    Ok(())
}
