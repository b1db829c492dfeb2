//! A call over objects in memory, and what comes of it.
use super::held::{Held, Words, image_of};
use ice_base::{MapLoader, MemFlash, MemSink, MemSource};
use ice_top::{Status, ice2, part_of};
use part_spec::Part;
use std::alloc::{AllocError, Global};
use std::process::Abort;

/// How many bytes each read of a line gives at most: a few, or all that are asked for.
pub(super) const READS: [usize; 4] = [1, 2, 7, 4096];

/// Room for the page writes of a session.
const JOURNAL_ROOM: usize = 64;

/// Room for the bytes that a session sends.
const SINK_ROOM: usize = 4096;

/// A session on an image, and which calls of its objects fail.
#[derive(Clone, Copy)]
pub(super) struct Case<'a> {
    pub image: Words,
    /// The words of the call behind the image's name: STOPS, and the part where one is named.
    pub words: &'static [&'static str],
    pub line: &'a [u8],
    /// How many bytes each read gives at most.
    pub most: usize,
    /// The read that fails, by number from 1.
    pub failing_read: Option<u64>,
    /// The put that fails, by number from 1, and how many bytes it takes.
    pub failing_put: Option<(u64, usize)>,
    /// The page writes that fail, by number from 1, and how many words of the page each sets.
    pub failing_writes: &'a [(u64, usize)],
}

/// What came of a call.
#[derive(Drop)]
pub(super) struct Outcome {
    pub status: Status,
    pub part: Part,
    pub source: MemSource,
    pub sent: MemSink,
    pub notes: MemSink,
    pub flash: MemFlash,
}

/// What is to come of a call.
#[derive(Clone, Copy)]
pub(super) struct Wanted<'a> {
    pub status: Status,
    pub sent: &'a [u8],
    pub notes: &'a str,
    pub journal: &'a [(u16, Held)],
    /// What the flash holds at the end.
    pub left: Held,
}

/// Replays the line of a source on an image, with the sink and the flash as they are told to fail.
pub(super) fn replay_from(
    alloc: Global,
    case: &Case,
    source: MemSource,
) -> Result<Outcome, AllocError> {
    run_from(alloc, "replay", case, source)
}

/// Makes the call of this form on an image, with the sink and the flash as they are told to fail.
fn run_from(
    alloc: Global,
    form: &str,
    case: &Case,
    source: MemSource,
) -> Result<Outcome, AllocError> {
    let texts = call_words(alloc, form, case.words)?;
    let words = texts.as_slice();
    let part = part_of(words);
    let mut loader = loader_of(alloc, case.image)?;
    let mut source = source;
    let mut sent = MemSink::of(alloc, listed(alloc, case.failing_put)?, SINK_ROOM)?;
    let mut notes = MemSink::of(alloc, Vec::new(alloc), SINK_ROOM)?;
    let writes = case.failing_writes.to_vec(alloc)?;
    let flash = MemFlash::logged_part(alloc, part, writes, JOURNAL_ROOM)?;
    let ended = ice2(
        alloc,
        words,
        &mut loader,
        &mut source,
        &mut sent,
        &mut notes,
        flash,
    );
    Ok(Outcome {
        status: ended.status,
        part,
        source,
        sent,
        notes,
        flash: ended.flash,
    })
}

/// Replays a session.
pub(super) fn replay(alloc: Global, case: &Case) -> Result<Outcome, AllocError> {
    replay_from(alloc, case, source_of(alloc, case)?)
}

/// Runs the lines of a session as a script.
pub(super) fn run_script(alloc: Global, case: &Case) -> Result<Outcome, AllocError> {
    run_from(alloc, "script", case, source_of(alloc, case)?)
}

/// Checks the record that is the line of a case, of a session over its image.
pub(super) fn run_verify(alloc: Global, case: &Case) -> Result<Outcome, AllocError> {
    run_from(alloc, "verify", case, source_of(alloc, case)?)
}

/// A source of the line, with its reads cut and failing as they are told to.
fn source_of(alloc: Global, case: &Case) -> Result<MemSource, AllocError> {
    let cuts = vec![in alloc; case.most; case.line.len()]?;
    let fails = listed(alloc, case.failing_read)?;
    Ok(MemSource::of(case.line.to_vec(alloc)?, cuts, fails))
}

/// The words of a call: the name of the form, that of the image, and those behind it.
fn call_words(alloc: Global, form: &str, rest: &[&str]) -> Result<Vec<String>, AllocError> {
    let mut words = Vec::new(alloc);
    words.push(String::from_str(alloc, form)?)?;
    words.push(String::from_str(alloc, "p.bin")?)?;
    for word in rest {
        words.push(String::from_str(alloc, word)?)?;
    }
    Ok(words)
}

/// A loader of the image.
fn loader_of(alloc: Global, image: Words) -> Result<MapLoader, AllocError> {
    let mut pairs = Vec::new(alloc);
    pairs.push((String::from_str(alloc, "p.bin")?, image_of(alloc, image)?))?;
    Ok(MapLoader::of(pairs))
}

/// The list of what is given: one, or none.
fn listed<T: Drop>(alloc: Global, given: Option<T>) -> Result<Vec<T>, AllocError> {
    let mut list = Vec::new(alloc);
    if let Some(one) = given {
        list.push(one)?;
    }
    Ok(list)
}

/// Compares what came of a call with what was to come.
pub(super) fn assert_came(
    rt: &impl Abort,
    alloc: Global,
    outcome: &Outcome,
    wanted: &Wanted,
    label: &str,
) -> Result<(), AllocError> {
    assert_eq!(rt; outcome.status, wanted.status, "{label}");
    assert_eq!(rt; outcome.sent.written(), wanted.sent, "{label}");
    assert_eq!(rt; outcome.notes.written(), wanted.notes.as_bytes(), "{label}");
    let journal = outcome.flash.journal();
    assert_eq!(rt; journal.len(), wanted.journal.len(), "{label}");
    for (made, (page, held)) in journal.iter().zip(wanted.journal) {
        assert_eq!(rt; made.page, *page, "{label}");
        assert_eq!(rt; made.words, held.page(*page), "{label}");
    }
    let left = wanted.left.flash(alloc, outcome.part)?;
    assert!(rt; outcome.flash.words() == left.as_slice(), "{label}");
    Ok(())
}
