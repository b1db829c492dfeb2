//! The work of reading a line: its bytes become notes, and one more tells how it ended.
ghost use Rattle.std.specs.Prelude.{◌≡◌, ◌+◌, ◌<◌, ◌≤◌, [], length};
ghost use Rattle.ice_inbox.specs.Notes.{line_limit};
ghost use Rattle.ice_inbox.specs.Lines.{IsHeard, IsSent, SendsLine};

use crate::inbox::{LineSender, Note};
use arrayvec::ArrayVec;
use ice_base::{Failed, Source, Work};
use std::sync::Wait;

/// The most bytes of a chunk.
const CHUNK: usize = 512;

/// The most bytes that a line sends.
const LINE_LIMIT: usize = 67_108_864;

/// Reads a source to its end, and sends what it reads. Its sender has sent nothing.
#[derive(Drop)]
pub struct LineWork<S: Source, R: Wait + Copy> {
    rt: R,
    source: S,
    sender: LineSender,
    ghost unsent: { sender.sent ≡ [] },
}

/// What the work of a line gives: the source as far as it was read, and the sender, which sends no more.
#[derive(Drop)]
pub struct LineDone<S: Source> {
    /// What is left of the line.
    pub source: S,
    /// The sender that it was sent by.
    pub sender: LineSender,
}

/// What one read tells.
#[derive(Drop)]
enum Heard {
    /// The next bytes of the line.
    Chunk(ArrayVec<u8, CHUNK>),
    /// How the line ended.
    Last(Note),
}

impl<S: Source, R: Wait + Copy> LineWork<S, R> {
    /// The work of reading this source, with a sender that has sent nothing.
    pub fn of(rt: R, source: S, sender: LineSender) -> LineWork<S, R>
        requires { sender.sent ≡ [] }
        ensures { (result.source ≡ source) × (result.sender ≡ sender) }
    {
        LineWork { rt, source, sender }
    }

    /// Gives both back untouched.
    pub fn undo(self) -> LineDone<S>
        ensures { (result.source ≡ self.source) × (result.sender ≡ self.sender) }
    {
        let LineWork {
            rt: _,
            source,
            sender,
        } = self;
        LineDone { source, sender }
    }
}

impl<S: Source, R: Wait + Copy> Work for LineWork<S, R> {
    type Done = LineDone<S>;

    ghost gives = { λ work done. SendsLine S.left S.faults work.source done.source work.sender done.sender };

    fn run(self) -> LineDone<S> {
        let LineWork { rt, source, sender } = self;
        let mut source = source;
        let mut sender = sender;
        let last = send_chunks(&rt, &mut source, &mut sender);
        sender.send(&rt, last);
        LineDone { source, sender }
    }
}

/// Sends the chunks of a source, and answers the last note, which is still to be sent.
fn send_chunks<S: Source, R: Wait>(rt: &R, source: &mut S, sender: &mut LineSender) -> Note
    requires { sender.old.sent ≡ [] }
    ensures inbox { sender.new.inbox ≡ sender.old.inbox }
    ensures sent { IsSent S.left S.faults source.old sender.new.sent result source.new }
{
    let mut sent = 0;
    'chunks: loop {
        match read_chunk(source, sent) {
            Heard::Chunk(chunk) => {
                sent += chunk.len();
                sender.send(rt, Note::Bytes(chunk));
            }
            Heard::Last(last) => return last,
        }
    }
}

/// Reads the next chunk, where so many bytes were sent already: at most as many as may still be sent, or one more where none may.
fn read_chunk<S: Source>(source: &mut S, sent: usize) -> Heard
    requires { sent ≤ line_limit }
    ensures { IsHeard S.left S.faults source.old sent result source.new }
{
    let room = (LINE_LIMIT - sent).clamp(1, CHUNK);
    let mut buf = [0; CHUNK];
    hear(source, &mut buf[..room], sent)
}

/// The same, by a buffer of that length.
fn hear<S: Source>(source: &mut S, buf: &mut [u8], sent: usize) -> Heard
    requires some { (0 < length buf.old) × (length buf.old ≤ 512) }
    requires sent { sent ≤ line_limit }
    requires room { sent < line_limit → sent + length buf.old ≤ line_limit }
    requires further { sent ≡ line_limit → length buf.old ≡ 1 }
    ensures { IsHeard S.left S.faults source.old sent result source.new }
{
    match source.read(buf) {
        Err(Failed) => Heard::Last(Note::LineFault),
        Ok(0) => Heard::Last(Note::LineEnd),
        Ok(_) if sent == LINE_LIMIT => Heard::Last(Note::TooLong),
        Ok(count) => Heard::Chunk(chunk_of(&buf[..count])),
    }
}

/// These bytes, as a chunk.
fn chunk_of(bytes: &[u8]) -> ArrayVec<u8, CHUNK>
    requires { length bytes.now ≤ 512 }
    ensures { result.items ≡ bytes.now }
{
    let mut chunk = ArrayVec::new();
    for byte in bytes {
        chunk.push(*byte);
    }
    chunk
}
