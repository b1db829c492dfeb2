//! An inbox and a stop word on one thread, and 1,000 notes from two threads to a third.
ghost use Rattle.std.specs.Prelude.{◌≡◌, ◌+◌, ◌≤◌, true, [], length};
ghost use Rattle.ice_inbox.specs.Notes.{is_of_line, size_of, bytes_in, line_limit};

mod works;

use super::*;
use arrayvec::ArrayVec;
use std::sync::Wait;
use std::test::Fail;
use std::thread;

/// How many notes each of the two threads sends.
const EACH: u16 = 500;

/// A note of two bytes, which are the number.
fn note_of(number: u16) -> Note
    ensures line { is_of_line result ≡ true }
    ensures size { size_of result ≡ 2 }
{
    let [high, low] = number.to_be_bytes();
    let mut bytes = ArrayVec::new();
    bytes.push(high);
    bytes.push(low);
    Note::Bytes(bytes)
}

/// Sends the numbers below 500 as notes of bytes.
fn send_lines<R: Wait>(rt: &R, line: &mut LineSender)
    requires { line.old.sent ≡ [] }
{
    for number in 0..EACH {
        line.send(rt, note_of(number));
    }
}

/// Sends the numbers below 500 as halts.
fn send_halts<R: Wait>(rt: &R, target: &mut TargetSender) {
    for number in 0..EACH {
        target.send(rt, u64::from(number));
    }
}

/// What was taken of each sender, as far as it came in order and once.
#[derive(Drop)]
struct Count {
    lines: u16,
    halts: u16,
}

impl Count {
    /// Counts a note, and says whether it is the next of its sender.
    fn is_next(&mut self, note: &Note) -> bool {
        match note {
            Note::Bytes(bytes) => {
                let is_next = bytes.as_slice() == self.lines.to_be_bytes().as_slice();
                self.lines = self.lines.saturating_add(1);
                is_next
            }
            Note::Halted(number) => {
                let is_next = *number == u64::from(self.halts);
                self.halts = self.halts.saturating_add(1);
                is_next
            }
            Note::LineEnd | Note::LineFault | Note::TooLong => false,
        }
    }
}

/// Which of the three notes of the first test it is.
fn sign(note: &Note) -> u8 {
    match note {
        Note::Bytes(bytes) if bytes.as_slice() == [1].as_slice() => 1,
        Note::LineEnd => 2,
        Note::Halted(1) => 3,
        _ => 0,
    }
}

#[test]
fn line_and_target_reach_the_receiver(rt: HostRuntime) -> Result<(), Fail> {
    let (mut line, mut target, mut receiver) = make_inbox(rt.alloc())?;
    let mut bytes = ArrayVec::new();
    bytes.push(1);
    line.send(&rt, Note::Bytes(bytes));
    line.send(&rt, Note::LineEnd);
    target.send(&rt, 1);
    let row = [
        sign(&receiver.take(&rt)),
        sign(&receiver.take(&rt)),
        sign(&receiver.take(&rt)),
    ];
    receiver.take_in(line);
    assert!(rt; row == [1, 2, 3] || row == [1, 3, 2] || row == [3, 1, 2]);
    Ok(())
}

#[test]
fn looker_sees_what_is_raised(rt: HostRuntime) -> Result<(), Fail> {
    let mut raiser = StopWord::make(rt.alloc())?;
    let mut looker = raiser.split();
    assert!(rt; !looker.look_for(1));
    raiser.raise(1);
    assert!(rt; looker.look_for(1));
    assert!(rt; !looker.look_for(2));
    raiser.join(looker);
    let mut again = raiser.split();
    assert!(rt; again.look_for(1));
    Ok(())
}

#[test]
fn two_threads_send_and_a_third_takes(rt: HostRuntime) -> Result<(), Fail> {
    let (mut line, mut target, mut receiver) = make_inbox(rt.alloc())?;
    let lines = thread::spawn(&rt, move || send_lines(&rt, &mut line))?;
    let halts = thread::spawn(&rt, move || send_halts(&rt, &mut target))?;
    let mut count = Count { lines: 0, halts: 0 };
    let mut in_order = true;
    for _ in 0..2 * EACH {
        let note = receiver.take(&rt);
        in_order = count.is_next(&note) && in_order;
    }
    lines.join(&rt);
    halts.join(&rt);
    assert!(rt; in_order);
    assert_eq!(rt; (count.lines, count.halts), (EACH, EACH));
    Ok(())
}
