//! Two threads share an inbox and a stop word: one sends, or is stopped, and the other takes its notes.
//!
//! `bench_inbox KIND COUNT`: with `notes` a thread sends so many notes, and this one takes them. With `stops` a stop is raised so often; each
//! time the thread looks until it sees the number, and sends a note, which this one awaits. It prints how many notes came. Time it from
//! outside (`bench/inbox.py`).
#![tactic(auto)]

use ice_inbox::{Note, NoteReceiver, StopLooker, StopRaiser, StopWord, TargetSender, make_inbox};
use std::sync::Wait;
use std::{env, io, thread};

fn main(rt: HostRuntime) -> io::Result<()> {
    let mut given = env::args(&rt)?;
    let _program = given.next();
    let (Some(kind), Some(count)) = (given.next(), given.next()) else {
        return eprintln!(rt; "usage: bench_inbox KIND COUNT");
    };
    let Ok(count) = count.as_str().parse::<u32>() else {
        return eprintln!(rt; "usage: bench_inbox KIND COUNT");
    };
    let (_line, sender, receiver) = make_inbox(rt.alloc())?;
    let mut raiser = StopWord::make(rt.alloc())?;
    let looker = raiser.split();
    let came = if kind.as_str() == "stops" {
        let worker = thread::spawn(&rt, move || stop_all(&rt, sender, looker, count))?;
        let came = raise_all(&rt, raiser, receiver, count);
        worker.join(&rt);
        came
    } else {
        let worker = thread::spawn(&rt, move || send_all(&rt, sender, count))?;
        let came = take_all(&rt, receiver, count);
        worker.join(&rt);
        came
    };
    println!(rt; "{came} of {count}")
}

/// Sends so many notes.
fn send_all<R: Wait>(rt: &R, sender: TargetSender, count: u32) {
    let mut sender = sender;
    for number in 0..count {
        sender.send(rt, u64::from(number));
    }
}

/// Takes so many notes, and says how many came in order.
fn take_all<R: Wait>(rt: &R, receiver: NoteReceiver, count: u32) -> u32 {
    let mut receiver = receiver;
    let mut came = 0u32;
    for number in 0..count {
        if is_halted(&receiver.take(rt), u64::from(number)) {
            came = came.saturating_add(1);
        }
    }
    came
}

/// Looks for each number until it is raised, and tells it.
fn stop_all<R: Wait>(rt: &R, sender: TargetSender, looker: StopLooker, count: u32) {
    let mut sender = sender;
    let mut looker = looker;
    for number in 0..count {
        await_stop(&mut looker, u64::from(number) + 1);
        sender.send(rt, u64::from(number) + 1);
    }
}

/// Looks for a number until it is raised, or very often.
fn await_stop(looker: &mut StopLooker, number: u64) {
    for _ in 0..u32::MAX {
        if looker.look_for(number) {
            return;
        }
    }
}

/// Raises each number, and awaits its note; says how many came.
fn raise_all<R: Wait>(rt: &R, raiser: StopRaiser, receiver: NoteReceiver, count: u32) -> u32 {
    let mut raiser = raiser;
    let mut receiver = receiver;
    let mut came = 0u32;
    for number in 0..count {
        raiser.raise(u64::from(number) + 1);
        if is_halted(&receiver.take(rt), u64::from(number) + 1) {
            came = came.saturating_add(1);
        }
    }
    came
}

/// It is the note of a target's end with this number.
fn is_halted(note: &Note, number: u64) -> bool {
    match note {
        Note::Halted(halted) => *halted == number,
        _ => false,
    }
}
