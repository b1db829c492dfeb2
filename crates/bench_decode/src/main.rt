//! Decodes every first word of an instruction, round after round, and prints how many words the instructions have in all.
//!
//! `bench_decode NAME ROUNDS`: NAME is `decode`, or `plain` for the same loop that takes each word as it is. Time it from
//! outside (`bench/decode.py`).
#![tactic(auto)]

use avr_decode::{Instr, decode, words};
use std::{env, io};

fn main(rt: HostRuntime) -> io::Result<()> {
    let mut given = env::args(&rt)?;
    let _program = given.next();
    let (Some(name), Some(rounds)) = (given.next(), given.next()) else {
        return eprintln!(rt; "usage: bench_decode NAME ROUNDS");
    };
    let Ok(rounds) = rounds.as_str().parse::<u32>() else {
        return eprintln!(rt; "usage: bench_decode NAME ROUNDS");
    };
    let decoding = name.as_str() == "decode";
    let mut total = 0u64;
    for _round in 0..rounds {
        total = total.wrapping_add(sweep(decoding));
    }
    println!(rt; "{total}")
}

/// The words of all instructions by their first words.
fn sweep(decoding: bool) -> u64 {
    let mut total = 0u64;
    for first in 0..=u16::MAX {
        let instruction = if decoding {
            decoded(first)
        } else {
            taken(first)
        };
        total = total.wrapping_add(u64::from(words(&instruction)));
    }
    total
}

// Not inlined, so that each instruction is made whole.
#[inline(never)]
fn decoded(first: u16) -> Instr {
    decode(first, first)
}

#[inline(never)]
fn taken(first: u16) -> Instr {
    Instr::Undefined(first)
}
