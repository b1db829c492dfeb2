//! Runs operations of the target's arithmetic over all pairs of bytes, and prints a checksum of the results and status bytes.
//!
//! `bench_alu NAME ROUNDS`: NAME is an operation, `plain` for the same loop without one, or `all`. Time it from outside
//! (`bench/alu.py`).
#![tactic(auto)]

mod operation;
mod sweep;

use operation::Operation;
use std::{env, io};

fn main(rt: HostRuntime) -> io::Result<()> {
    let mut words = env::args(&rt)?;
    let _program = words.next();
    let (Some(wanted), Some(rounds)) = (words.next(), words.next()) else {
        return eprintln!(rt; "usage: bench_alu NAME ROUNDS");
    };
    let Ok(rounds) = rounds.as_str().parse::<u32>() else {
        return eprintln!(rt; "usage: bench_alu NAME ROUNDS");
    };
    for operation in Operation::ALL {
        let name = operation.name();
        if wanted.as_str() == "all" || wanted.as_str() == name {
            println!(rt; "{name} {:08x}", operation.checksum(rounds))?;
        }
    }
    Ok(())
}
