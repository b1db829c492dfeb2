//! Makes a flash hold a program with breakpoints planted in it, round after round, and prints how many rounds went well.
//!
//! `bench_flash PART BREAKPOINTS ROUNDS`: PART is m16 or m32. The first round writes every page; in the others the flash holds the
//! wanted words already. Time it from outside (`bench/flash.py`).
#![tactic(auto)]

ghost use Rattle.std.specs.Prelude.{◌≡◌, IfOk};

use flash_patch::Plan;
use ice_base::{MemFlash, Part};
use std::alloc::{AllocError, Global};
use std::{env, io};

/// Each word of the program, a NOP.
const WORD: u16 = 0;

/// How many words one breakpoint stands behind the one before: each is in a page of its own.
const DISTANCE: u32 = 100;

fn main(rt: HostRuntime) -> io::Result<()> {
    let mut given = env::args(&rt)?;
    let _program = given.next();
    let (Some(name), Some(count), Some(rounds)) = (given.next(), given.next(), given.next()) else {
        return eprintln!(rt; "usage: bench_flash PART BREAKPOINTS ROUNDS");
    };
    let (Ok(count), Ok(rounds)) = (count.as_str().parse::<u8>(), rounds.as_str().parse::<u32>())
    else {
        return eprintln!(rt; "usage: bench_flash PART BREAKPOINTS ROUNDS");
    };
    let part = part_of(name.as_str());
    let synced = synced(rt.alloc(), part, count, rounds)?;
    println!(rt; "{synced} of {rounds}")
}

/// The part of a name: the smaller one, unless the larger is named.
fn part_of(name: &str) -> Part {
    if name == "m32" { Part::M32 } else { Part::M16 }
}

/// How many of so many rounds went well.
fn synced(alloc: Global, part: Part, count: u8, rounds: u32) -> Result<u32, AllocError> {
    let mut flash = MemFlash::of_part(alloc, part, Vec::new(alloc))?;
    let mut plan = plan_of(alloc, part)?;
    set_some(&mut plan, count);
    Ok(sync_rounds(&plan, &mut flash, rounds))
}

/// The plan of the program.
fn plan_of(alloc: Global, part: Part) -> Result<Plan, AllocError>
    ensures { IfOk result (λ plan. plan.part ≡ part) }
{
    let program = vec![in alloc; WORD; usize::from(part.words())]?;
    Plan::new(alloc, &program)
}

/// Sets so many breakpoints, up to the most that may be set.
fn set_some(plan: &mut Plan, count: u8)
    ensures { plan.new.part ≡ plan.old.part }
{
    for number in 0..count {
        let _ = plan.set(DISTANCE * u32::from(number));
    }
}

/// How many of so many rounds went well.
fn sync_rounds(plan: &Plan, flash: &mut MemFlash, rounds: u32) -> u32
    requires { flash.old.part ≡ plan.now.part }
{
    let mut well = 0;
    for _round in 0..rounds {
        if plan.sync(flash, None, None).is_ok() {
            well += 1;
        }
    }
    well
}
