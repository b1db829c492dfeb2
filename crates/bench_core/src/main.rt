//! Runs a raw image on the core until so many cycles are over, or it stands at a BREAK or at a word that does not run.
//!
//! `bench_core IMAGE CYCLES` prints the cycles, the steps, the address of the next instruction, the number of output writes and
//! the last of them. `bench_core IMAGE CYCLES writes` prints the output writes that are kept before, the oldest first: cycle,
//! I/O address and byte of each. `bench_core IMAGE STEPS advance` makes so many steps as a run of a job instead, and prints the same.
//! Time it from outside (`bench/core.py`), and count its instructions (`bench/run.sh`).
#![tactic(auto)]

ghost use Rattle.std.specs.Prelude.{◌≡◌, IfOk};
ghost use Rattle.part_spec.specs.declared.part.Part.TheVariants.{M16};
ghost use Rattle.part_spec.specs.Chip.{chip_of};

mod image;

use arrayvec::ArrayVec;
use avr_core::{Core, Stepped};
use avr_io::{Io, OutWrite};
use ice_base::MemFlash;
use image::set_image;
use run_control::{Inline, Job, Runner};
use std::alloc::Global;
use std::io::{ErrorKind, Read};
use std::{env, fs, io};

/// How many output writes a core keeps.
const KEPT_WRITES: usize = 4096;

fn main(rt: HostRuntime) -> io::Result<()> {
    let mut given = env::args(&rt)?;
    let _program = given.next();
    let (Some(name), Some(cycles)) = (given.next(), given.next()) else {
        return eprintln!(rt; "usage: bench_core IMAGE CYCLES [writes|advance]");
    };
    let Ok(cycles) = cycles.as_str().parse::<u64>() else {
        return eprintln!(rt; "usage: bench_core IMAGE CYCLES [writes|advance]");
    };
    let flash = flash_of(rt.alloc(), read(&rt, name.as_str())?.as_slice())?;
    let mut core = Core::new(rt.alloc())?;
    let form = given.next();
    if let Some(word) = &form
        && word.as_str() == "advance"
    {
        return print_end(&rt, &advance(core, flash, cycles));
    }
    run(&mut core, &flash, cycles);
    if form.is_some() {
        print_writes(&rt, core.io())?;
    }
    print_end(&rt, &core)
}

/// The bytes of a file.
fn read(rt: &HostRuntime, name: &str) -> io::Result<Vec<u8>> {
    let mut content = Vec::new(rt.alloc());
    fs::open(rt, name)?.read_to_end(&mut content)?;
    Ok(content)
}

/// A flash that holds an image.
fn flash_of(alloc: Global, image: &[u8]) -> io::Result<MemFlash>
    ensures { IfOk result (λ flash. flash.part ≡ M16) }
{
    let mut flash = MemFlash::of(alloc, Vec::new(alloc))?;
    match set_image(&mut flash, image) {
        Ok(()) => Ok(flash),
        Err(_) => Err(io::Error::from(ErrorKind::Other)),
    }
}

/// Makes steps until so many cycles are over, or one does not run. Each step takes a cycle at least.
fn run(core: &mut Core, flash: &MemFlash, cycles: u64)
    requires { chip_of flash.now.part ≡ core.old.part }
{
    for _step in 0..cycles {
        if core.io().cycles() >= cycles || core.step(flash) != Stepped::Ran {
            return;
        }
    }
}

/// Makes so many steps, at least 1 and at most the greatest u32, as a run with no comparator and no look that stops it, or fewer where it
/// stands at a BREAK or at a word that does not run.
fn advance(core: Core, flash: MemFlash, steps: u64) -> Core
    requires { chip_of flash.part ≡ core.part }
{
    let mut stops = ArrayVec::new();
    stops.push(steps.clamp(1, u64::from(u32::MAX)) as u32);
    let mut runner = Inline::of(stops);
    let job = Job {
        core,
        flash,
        comparators: [None; 4],
        replant: None,
        fresh: true,
    };
    match runner.launch(job) {
        Err(job) => job.core,
        Ok(()) => {
            runner.raise_stop();
            runner.collect().job.core
        }
    }
}

fn print_writes(rt: &HostRuntime, io: &Io) -> io::Result<()> {
    for back in (0..KEPT_WRITES).rev() {
        if let Some(write) = io.last(back) {
            print_write(rt, &write)?;
        }
    }
    Ok(())
}

fn print_write(rt: &HostRuntime, write: &OutWrite) -> io::Result<()> {
    println!(rt; "{} {:02x} {:02x}", write.cycle, write.a, write.byte)
}

fn print_end(rt: &HostRuntime, core: &Core) -> io::Result<()> {
    let io = core.io();
    println!(rt; "cycles {}", io.cycles())?;
    println!(rt; "steps {}", core.steps())?;
    println!(rt; "pc {:04x}", core.pc())?;
    println!(rt; "writes {}", io.writes())?;
    match io.last(0) {
        Some(write) => print_write(rt, &write),
        None => Ok(()),
    }
}
