//! The works of the line and of the target, and the runner over them.
ghost use Rattle.std.specs.Prelude.{◌≡◌, true, None, IfOk};
ghost use Rattle.part_spec.specs.declared.part.Part.TheVariants.{M16};
ghost use Rattle.part_spec.specs.Chip.{m16};

use crate::{
    LineDone, LineWork, Note, NoteReceiver, StopWord, TargetDone, TargetWork, Threaded, make_inbox,
};
use avr_core::Core;
use ice_base::{
    Flash, FnSpawner, Gate, MemFlash, MemSource, OpenGate, Part, Spawner, Work, begin_on_thread,
};
use run_control::{Done, Halt, Job, Runner};
use std::alloc::Global;
use std::sync::Wait;
use std::test::Fail;

/// A work of the target in memory.
type MemWork<R> = TargetWork<MemFlash, OpenGate, R>;

/// What the next notes are: the bytes of a chunk and a bar, and a letter for each other kind.
fn next_notes<R: Wait>(
    rt: &R,
    alloc: Global,
    receiver: &mut NoteReceiver,
    count: usize,
) -> Result<Vec<u8>, Fail> {
    let mut told = Vec::new(alloc);
    for _ in 0..count {
        match receiver.take(rt) {
            Note::Bytes(bytes) => {
                for byte in bytes.as_slice() {
                    told.push(*byte)?;
                }
                told.push(b'|')?;
            }
            Note::LineEnd => told.push(b'E')?,
            Note::LineFault => told.push(b'F')?,
            Note::TooLong => told.push(b'T')?,
            Note::Halted(_) => told.push(b'H')?,
        }
    }
    Ok(told)
}

/// Does the work of a line of these bytes, whose reads are cut to these sizes, and of which the read with this number fails. Answers
/// that many of its notes, and how many bytes are left.
fn line_of<R: Wait + Copy>(
    rt: R,
    alloc: Global,
    bytes: &[u8],
    failing: u64,
    count: usize,
) -> Result<(Vec<u8>, usize), Fail> {
    let source = MemSource::of(
        Vec::from_slice(alloc, bytes)?,
        vec![in alloc; 2usize, 1]?,
        vec![in alloc; failing]?,
    );
    let (line, _, mut receiver) = make_inbox(alloc)?;
    let LineDone { source, sender: _ } = LineWork::of(rt, source, line).run();
    let told = next_notes(&rt, alloc, &mut receiver, count)?;
    Ok((told, source.left().len()))
}

#[test]
fn a_line_is_sent_chunk_by_chunk(rt: HostRuntime) -> Result<(), Fail> {
    let (told, left) = line_of(rt, rt.alloc(), b"abcde", 0, 4)?;
    assert_eq!(rt; told.as_slice(), b"ab|c|de|E".as_slice());
    assert_eq!(rt; left, 0);
    Ok(())
}

#[test]
fn a_read_that_fails_ends_a_line(rt: HostRuntime) -> Result<(), Fail> {
    let (told, left) = line_of(rt, rt.alloc(), b"abcde", 2, 2)?;
    assert_eq!(rt; told.as_slice(), b"ab|F".as_slice());
    assert_eq!(rt; left, 3);
    Ok(())
}

#[test]
fn an_empty_line_has_its_end_alone(rt: HostRuntime) -> Result<(), Fail> {
    let (told, _) = line_of(rt, rt.alloc(), b"", 0, 1)?;
    assert_eq!(rt; told.as_slice(), b"E".as_slice());
    Ok(())
}

#[test]
fn a_line_that_was_not_begun_is_untouched(rt: HostRuntime) -> Result<(), Fail> {
    let alloc = rt.alloc();
    let source = MemSource::of(vec![in alloc; 1u8, 2]?, Vec::new(alloc), Vec::new(alloc));
    let (line, _, _) = make_inbox(alloc)?;
    let LineDone { source, sender: _ } = LineWork::of(rt, source, line).undo();
    assert_eq!(rt; source.left(), [1u8, 2].as_slice());
    Ok(())
}

/// A job of an ATmega16 that begins with these two words, with a BREAK behind them.
fn job_of(alloc: Global, first: u16, second: u16) -> Result<Job<MemFlash>, Fail>
    ensures fresh { IfOk result (λ job. job.fresh ≡ true) }
    ensures replant { IfOk result (λ job. job.replant ≡ None) }
    ensures flash { IfOk result (λ job. job.flash.part ≡ M16) }
    ensures core { IfOk result (λ job. job.core.part ≡ m16) }
{
    let mut flash = MemFlash::of(alloc, Vec::new(alloc))?;
    let mut page = [0x9598; 64];
    page[0] = first;
    page[1] = second;
    flash.write_page(0, &page)?;
    Ok(Job {
        core: Core::new(alloc)?,
        flash,
        comparators: [None, None, None, None],
        replant: None,
        fresh: true,
    })
}

/// Makes the run of a jump to itself, and tells it to stop. Answers why it ended, and whether it told its number.
fn ran<R: Wait + Copy, P: Spawner<MemWork<R>>>(
    rt: R,
    alloc: Global,
    spawner: P,
) -> Result<(Halt, bool), Fail>
    requires { P.sound spawner }
{
    let raiser = StopWord::make(alloc)?;
    let (_line, sender, mut receiver) = make_inbox(alloc)?;
    let mut runner = Threaded::of(rt, raiser, sender, OpenGate, spawner);
    let Ok(()) = runner.launch(job_of(alloc, 0xCFFF, 0x9598)?) else {
        return Err("no thread".into());
    };
    runner.raise_stop();
    let told = matches!(receiver.take(&rt), Note::Halted(1));
    let Done { job: _, halt } = runner.collect();
    runner.finish();
    Ok((halt, told))
}

#[test]
fn a_thread_is_stopped_in_mid_run(rt: HostRuntime) -> Result<(), Fail> {
    let alloc = rt.alloc();
    let spawner = FnSpawner::of(move |work: MemWork<HostRuntime>| begin_on_thread(rt, alloc, work));
    assert_eq!(rt; ran(rt, alloc, spawner)?, (Halt::Forced, true));
    Ok(())
}

/// Refuses the first work, and does each other one at its start.
#[derive(Drop)]
struct SecondOn {
    faults: u64,
    starts: u64,
    joins: u64,
}

/// What a work gave.
#[derive(Drop)]
struct Given<D> {
    done: D,
}

impl<W: Work> Spawner<W> for SecondOn {
    ghost use Rattle.std.specs.Prelude.{⊤};

    type Ticket = Given<W::Done>;

    ghost faults = { λ s. s.faults };

    ghost starts = { λ s. s.starts };

    ghost joins = { λ s. s.joins };

    ghost allows = { λ ticket done. done ≡ ticket.done };

    ghost sound = { λ s. ⊤ };

    fn start(&mut self, work: W) -> Result<Given<W::Done>, W> {
        if self.faults == 0 {
            self.faults = 1;
            return Err(work);
        }
        self.starts = self.starts.wrapping_add(1);
        Ok(Given { done: work.run() })
    }

    fn join(&mut self, ticket: Given<W::Done>) -> W::Done {
        self.joins = self.joins.wrapping_add(1);
        let Given { done } = ticket;
        done
    }
}

#[test]
fn a_refused_launch_hands_the_job_back_and_uses_no_number(rt: HostRuntime) -> Result<(), Fail> {
    let alloc = rt.alloc();
    let raiser = StopWord::make(alloc)?;
    let (_line, sender, mut receiver) = make_inbox(alloc)?;
    let spawner = SecondOn {
        faults: 0,
        starts: 0,
        joins: 0,
    };
    let mut runner = Threaded::of(rt, raiser, sender, OpenGate, spawner);
    let Err(job) = runner.launch(job_of(alloc, 0, 0x9598)?) else {
        return Err("not refused".into());
    };
    assert!(rt; !runner.ready());
    assert_eq!(rt; job.flash.word(1), 0x9598);
    let Ok(()) = runner.launch(job) else {
        return Err("refused again".into());
    };
    assert!(rt; matches!(receiver.take(&rt), Note::Halted(1)));
    let Done { job, halt } = runner.collect();
    assert_eq!(rt; (halt, job.core.pc()), (Halt::Word, 1u16));
    let spawner = runner.finish();
    assert_eq!(rt; (spawner.starts, spawner.joins), (1u64, 1u64));
    Ok(())
}

/// Counts its passes, and keeps the number of the newest.
#[derive(Drop)]
struct Passes {
    count: u64,
    newest: u64,
}

impl Gate for Passes {
    fn pass(&mut self, turn: u64) {
        self.count = self.count.wrapping_add(1);
        self.newest = turn;
    }
}

#[test]
fn a_gate_is_passed_after_each_unfinished_turn(rt: HostRuntime) -> Result<(), Fail> {
    let alloc = rt.alloc();
    let mut raiser = StopWord::make(alloc)?;
    let (_line, sender, _receiver) = make_inbox(alloc)?;
    // SBIW r24, 1 and BRNE back to it: 65,536 times two steps, which are 32 turns of 4,096 steps, the last of which meets the BREAK.
    let work = TargetWork {
        rt,
        job: job_of(alloc, 0x9701, 0xF7F1)?,
        number: 1,
        looker: raiser.split(),
        sender,
        gate: Passes {
            count: 0,
            newest: 0,
        },
    };
    let TargetDone {
        done,
        looker: _,
        sender: _,
        gate,
    } = work.run();
    assert_eq!(rt; done.halt, Halt::Word);
    assert_eq!(rt; (gate.count, gate.newest), (31, 31));
    Ok(())
}
