//! Work on threads of the standard library.
ghost use Rattle.std.specs.Prelude.{◌≡◌, Result};
ghost use Rattle.ice_base.specs.Spawning.{Begins};
ghost use Rattle.ice_base.specs.Tickets.{Comes, Allows};

use crate::{Joins, Work};
use std::alloc::Global;
use std::marker::Model;
use std::snapshot::Snapshot;
use std::sync::Arc;
use std::sync::atomic::{AtomicBool, Ordering};
use std::thread;
use std::thread::{Promise, PromisedHandle, Threads};

/// What a thread leaves that was handed a work.
#[derive(Drop)]
pub enum Came<W, D> {
    /// The work was done, and gave this.
    Done(D),
    /// The work was called off, and is as it was.
    Back(W),
}

/// The promise that a thread leaves what this work may give, or else the work.
#[derive(Drop)]
pub struct ComesOf<W: Work>(Snapshot<W>);

impl<W: Work> Model for ComesOf<W> {
    ghost Value = { W };

    ghost view = { λ s. s.0.value };
}

impl<W: Work> Promise<Came<W, W::Done>> for ComesOf<W> {
    ghost kept_by = { λ work came. Comes W.gives work came };
}

/// Where the value of a work is.
#[derive(Drop)]
enum Place<H, D> {
    /// On the thread of this handle.
    Away(H),
    /// Here.
    Here(D),
}

/// A ticket for a work on a thread.
#[derive(Drop)]
pub struct HandleTicket<W: Work, R: Threads + Copy> {
    place: Place<PromisedHandle<Came<W, W::Done>, ComesOf<W>>, W::Done>,
    rt: R,
}

impl<W: Work, R: Threads + Copy> Joins<W> for HandleTicket<W, R> {
    ghost allows = { λ ticket done. Allows (λ handle given. W.gives handle.promise given) ticket.place done };

    fn join(self) -> W::Done {
        let HandleTicket { place, rt } = self;
        match place {
            Place::Here(done) => done,
            Place::Away(handle) => match handle.join(&rt) {
                Came::Done(done) => done,
                Came::Back(work) => work.run(),
            },
        }
    }
}

/// Does the work, unless it was called off.
fn run_unless<W: Work>(called_off: bool, work: W) -> Came<W, W::Done>
    ensures { Comes W.gives work result }
{
    if called_off {
        return Came::Back(work);
    }
    Came::Done(work.run())
}

/// Begins a work on a thread of its own. Where no thread can be made, or no memory is there for the flag by which the work
/// is called off, the work is handed back as it was.
pub fn begin_on_thread<
    R: Threads + Copy,
    W: Work<Done = D> + Send + 'static,
    D: Send + Drop + 'static,
>(rt: R, alloc: Global, work: W) -> Result<HandleTicket<W, R>, W>
    ensures { Begins W.gives ⟦<HandleTicket<W, R> as Joins<W>>⟧.allows work result }
{
    let Ok(called_off) = Arc::new(alloc, AtomicBool::new(false)) else {
        return Err(work);
    };
    let Ok(seen) = Arc::try_clone(&called_off) else {
        return Err(work);
    };
    let promise = ComesOf(Snapshot::of(&work));
    match thread::spawn_with(
        &rt,
        promise,
        move || run_unless(seen.load(Ordering::SeqCst), work),
    ) {
        Ok(handle) => Ok(HandleTicket {
            place: Place::Away(handle),
            rt,
        }),
        Err(refused) => {
            called_off.store(true, Ordering::SeqCst);
            match (refused.value)() {
                Came::Back(work) => Err(work),
                Came::Done(done) => Ok(HandleTicket {
                    place: Place::Here(done),
                    rt,
                }),
            }
        }
    }
}
