//! A spawner over a function that begins a work.
ghost use Rattle.std.specs.Prelude.{◌≡◌, ◌+◌, ◌%◌, ◌^◌, ℕ, Result, IfOk, OnOk, IfErr, OnErr};
ghost use Rattle.ice_base.specs.Counts.{HasCause};
ghost use Rattle.ice_base.specs.Spawning.{IsBeginning};

use crate::{Spawner, Work};
use std::marker::Model;

/// A ticket by which the value of a work is waited for.
pub trait Joins<W: Work>: Drop {
    /// Which values the join may give.
    ghost allows: { Self → W.Done → Type 0 };

    /// Waits until the work is done, and gives its value.
    fn join(self) -> W::Done
        ensures { allows self result };
}

/// A spawner that begins each work by one function, which hands a work that it could not begin back as it was.
#[derive(Drop)]
pub struct FnSpawner<F> {
    begin: F,
    faults: u64,
    starts: u64,
    joins: u64,
}

impl<F> Model for FnSpawner<F> {
    ghost use Rattle.ice_base.specs.Spawning.{SpawnerState};

    ghost Value = { SpawnerState F };

    ghost view = { λ s. record { begin = s.begin; faults = s.faults; starts = s.starts; joins = s.joins } };
}

impl<F> FnSpawner<F> {
    /// A spawner that begins a work by this function.
    pub fn of(begin: F) -> FnSpawner<F>
        ensures { result ≡ record { begin = begin; faults = 0; starts = 0; joins = 0 } }
    {
        FnSpawner {
            begin,
            faults: 0,
            starts: 0,
            joins: 0,
        }
    }

    /// How many starts were refused, up to the greatest u64.
    pub fn faults(&self) -> u64
        ensures { result ≡ self.now.faults }
    {
        self.faults
    }
}

impl<W: Work, T: Joins<W>, F: Fn(W) -> Result<T, W> + Drop> Spawner<W> for FnSpawner<F> {
    type Ticket = T;

    ghost faults = { λ s. s.faults };

    ghost starts = { λ s. s.starts };

    ghost joins = { λ s. s.joins };

    ghost allows = { T.allows };

    ghost sound = { λ s. IsBeginning W.gives T.allows (F.pre s.begin) (F.post s.begin) };

    fn start(&mut self, work: W) -> Result<T, W>
        requires sound { IsBeginning W.gives T.allows (F.pre self.old.begin) (F.post self.old.begin) }
        // What its function answered.
        ensures begun { F.post self.old.begin work result }
        ensures gives { IfOk result (λ ticket. (done : W.Done) → T.allows ticket done → W.gives work done) }
        ensures ok { OnOk result (self.new.starts ≡ (self.old.starts + 1) % 2 ^ 64) }
        ensures back { IfErr result (λ given. given ≡ work) }
        ensures err { OnErr result (self.new.starts ≡ self.old.starts) }
        ensures joins { self.new.joins ≡ self.old.joins }
        ensures cause { HasCause result self.old.faults self.new.faults }
        ensures still { OnOk result (self.new.faults ≡ self.old.faults) }
        ensures sound { IsBeginning W.gives T.allows (F.pre self.new.begin) (F.post self.new.begin) }
    {
        match (self.begin)(work) {
            Ok(ticket) => {
                self.starts = self.starts.wrapping_add(1);
                Ok(ticket)
            }
            Err(work) => {
                self.faults = self.faults.saturating_add(1);
                Err(work)
            }
        }
    }

    fn join(&mut self, ticket: T) -> W::Done {
        self.joins = self.joins.wrapping_add(1);
        ticket.join()
    }
}
