//! A spawner of the tests.
ghost use Rattle.std.specs.Prelude.{◌≡◌};

use ice_base::{Spawner, Work};

/// Refuses its first work where it is to, and does each other one at its start.
#[derive(Drop)]
pub(super) struct SecondOn {
    refuses: bool,
    faults: u64,
    starts: u64,
    joins: u64,
}

impl SecondOn {
    /// Refuses none.
    pub(super) fn ready() -> SecondOn {
        SecondOn {
            refuses: false,
            faults: 0,
            starts: 0,
            joins: 0,
        }
    }

    /// Refuses the first.
    pub(super) fn refusing() -> SecondOn {
        SecondOn {
            refuses: true,
            faults: 0,
            starts: 0,
            joins: 0,
        }
    }
}

/// What a work gave.
#[derive(Drop)]
pub(super) struct Given<D> {
    done: D,
}

impl<W: Work> Spawner<W> for SecondOn {
    ghost use Rattle.std.specs.Prelude.{⊤};

    type Ticket = Given<W::Done>;

    ghost faults = { λ s. s.faults };

    ghost starts = { λ s. s.starts };

    ghost joins = { λ s. s.joins };

    ghost allows = { λ ticket done. done ≡ ticket.done };

    ghost sound = { λ s. ⊤ };

    fn start(&mut self, work: W) -> Result<Given<W::Done>, W> {
        if self.refuses {
            self.refuses = false;
            self.faults = self.faults.saturating_add(1);
            return Err(work);
        }
        self.starts = self.starts.wrapping_add(1);
        Ok(Given { done: work.run() })
    }

    fn join(&mut self, ticket: Given<W::Done>) -> W::Done {
        self.joins = self.joins.wrapping_add(1);
        let Given { done } = ticket;
        done
    }
}
