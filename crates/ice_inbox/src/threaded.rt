//! The runner whose target runs on a thread of its own.
ghost use Rattle.std.specs.Prelude.{◌≡◌, ◌+◌, ◌<◌, ◌≤◌, ◌%◌, ◌^◌, ℕ, suc, Bool, true, false, [], is_none, is_some, OnOk, OnErr, IfErr};
ghost use Rattle.flash_patch.specs.Asking.{seen};
ghost use Rattle.ice_base.specs.Counts.{HasCause};
ghost use Rattle.run_control.specs.Runs.{MayAdvance};
ghost use Rattle.run_control.specs.Ends.{EndsJob};
ghost use Rattle.run_control.specs.declared.runner.Done.{Done as Ended};
ghost use Rattle.ice_inbox.specs.Threads.{IsSoundThreaded, MayGive, is_raised, kept_of};

use crate::inbox::TargetSender;
use crate::stop_word::StopRaiser;
use crate::target_work::{TargetDone, TargetWork};
use ice_base::{Flash, Gate, Spawner};
use run_control::{Done, Job, Runner};
use std::marker::PhantomData;
use std::sync::Wait;

/// What the work of a target needs beside a job and a looker.
#[derive(Drop)]
struct Parts<G: Gate> {
    sender: TargetSender,
    gate: G,
}

/// Makes the run of a job on a thread of its own, which a spawner starts. Jobs are numbered from 1.
#[derive(Drop)]
pub struct Threaded<F: Flash, G: Gate, P: Spawner<TargetWork<F, G, R>>, R: Wait + Copy> {
    rt: R,
    raiser: StopRaiser,
    spawner: P,
    /// They are here while no job is out.
    parts: Option<Parts<G>>,
    /// It is there while a job is out.
    ticket: Option<P::Ticket>,
    launches: u64,
    collects: u64,
    flash: PhantomData<F>,
}

impl<F: Flash, G: Gate, P: Spawner<TargetWork<F, G, R>>, R: Wait + Copy> Threaded<F, G, P, R> {
    /// A runner over these parts. The raiser has raised no number, and none of its lookers is out.
    pub fn of(
        rt: R,
        raiser: StopRaiser,
        sender: TargetSender,
        gate: G,
        spawner: P,
    ) -> Threaded<F, G, P, R>
        requires home { raiser.is_out ≡ false }
        requires none { raiser.raised ≡ [] }
        requires sound { P.sound spawner }
        ensures spawner { result.spawner ≡ spawner }
        ensures free { is_some result.ticket ≡ false }
        ensures counts { (result.launches ≡ 0) × (result.collects ≡ 0) }
        ensures sound { IsSoundThreaded (P.sound result.spawner) P.allows result.raiser result.launches (is_some result.parts)
            result.ticket }
    {
        Threaded {
            rt,
            raiser,
            spawner,
            parts: Some(Parts { sender, gate }),
            ticket: None,
            launches: 0,
            collects: 0,
            flash: PhantomData,
        }
    }

    /// Gives the spawner back. No job is out.
    pub fn finish(self) -> P
        requires { is_some self.ticket ≡ false }
        ensures { result ≡ self.spawner }
    {
        let Threaded { spawner, .. } = self;
        spawner
    }
}

impl<F: Flash, G: Gate, P: Spawner<TargetWork<F, G, R>>, R: Wait + Copy> Runner<F>
    for Threaded<F, G, P, R> {
    ghost use Rattle.std.specs.Prelude.{is_some};
    ghost use Rattle.ice_inbox.specs.Threads.{Kept, IsSoundThreaded, MayGive, is_raised, kept_of};

    ghost Kept = { Kept };

    ghost kept = { λ s. kept_of (P.starts s.spawner) s.launches (P.joins s.spawner) s.collects };

    ghost sound = { λ s. IsSoundThreaded (P.sound s.spawner) P.allows s.raiser s.launches (is_some s.parts) s.ticket };

    ghost faults = { λ s. P.faults s.spawner };

    ghost launches = { λ s. s.launches };

    ghost collects = { λ s. s.collects };

    ghost is_out = { λ s. is_some s.ticket };

    ghost is_ready = { λ s. is_some s.ticket };

    ghost raised = { λ s. is_raised s.launches s.raiser.raised };

    ghost may_give = { λ s. MayGive P.allows s.ticket };

    fn launch(&mut self, job: Job<F>) -> Result<(), Job<F>>
        requires sound { IsSoundThreaded (P.sound self.old.spawner) P.allows self.old.raiser self.old.launches (is_some self.old.parts)
            self.old.ticket }
        requires free { is_some self.old.ticket ≡ false }
        requires few { self.old.launches < 2 ^ 62 }
        requires fresh { job.fresh ≡ true }
        requires ready { MayAdvance (seen F.words F.journal F.faults F.writes) F.part job }
        ensures out { OnOk result ((is_some self.new.ticket ≡ true) × (is_raised self.new.launches self.new.raiser.raised ≡ false)) }
        ensures counts { OnOk result (self.new.launches ≡ suc self.old.launches) }
        ensures ends { OnOk result ((done : Ended F) → MayGive P.allows self.new.ticket done →
            EndsJob (seen F.words F.journal F.faults F.writes) F.part job done) }
        ensures back { IfErr result (λ given. given ≡ job) }
        ensures still { OnErr result ((is_some self.new.ticket ≡ false) × (self.new.launches ≡ self.old.launches)) }
        ensures cause { HasCause result (P.faults self.old.spawner) (P.faults self.new.spawner) }
        ensures collects { self.new.collects ≡ self.old.collects }
        ensures sound { IsSoundThreaded (P.sound self.new.spawner) P.allows self.new.raiser self.new.launches (is_some self.new.parts)
            self.new.ticket }
        ensures kept { kept_of (P.starts self.new.spawner) self.new.launches (P.joins self.new.spawner) self.new.collects ≡
            kept_of (P.starts self.old.spawner) self.old.launches (P.joins self.old.spawner) self.old.collects }
        ensures started { OnOk result (P.starts self.new.spawner ≡ (P.starts self.old.spawner + 1) % 2 ^ 64) }
        ensures refused { OnErr result (P.starts self.new.spawner ≡ P.starts self.old.spawner) }
        ensures joins { P.joins self.new.spawner ≡ P.joins self.old.spawner }
    {
        let Some(Parts { sender, gate }) = self.parts.take() else {
            unreachable!()
        };
        let looker = self.raiser.split();
        let number = self.launches + 1;
        let work = TargetWork {
            rt: self.rt,
            job,
            number,
            looker,
            sender,
            gate,
        };
        match self.spawner.start(work) {
            Ok(ticket) => {
                self.ticket = Some(ticket);
                self.launches = number;
                Ok(())
            }
            Err(work) => {
                let TargetWork {
                    rt: _,
                    job,
                    number: _,
                    looker,
                    sender,
                    gate,
                } = work;
                self.raiser.join(looker);
                self.parts = Some(Parts { sender, gate });
                Err(job)
            }
        }
    }

    fn raise_stop(&mut self) {
        self.raiser.raise(self.launches);
    }

    fn ready(&self) -> bool {
        self.ticket.is_some()
    }

    fn collect(&mut self) -> Done<F> {
        let Some(ticket) = self.ticket.take() else {
            unreachable!()
        };
        let TargetDone {
            done,
            looker,
            sender,
            gate,
        } = self.spawner.join(ticket);
        self.raiser.join(looker);
        self.parts = Some(Parts { sender, gate });
        self.collects += 1;
        done
    }
}
