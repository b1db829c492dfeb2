//! The runner that makes a run at its launch, within a number of steps.
ghost use Rattle.std.specs.Prelude.{◌≡◌, ◌≢◌, ◌<◌, ◌≤◌, ◌^◌, ◌||◌, ℕ, suc, Bool, true, false, length, is_ok, OnOk, OnErr, IfErr};
ghost use Rattle.flash_patch.specs.Asking.{seen};
ghost use Rattle.debug_spec.specs.Replay.{steps_for};
ghost use Rattle.ice_base.specs.Counts.{HasCause};
ghost use Rattle.run_control.specs.Runs.{MayAdvance};
ghost use Rattle.run_control.specs.Ends.{AreStops, EndsJob, EndsWithin, IsGiven, IsSoundInline, is_taken, is_ended};
ghost use Rattle.run_control.specs.declared.runner.Done.{Done as Ended};

use crate::job::{Halt, Job, Turn};
use crate::look::StopLook;
use crate::runner::{Done, Runner};
use arrayvec::ArrayVec;
use ice_base::Flash;

/// The most numbers of steps.
const MOST_STOPS: usize = 64;

/// Where the job is.
#[derive(Drop)]
enum Seat<F: Flash> {
    /// None is out.
    Free,
    /// It made all its steps, and stands at a boundary where nothing stops it.
    Going(Job<F>),
    /// Its run has ended.
    Ended(Done<F>),
}

/// Makes the run of a job at its launch. The k-th launch has the k-th number of steps, and each launch behind the list the last. A job
/// that has not ended within them waits for a stop, and is then forced to end where it stands.
#[derive(Drop)]
pub struct Inline<F: Flash> {
    stops: ArrayVec<u32, MOST_STOPS>,
    seat: Seat<F>,
    raised: bool,
    launches: u64,
    collects: u64,
}

/// Never tells a run to stop.
#[derive(Drop)]
struct Never {
    looks: u64,
}

impl StopLook for Never {
    ghost use Rattle.std.specs.Prelude.{false, ⊤};

    ghost Mark = { ⊤ };

    ghost looks = { λ s. s.looks };

    ghost yes = { λ s. 0 };

    ghost last = { λ s. false };

    ghost mark = { λ s. tt };

    fn look(&mut self) -> bool {
        self.looks = self.looks.wrapping_add(1);
        false
    }
}

impl<F: Flash> Inline<F> {
    /// A runner whose launches have these numbers of steps, in order.
    pub fn of(stops: ArrayVec<u32, MOST_STOPS>) -> Inline<F>
        requires { AreStops stops.items }
        ensures stops { result.stops.items ≡ stops.items }
        ensures free { is_taken result.seat ≡ false }
        ensures counts { (result.launches ≡ 0) × (result.collects ≡ 0) }
        ensures sound { IsSoundInline result.stops.items result.seat }
    {
        Inline {
            stops,
            seat: Seat::Free,
            raised: false,
            launches: 0,
            collects: 0,
        }
    }

    /// The number of steps of the next launch.
    fn steps(&self) -> u32
        requires { AreStops self.now.stops.items }
        ensures number { result ≡ steps_for self.now.stops.items (suc self.now.launches) }
        ensures some { 0 < result }
    {
        let last = self.stops.len() as u64 - 1;
        self.stops[self.launches.min(last) as usize]
    }
}

/// Makes the run of a job, within so many steps.
fn run<F: Flash>(job: Job<F>, steps: u32) -> Seat<F>
    requires some { 0 < steps }
    requires fresh { job.fresh ≡ true }
    requires ready { MayAdvance (seen F.words F.journal F.faults F.writes) F.part job }
    ensures taken { is_taken result ≡ true }
    ensures ends { (done : Ended F) → IsGiven result done →
        EndsWithin (seen F.words F.journal F.faults F.writes) F.part job done steps (is_ended result) }
    ensures forced { (done : Ended F) → IsGiven result done → is_ended result ≡ true → done.halt ≢ Halt.Forced }
{
    let mut job = job;
    match job.advance(steps, &mut Never { looks: 0 }) {
        Turn::Halted(halt) => Seat::Ended(Done { job, halt }),
        Turn::NotYet => Seat::Going(job),
    }
}

impl<F: Flash> Runner<F> for Inline<F> {
    ghost use Rattle.std.specs.Prelude.{◌&&◌, ◌||◌, ℕ, List};
    ghost use Rattle.run_control.specs.Ends.{IsGiven, IsSoundInline, is_taken, is_ended};

    ghost Kept = { List ℕ };

    ghost kept = { λ s. s.stops.items };

    ghost sound = { λ s. IsSoundInline s.stops.items s.seat };

    ghost faults = { λ s. 0 };

    ghost launches = { λ s. s.launches };

    ghost collects = { λ s. s.collects };

    ghost is_out = { λ s. is_taken s.seat };

    ghost is_ready = { λ s. is_taken s.seat && (is_ended s.seat || s.raised) };

    ghost raised = { λ s. s.raised };

    ghost may_give = { λ s. IsGiven s.seat };

    /// Never fails: the run is made here.
    fn launch(&mut self, job: Job<F>) -> Result<(), Job<F>>
        requires sound { IsSoundInline self.old.stops.items self.old.seat }
        requires free { is_taken self.old.seat ≡ false }
        requires few { self.old.launches < 2 ^ 62 }
        requires fresh { job.fresh ≡ true }
        requires ready { MayAdvance (seen F.words F.journal F.faults F.writes) F.part job }
        ensures works { is_ok result ≡ true }
        ensures out { OnOk result ((is_taken self.new.seat ≡ true) × (self.new.raised ≡ false)) }
        ensures counts { OnOk result (self.new.launches ≡ suc self.old.launches) }
        ensures ends { OnOk result ((done : Ended F) → IsGiven self.new.seat done →
            EndsJob (seen F.words F.journal F.faults F.writes) F.part job done) }
        ensures back { IfErr result (λ given. given ≡ job) }
        ensures still { OnErr result ((is_taken self.new.seat ≡ false) × (self.new.launches ≡ self.old.launches)) }
        ensures cause { HasCause result 0 0 }
        ensures collects { self.new.collects ≡ self.old.collects }
        ensures sound { IsSoundInline self.new.stops.items self.new.seat }
        ensures kept { self.new.stops.items ≡ self.old.stops.items }
        ensures made { (done : Ended F) → IsGiven self.new.seat done →
            EndsWithin (seen F.words F.journal F.faults F.writes) F.part job done (steps_for self.old.stops.items (suc self.old.launches))
            (is_ended self.new.seat) }
    {
        self.seat = run(job, self.steps());
        self.raised = false;
        self.launches += 1;
        Ok(())
    }

    fn raise_stop(&mut self) {
        self.raised = true;
    }

    fn ready(&self) -> bool {
        match self.seat {
            Seat::Free => false,
            Seat::Going(_) => self.raised,
            Seat::Ended(_) => true,
        }
    }

    fn collect(&mut self) -> Done<F> {
        self.collects += 1;
        match std::mem::replace(&mut self.seat, Seat::Free) {
            Seat::Free => unreachable!(),
            Seat::Going(job) => Done {
                job,
                halt: Halt::Forced,
            },
            Seat::Ended(done) => done,
        }
    }
}
