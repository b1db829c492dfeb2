//! Runners: each takes a job out, and gives it back at an end of its run.
ghost use Rattle.std.specs.Prelude.{◌≡◌, ◌<◌, ◌≤◌, ◌^◌, ℕ, suc, Bool, true, false, OnOk, OnErr, IfErr};
ghost use Rattle.flash_patch.specs.Asking.{seen};
ghost use Rattle.ice_base.specs.Counts.{HasCause};
ghost use Rattle.run_control.specs.Runs.{MayAdvance};
ghost use Rattle.run_control.specs.Ends.{EndsJob};

use crate::job::{Halt, Job};
use ice_base::Flash;

/// A job at an end of its run.
#[derive(Drop)]
pub struct Done<F: Flash> {
    /// The job where the run ended.
    pub job: Job<F>,
    /// Why it ended; never as a single step.
    pub halt: Halt,
}

/// Who makes the run of a job, on its own or on another thread.
pub trait Runner<F: Flash>: Drop {
    ghost use Rattle.run_control.specs.declared.runner.Done.{Done};

    /// The type of what it keeps.
    ghost Kept: { Type 0 };

    /// What it keeps: no call changes it.
    ghost kept: { Self → Self.Kept };

    /// What its calls rest on.
    ghost sound: { Self → Type 0 };

    /// How many launches have failed, up to the greatest u64.
    ghost faults: { Self → ℕ };

    /// How many launches worked.
    ghost launches: { Self → ℕ };

    /// How many jobs were given back.
    ghost collects: { Self → ℕ };

    /// A job is out.
    ghost is_out: { Self → Bool };

    /// The job that is out can be collected.
    ghost is_ready: { Self → Bool };

    /// A stop was raised for it.
    ghost raised: { Self → Bool };

    /// What may be given back of it.
    ghost may_give: { Self → Done F → Type 0 };

    /// Takes a job out. Where that fails the job comes back as it was.
    fn launch(&mut self, job: Job<F>) -> Result<(), Job<F>>
        requires sound { sound self.old }
        requires free { is_out self.old ≡ false }
        requires few { launches self.old < 2 ^ 62 }
        requires fresh { job.fresh ≡ true }
        requires ready { MayAdvance (seen F.words F.journal F.faults F.writes) F.part job }
        ensures out { OnOk result ((is_out self.new ≡ true) × (raised self.new ≡ false)) }
        ensures counts { OnOk result (launches self.new ≡ suc (launches self.old)) }
        ensures ends { OnOk result ((done : Done F) → may_give self.new done →
            EndsJob (seen F.words F.journal F.faults F.writes) F.part job done) }
        ensures back { IfErr result (λ given. given ≡ job) }
        ensures still { OnErr result ((is_out self.new ≡ false) × (launches self.new ≡ launches self.old)) }
        ensures cause { HasCause result (faults self.old) (faults self.new) }
        ensures collects { collects self.new ≡ collects self.old }
        ensures sound { sound self.new }
        ensures kept { kept self.new ≡ kept self.old };

    /// Asks the job that is out to stop.
    fn raise_stop(&mut self)
        requires sound { sound self.old }
        requires out { is_out self.old ≡ true }
        ensures raised { raised self.new ≡ true }
        ensures out { is_out self.new ≡ true }
        ensures ends { (done : Done F) → may_give self.new done → may_give self.old done }
        ensures counts { (launches self.new ≡ launches self.old) × (collects self.new ≡ collects self.old) }
        ensures faults { faults self.old ≤ faults self.new }
        ensures sound { sound self.new }
        ensures kept { kept self.new ≡ kept self.old };

    /// The job that is out can be collected.
    fn ready(&self) -> bool
        ensures { result ≡ is_ready self.now };

    /// Gives back the job that is out, at an end of its run. It is forced only where a stop was raised.
    fn collect(&mut self) -> Done<F>
        requires sound { sound self.old }
        requires out { is_out self.old ≡ true }
        requires ready { is_ready self.old ≡ true }
        requires due { collects self.old < launches self.old }
        ensures gives { may_give self.old result }
        ensures forced { result.halt ≡ Halt.Forced → raised self.old ≡ true }
        ensures free { is_out self.new ≡ false }
        ensures counts { (launches self.new ≡ launches self.old) × (collects self.new ≡ suc (collects self.old)) }
        ensures faults { faults self.old ≤ faults self.new }
        ensures sound { sound self.new }
        ensures kept { kept self.new ≡ kept self.old };
}
