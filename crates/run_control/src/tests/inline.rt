//! The runner that makes a run at its launch.
use super::{PORT_PLANTED, job_of, progress};
use crate::{Done, Halt, Inline, Job, Runner};
use arrayvec::ArrayVec;
use ice_base::MemFlash;
use std::test::Fail;

#[test]
fn each_launch_has_its_own_number_of_steps(rt: HostRuntime) -> Result<(), Fail> {
    let mut stops = ArrayVec::new();
    stops.push(3);
    stops.push(5);
    let mut runner = Inline::of(stops);
    for steps in [3u64, 5, 5] {
        let Ok(()) = runner.launch(job_of(rt.alloc(), &[0xCFFF])?) else {
            return Ok(());
        };
        assert!(rt; !runner.ready());
        runner.raise_stop();
        assert!(rt; runner.ready());
        let Done { job, halt } = runner.collect();
        assert_eq!(rt; halt, Halt::Forced);
        assert_eq!(rt; progress(&job.core), (0u16, 2 * steps, steps));
        assert!(rt; !runner.ready());
    }
    Ok(())
}

#[test]
fn a_run_that_ends_by_itself_is_ready_at_once(rt: HostRuntime) -> Result<(), Fail> {
    let mut stops = ArrayVec::new();
    stops.push(100);
    let mut runner = Inline::of(stops);
    let Ok(()) = runner.launch(job_of(rt.alloc(), &PORT_PLANTED)?) else {
        return Ok(());
    };
    assert!(rt; runner.ready());
    let Done { job, halt } = runner.collect();
    assert_eq!(rt; halt, Halt::Word);
    assert_eq!(rt; progress(&job.core), (2u16, 2u64, 2u64));
    Ok(())
}
