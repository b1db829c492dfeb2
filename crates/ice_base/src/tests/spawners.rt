//! Work beside its caller, and work that is refused.
ghost use Rattle.std.specs.Prelude.{◌≡◌};

use crate::{FnSpawner, HandleTicket, Spawner, Work, begin_on_thread};
use std::alloc::Global;
use std::sync::Arc;
use std::sync::atomic::{AtomicBool, Ordering};
use std::test::Fail;
use std::thread;

/// How often a work looks for its sign.
const LOOKS: u32 = 10_000_000;

/// A work that looks for a sign, and gives its number and whether the sign was seen.
#[derive(Drop)]
struct Watch {
    number: u64,
    sign: Arc<AtomicBool, Global>,
}

impl Work for Watch {
    type Done = (u64, bool);

    ghost gives = { λ watch done. done.0 ≡ watch.number };

    fn run(self) -> (u64, bool) {
        let number = self.number;
        for _ in 0..LOOKS {
            if self.sign.load(Ordering::SeqCst) {
                return (number, true);
            }
            thread::yield_now();
        }
        (number, false)
    }
}

#[test]
fn a_work_sees_what_its_caller_does_after_the_start(rt: HostRuntime) -> Result<(), Fail> {
    let alloc = rt.alloc();
    let sign = Arc::new(alloc, AtomicBool::new(false))?;
    let watch = Watch {
        number: 7,
        sign: Arc::try_clone(&sign)?,
    };
    let mut spawner = FnSpawner::of(move |watch: Watch| begin_on_thread(rt, alloc, watch));
    let ticket = spawner.start(watch).ok().ok_or("a thread")?;
    sign.store(true, Ordering::SeqCst);
    assert_eq!(rt; spawner.join(ticket), (7, true));
    assert_eq!(rt; spawner.faults(), 0);
    Ok(())
}

#[test]
fn a_refused_work_comes_back(rt: HostRuntime) -> Result<(), Fail> {
    let sign = Arc::new(rt.alloc(), AtomicBool::new(false))?;
    let mut spawner = FnSpawner::of(|watch: Watch| Err::<HandleTicket<Watch, HostRuntime>, Watch>(
        watch,
    ));
    let refused = spawner
        .start(Watch { number: 9, sign })
        .err()
        .ok_or("refused")?;
    assert_eq!(rt; refused.number, 9);
    assert_eq!(rt; spawner.faults(), 1);
    Ok(())
}
