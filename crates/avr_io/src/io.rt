//! The I/O space.
ghost use Rattle.std.specs.Prelude.{◌≡◌, ◌<◌, slice_get, IfOk, IfSome, IsTrue};
ghost use Rattle.part_spec.specs.Chip.{m16, chip_of};
ghost use Rattle.avr_spec.specs.IoSpace.{IoState, load_io, store_io, stored_byte};
ghost use Rattle.avr_spec.specs.Timers.{ticks};
ghost use Rattle.avr_spec.specs.Interrupts.{is_pending, pending, take_flag};
ghost use Rattle.avr_spec.specs.Machine.{io_start, restarted_io};
ghost use Rattle.avr_spec.specs.Kept.{kept_io};
ghost use Rattle.avr_io.specs.Keeps.{io_of, IsKeptIo, Moves, Shows};
ghost use Rattle.avr_io.specs.Pending.{is_any_pending};
ghost use Rattle.avr_io.specs.Quiet.{with_byte};

use crate::address::{TCNT0, TCNT2, is_output, is_watched};
use crate::space::Space;
use crate::timer::{TIMER0, TIMER2};
use avr_spec::{OutWrite, Vector};
use part_spec::Part;
use std::alloc::{AllocError, Global};
use std::marker::Model;

/// The I/O space: 64 bytes with two timers, the count of cycles, and the newest 4,096 output writes.
///
/// Cycles in which the timers only raise their counters are not counted one by one: they are added up, and the counters follow
/// when they are asked for or when a timer comes to its next event.
#[derive(Drop)]
pub struct Io {
    /// The space as it stood `passed` cycles ago.
    space: Space,
    passed: u64,
    /// For how many cycles from then on both timers are quiet.
    limit: u64,
    /// Whether any interrupt is pending.
    pending: bool,
}

impl Model for Io {
    ghost use Rattle.avr_spec.specs.Kept.{KeptIo};
    ghost use Rattle.avr_io.specs.Quiet.{later, IsWatched};

    ghost Value = { KeptIo };

    ghost view = { λ s. later s.passed s.space };

    ghost invariant = { λ s. IsWatched s.space s.passed s.limit s.pending };
}

impl Io {
    /// An I/O space of an ATmega16 at its start: all bytes and the count of cycles 0, no output write. It takes all its memory
    /// here.
    pub fn new(alloc: Global) -> Result<Io, AllocError>
        ensures { IfOk result (λ io. io ≡ kept_io m16 io_start) }
    {
        Io::of(alloc, Part::M16)
    }

    /// The same of a part.
    pub fn of(alloc: Global, part: Part) -> Result<Io, AllocError>
        ensures { IfOk result (λ io. io ≡ kept_io (chip_of part) io_start) }
    {
        let space = Space::of(alloc, part)?;
        let limit = space.quiet_cycles();
        let pending = space.is_any_pending();
        Ok(Io {
            space,
            passed: 0,
            limit,
            pending,
        })
    }

    /// The byte that a load of an I/O address (below 64) gives.
    #[inline]
    pub fn load(&self, a: u8) -> u8
        requires { a < 64 }
        ensures { Shows self.now result (λ part io. load_io a io) }
    {
        if a == TCNT0 {
            self.space.count_after(&TIMER0, self.passed)
        } else if a == TCNT2 {
            self.space.count_after(&TIMER2, self.passed)
        } else {
            self.space.load(a)
        }
    }

    /// Stores a byte at an I/O address (below 64). A store to a PORTx, a DDRx or UDR is an output write.
    #[inline]
    pub fn store(&mut self, a: u8, v: u8)
        requires { a < 64 }
        ensures moves { Moves self.old self.new (store_io a v) }
        ensures part { self.new.part ≡ self.old.part }
    {
        self.put(a, v);
        if is_output(a) {
            let cycle = self.cycles();
            self.space.note(OutWrite { cycle, a, byte: v });
        }
    }

    /// Leaves at an I/O address what a store of a byte leaves there.
    fn put(&mut self, a: u8, v: u8)
        requires { a < 64 }
        ensures { self.new ≡ with_byte a (stored_byte a v (io_of self.old)) self.old }
    {
        if is_watched(a) {
            self.put_to_watched(a, v);
        } else {
            self.space.put(a, v);
        }
    }

    /// A store that may change when an interrupt is pending: the counters are brought up to date before it, and it is looked ahead
    /// anew after it.
    #[cold]
    #[inline(never)]
    fn put_to_watched(&mut self, a: u8, v: u8)
        requires { a < 64 }
        ensures { self.new ≡ with_byte a (stored_byte a v (io_of self.old)) self.old }
    {
        self.space.pass(self.passed);
        self.space.put(a, v);
        self.passed = 0;
        self.limit = self.space.quiet_cycles();
        self.pending = self.space.is_any_pending();
    }

    /// The interrupt that is pending and has the lowest address, with no regard to SREG.
    pub fn pending(&self) -> Option<Vector>
        ensures first { Shows self.now result pending }
        ensures pending { IfSome result (λ v. IsTrue (is_pending (io_of self.now) v)) }
    {
        if self.pending {
            self.space.pending()
        } else {
            None
        }
    }

    /// Whether any interrupt is pending, with no regard to SREG.
    #[inline]
    pub fn is_any_pending(&self) -> bool
        ensures { Shows self.now result (λ part io. is_any_pending io) }
    {
        self.pending
    }

    /// Takes an interrupt that is pending: clears its flag.
    pub fn take(&mut self, v: Vector)
        requires { IsTrue (is_pending (io_of self.old) v) }
        ensures moves { Moves self.old self.new (take_flag v) }
        ensures part { self.new.part ≡ self.old.part }
    {
        self.space.take(v);
        self.pending = self.space.is_any_pending();
    }

    /// The count of cycles, modulo 2^64.
    pub fn cycles(&self) -> u64
        ensures cycles { result ≡ self.now.cycles }
        ensures kept { IsKeptIo self.now }
    {
        self.space.cycles().wrapping_add(self.passed)
    }

    /// How many output writes there were, modulo 2^64.
    pub fn writes(&self) -> u64
        ensures { result ≡ self.now.total }
    {
        self.space.writes()
    }

    /// An output write that is kept, counted back from the newest, which is 0. `None` where no such one is kept.
    pub fn last(&self, back: usize) -> Option<OutWrite>
        ensures { result ≡ slice_get self.now.ring back }
    {
        self.space.last(back)
    }

    /// Lets `n` cycles pass: in each the count of cycles rises by 1, and each timer counts whose divisor divides the new count.
    #[inline]
    pub fn tick(&mut self, n: u8)
        ensures moves { Moves self.old self.new (ticks n) }
        ensures part { self.new.part ≡ self.old.part }
    {
        let passed = self.passed + u64::from(n);
        if passed <= self.limit {
            self.passed = passed;
        } else {
            self.tick_past_limit(n);
        }
    }

    /// Lets `n` cycles pass one by one, and looks ahead anew.
    #[cold]
    #[inline(never)]
    fn tick_past_limit(&mut self, n: u8)
        ensures moves { Moves self.old self.new (ticks n) }
        ensures part { self.new.part ≡ self.old.part }
    {
        self.space.pass(self.passed);
        self.space.tick(n);
        self.passed = 0;
        self.limit = self.space.quiet_cycles();
        self.pending = self.space.is_any_pending();
    }

    /// Sets all 64 bytes to 0, as a reset of the target does. The count of cycles and the output writes stay.
    pub fn restart(&mut self)
        ensures moves { Moves self.old self.new (restarted_io) }
        ensures part { self.new.part ≡ self.old.part }
    {
        self.space.pass(self.passed);
        self.space.restart();
        self.passed = 0;
        self.limit = self.space.quiet_cycles();
        self.pending = self.space.is_any_pending();
    }
}
