//! The I/O space with its timers up to date.
ghost use Rattle.std.specs.Prelude.{◌≡◌, ◌<◌, ◌≤◌, ℕ, false, if◌then◌else◌, slice_get, replicate, IfOk, IfSome, IsTrue};
ghost use Rattle.part_spec.specs.Chip.{chip_of};
ghost use Rattle.avr_spec.specs.Bytes.{with_bit};
ghost use Rattle.avr_spec.specs.IoSpace.{IoState, kept_byte, tifr, load_io, stored_byte};
ghost use Rattle.avr_spec.specs.Timers.{divisor, next_count, next_flags, counts_now, clears_on_compare, counted, clocked, tick, ticks};
ghost use Rattle.avr_spec.specs.Interrupts.{flag_of, is_pending, earlier, pending};
ghost use Rattle.avr_spec.specs.Machine.{io_start};
ghost use Rattle.avr_spec.specs.Kept.{kept_io};
ghost use Rattle.avr_io.specs.Keeps.{io_of, IsKeptIo, Moves};
ghost use Rattle.avr_io.specs.TimerOf.{timer_of, IsInIo};
ghost use Rattle.avr_io.specs.Pending.{is_any_pending};
ghost use Rattle.avr_io.specs.Quiet.{next_event, is_quiet_for, IsQuietFor, count_after, later, longest, with_byte, with_write};

use crate::address::{EECR, TCNT0, TCNT2, TIFR, TIMSK, UCSRA, is_pin, is_read_only};
use crate::bits::{has_bit, set_where, with_bit};
use crate::timer::{LONGEST, TIMER0, TIMER2, Timer};
use avr_spec::{OutWrite, Vector};
use circular_buffer::HeapCircularBuffer;
use part_spec::Part;
use std::alloc::{AllocError, Global};
use std::marker::Model;

/// How many output writes are kept.
const RING_SIZE: usize = 4096;

/// The four flags of TIFR.
const TIFR_FLAGS: u8 = 0xC3;

/// The I/O space as it stands: 64 bytes with two timers, the count of cycles, and the newest 4,096 output writes.
#[derive(Drop)]
pub(crate) struct Space {
    part: Part,
    bytes: [u8; 64],
    cycles: u64,
    ring: HeapCircularBuffer<OutWrite>,
    total: u64,
}

impl Model for Space {
    ghost use Rattle.std.specs.Prelude.{◌≡◌};
    ghost use Rattle.part_spec.specs.Chip.{chip_of};
    ghost use Rattle.avr_spec.specs.Kept.{KeptIo, ring_size};
    ghost use Rattle.avr_io.specs.Keeps.{IsKeptIo};

    ghost Value = { KeptIo };

    ghost view = { λ s. record { part = chip_of s.part; bytes = s.bytes; cycles = s.cycles; ring = s.ring.items; total = s.total } };

    ghost invariant = { λ s. (s.ring.capacity ≡ ring_size) × IsKeptIo (record { part = chip_of s.part; bytes = s.bytes; cycles = s.cycles; ring = s.ring.items; total = s.total }) };
}

impl Space {
    /// An I/O space of a part at its start: all bytes and the count of cycles 0, no output write. It takes all its memory here.
    pub(crate) fn of(alloc: Global, part: Part) -> Result<Space, AllocError>
        ensures { IfOk result (λ io. io ≡ kept_io (chip_of part) io_start) }
    {
        Ok(Space {
            part,
            bytes: [0; 64],
            cycles: 0,
            ring: HeapCircularBuffer::with_capacity(alloc, RING_SIZE)?,
            total: 0,
        })
    }

    /// The byte that a load of an I/O address (below 64) gives.
    pub(crate) fn load(&self, a: u8) -> u8
        requires { a < 64 }
        ensures { result ≡ load_io a (io_of self.now) }
    {
        if is_pin(a) {
            self.bytes[usize::from(a) + 2]
        } else if a == UCSRA {
            0x20
        } else if a == EECR {
            0
        } else if a == TIFR {
            self.bytes[usize::from(TIFR)] & TIFR_FLAGS
        } else {
            self.bytes[usize::from(a)]
        }
    }

    /// The byte that a store leaves at an I/O address. A store to TIFR clears the flags whose bit is 1.
    fn stored_byte(&self, a: u8, v: u8) -> u8
        requires { a < 64 }
        ensures { result ≡ stored_byte a v (io_of self.now) }
    {
        if is_read_only(a) {
            self.bytes[usize::from(a)]
        } else if a == TIFR {
            self.bytes[usize::from(TIFR)] & !v
        } else {
            v
        }
    }

    /// Leaves at an I/O address (below 64) what a store of a byte leaves there. It notes no output write.
    pub(crate) fn put(&mut self, a: u8, v: u8)
        requires { a < 64 }
        ensures after { self.new ≡ with_byte a (stored_byte a v (io_of self.old)) self.old }
        ensures kept { IsKeptIo self.new }
    {
        self.bytes[usize::from(a)] = self.stored_byte(a, v);
    }

    /// Keeps an output write as the newest, and counts it.
    pub(crate) fn note(&mut self, write: OutWrite)
        ensures after { self.new ≡ with_write write self.old }
        ensures kept { IsKeptIo self.new }
    {
        self.ring.push_front(write);
        self.total = self.total.wrapping_add(1);
    }

    /// Whether any interrupt is pending.
    pub(crate) fn is_any_pending(&self) -> bool
        ensures { result ≡ is_any_pending (io_of self.now) }
    {
        self.is_pending(Vector::Comp2)
            || self.is_pending(Vector::Ovf2)
            || self.is_pending(Vector::Ovf0)
            || self.is_pending(Vector::Comp0)
    }

    /// The interrupt that is pending and has the lowest address on this part, with no regard to SREG.
    pub(crate) fn pending(&self) -> Option<Vector>
        ensures first { result ≡ pending self.now.part (io_of self.now) }
        ensures pending { IfSome result (λ v. IsTrue (is_pending (io_of self.now) v)) }
    {
        let found = self.earlier(Vector::Comp0, None);
        let found = self.earlier(Vector::Ovf0, found);
        let found = self.earlier(Vector::Ovf2, found);
        self.earlier(Vector::Comp2, found)
    }

    /// Of an interrupt, where it is pending, and what was found so far, the one with the lower address on this part.
    fn earlier(&self, v: Vector, found: Option<Vector>) -> Option<Vector>
        requires { IfSome found (λ w. IsTrue (is_pending (io_of self.now) w)) }
        ensures first { result ≡ (if is_pending (io_of self.now) v then earlier self.now.part v found else found) }
        ensures pending { IfSome result (λ w. IsTrue (is_pending (io_of self.now) w)) }
    {
        if !self.is_pending(v) {
            return found;
        }
        match found {
            None => Some(v),
            Some(w) => {
                if v.address_for(self.part) <= w.address_for(self.part) {
                    Some(v)
                } else {
                    Some(w)
                }
            }
        }
    }

    /// Whether flag and mask of an interrupt are set.
    fn is_pending(&self, v: Vector) -> bool
        ensures { result ≡ is_pending (io_of self.now) v }
    {
        let bit = flag_of(v);
        has_bit(self.bytes[usize::from(TIFR)], bit) && has_bit(self.bytes[usize::from(TIMSK)], bit)
    }

    /// Takes an interrupt that is pending: clears its flag.
    pub(crate) fn take(&mut self, v: Vector)
        requires { IsTrue (is_pending (io_of self.old) v) }
        ensures after { self.new ≡ with_byte tifr (with_bit (kept_byte (io_of self.old) tifr) (flag_of v) false) self.old }
        ensures kept { IsKeptIo self.new }
    {
        let flags = self.bytes[usize::from(TIFR)];
        self.bytes[usize::from(TIFR)] = with_bit(flags, flag_of(v), false);
    }

    /// The count of cycles, modulo 2^64.
    pub(crate) fn cycles(&self) -> u64
        ensures { result ≡ self.now.cycles }
    {
        self.cycles
    }

    /// How many output writes there were, modulo 2^64.
    pub(crate) fn writes(&self) -> u64
        ensures { result ≡ self.now.total }
    {
        self.total
    }

    /// An output write that is kept, counted back from the newest, which is 0. `None` where no such one is kept.
    pub(crate) fn last(&self, back: usize) -> Option<OutWrite>
        ensures { result ≡ slice_get self.now.ring back }
    {
        self.ring.get(back).copied()
    }

    /// Lets `n` cycles pass: in each the count of cycles rises by 1, and each timer counts whose divisor divides the new count.
    pub(crate) fn tick(&mut self, n: u8)
        ensures moves { Moves self.old self.new (ticks n) }
        ensures part { self.new.part ≡ self.old.part }
    {
        for _done in 0..n {
            self.tick_once();
        }
    }

    /// Lets `n` cycles pass at once, in which both timers are quiet.
    pub(crate) fn pass(&mut self, n: u64)
        requires bound { n ≤ longest }
        requires quiet { IsQuietFor n (io_of self.old) }
        ensures { self.new ≡ later n self.old }
    {
        let count0 = self.count_after(&TIMER0, n);
        let count2 = self.count_after(&TIMER2, n);
        self.cycles = self.cycles.wrapping_add(n);
        self.bytes[usize::from(TCNT0)] = count0;
        self.bytes[usize::from(TCNT2)] = count2;
    }

    /// What the counter of a timer becomes in `n` cycles in which the timer is quiet.
    #[inline(never)]
    pub(crate) fn count_after(&self, timer: &Timer, n: u64) -> u8
        requires in_io { IsInIo timer.now }
        requires bound { n ≤ longest }
        requires quiet { IsTrue (is_quiet_for n (timer_of timer.now) (io_of self.now)) }
        ensures { result ≡ count_after n (timer_of timer.now) (io_of self.now) }
    {
        let divisor = self.divisor(timer);
        let count = self.bytes[usize::from(timer.counter)];
        if divisor == 0 {
            return count;
        }
        (u64::from(count) + (self.cycles % divisor + n) / divisor) as u8
    }

    /// For how many cycles at least both timers are quiet.
    pub(crate) fn quiet_cycles(&self) -> u64
        ensures quiet { (n : ℕ) → n ≤ result → IsQuietFor n (io_of self.now) }
        ensures bound { result ≤ longest }
        ensures kept { IsKeptIo self.now }
    {
        // A body knows the invariant, and with it `kept`, where it uses a field.
        let _ = &self.bytes;
        self.quiet_cycles_of(&TIMER0)
            .min(self.quiet_cycles_of(&TIMER2))
    }

    /// For how many cycles at least a timer is quiet.
    fn quiet_cycles_of(&self, timer: &Timer) -> u64
        requires { IsInIo timer.now }
        ensures quiet { (n : ℕ) → n ≤ result → IsTrue (is_quiet_for n (timer_of timer.now) (io_of self.now)) }
        ensures bound { result ≤ longest }
    {
        let divisor = self.divisor(timer);
        if divisor == 0 {
            return LONGEST;
        }
        let room = self.next_event(timer) - u64::from(self.bytes[usize::from(timer.counter)]);
        room.max(1) * divisor - 1 - self.cycles % divisor
    }

    /// Where the counter of a timer comes to its next event: the compare byte that it has not passed, else 256.
    fn next_event(&self, timer: &Timer) -> u64
        requires { IsInIo timer.now }
        ensures event { result ≡ next_event (kept_byte (io_of self.now) timer.now.counter) (kept_byte (io_of self.now) timer.now.compare) }
        ensures ahead { kept_byte (io_of self.now) timer.now.counter ≤ result }
        ensures bound { result ≤ 256 }
    {
        let compare = self.bytes[usize::from(timer.compare)];
        if self.bytes[usize::from(timer.counter)] <= compare {
            u64::from(compare)
        } else {
            256
        }
    }

    /// The divisor that the control byte of a timer chooses, 0 where the timer stands still.
    fn divisor(&self, timer: &Timer) -> u64
        requires { IsInIo timer.now }
        ensures divisor { result ≡ divisor (timer_of timer.now) (io_of self.now) }
        ensures bound { result < 65536 }
    {
        let select = self.bytes[usize::from(timer.control)] % 8;
        u64::from(timer.divisors[usize::from(select)])
    }

    /// Lets one cycle pass.
    fn tick_once(&mut self)
        ensures moves { Moves self.old self.new (tick) }
        ensures part { self.new.part ≡ self.old.part }
    {
        self.cycles = self.cycles.wrapping_add(1);
        self.clock(&TIMER0);
        self.clock(&TIMER2);
    }

    /// A timer's part of a cycle that has just been counted.
    fn clock(&mut self, timer: &Timer)
        requires { IsInIo timer.now }
        ensures moves { Moves self.old self.new (clocked (timer_of timer.now)) }
        ensures part { self.new.part ≡ self.old.part }
    {
        if self.counts_now(timer) {
            self.count(timer);
        }
    }

    /// Whether a timer counts in the cycle that has just been counted.
    fn counts_now(&self, timer: &Timer) -> bool
        requires { IsInIo timer.now }
        ensures { result ≡ counts_now (timer_of timer.now) (io_of self.now) }
    {
        let divisor = self.divisor(timer);
        divisor > 0 && self.cycles % divisor == 0
    }

    /// One count of a timer.
    fn count(&mut self, timer: &Timer)
        requires { IsInIo timer.now }
        ensures moves { Moves self.old self.new (counted (timer_of timer.now)) }
        ensures part { self.new.part ≡ self.old.part }
    {
        let count = self.next_count(timer);
        let flags = self.next_flags(timer, count);
        self.bytes[usize::from(timer.counter)] = count;
        self.bytes[usize::from(TIFR)] = flags;
    }

    /// What the counter becomes in a count.
    fn next_count(&self, timer: &Timer) -> u8
        requires { IsInIo timer.now }
        ensures { result ≡ next_count (timer_of timer.now) (io_of self.now) }
    {
        let count = self.bytes[usize::from(timer.counter)];
        let compare = self.bytes[usize::from(timer.compare)];
        if self.clears_on_compare(timer) && count == compare {
            0
        } else {
            count.wrapping_add(1)
        }
    }

    /// Whether a timer is in clear-on-compare mode.
    fn clears_on_compare(&self, timer: &Timer) -> bool
        requires { IsInIo timer.now }
        ensures { result ≡ clears_on_compare (timer_of timer.now) (io_of self.now) }
    {
        let control = self.bytes[usize::from(timer.control)];
        has_bit(control, 3) && !has_bit(control, 6)
    }

    /// What TIFR becomes in a count after which the counter is `count`: overflow where the counter stood at 255, compare where
    /// it becomes the compare byte.
    fn next_flags(&self, timer: &Timer, count: u8) -> u8
        requires in_io { IsInIo timer.now }
        requires count { count ≡ next_count (timer_of timer.now) (io_of self.now) }
        ensures { result ≡ next_flags (timer_of timer.now) (io_of self.now) }
    {
        let flags = self.bytes[usize::from(TIFR)];
        let overflows = self.bytes[usize::from(timer.counter)] == 255;
        let flags = set_where(overflows, flags, timer.overflow_flag);
        let matches = count == self.bytes[usize::from(timer.compare)];
        set_where(matches, flags, timer.compare_flag)
    }

    /// Sets all 64 bytes to 0, as a reset of the target does. The count of cycles and the output writes stay.
    pub(crate) fn restart(&mut self)
        ensures { self.new ≡ record self.old { bytes = replicate 64 0 } }
    {
        self.bytes = [0; 64];
    }
}

/// The bit of an interrupt in TIFR and in TIMSK.
fn flag_of(v: Vector) -> u8
    ensures bit { result ≡ flag_of v }
    ensures within { result < 8 }
{
    match v {
        Vector::Comp2 => 7,
        Vector::Ovf2 => 6,
        Vector::Ovf0 => 0,
        Vector::Comp0 => 1,
    }
}
