//! Breakpoints that the host sets and clears: number 0 is a software breakpoint, and the others are the comparators.
ghost use Rattle.std.specs.Prelude.{◌≡◌, ◌<◌, ◌≤◌, ℕ, [], suc, true, slice_get};
ghost use Rattle.part_spec.specs.Chip.{chip_of, words_of};
ghost use Rattle.avr_spec.specs.Kept.{Kept};
ghost use Rattle.debug_spec.specs.Breakpoints as book;
ghost use Rattle.ice_answer.specs.Kept.{ToolState};
ghost use Rattle.ice_answer.specs.Does.{Does, DoesBeside, at};

use crate::reply::{Out, okay, refuse};
use crate::tool::Tool;
use ice_msg::Refusal;

/// The type of a breakpoint on the program (AVR067, 'Set Break').
const PROGRAM_BREAK: u8 = 0x01;

/// The number of comparators.
pub const COMPARATORS: usize = 4;

impl Tool {
    /// Sets a breakpoint, where its type, number and address are known.
    pub fn set_break(
        &mut self,
        comparators: &mut [Option<u16>; COMPARATORS],
        out: &mut Out,
        frame: u16,
        kind: u8,
        number: u8,
        address: u32,
    )
        requires { out.old.items ≡ [] }
        ensures does { (core : Kept) → Does (λ part. book.break_set part frame kind number address)
            (at self.old core comparators.old out.old.items) (at self.new core comparators.new out.new.items) }
        ensures part { self.new.plan.part ≡ self.old.plan.part }
        ensures program { self.new.plan ≡ record self.old.plan { soft = self.new.plan.soft } }
        ensures rest { self.new ≡ record self.old { plan = self.new.plan } }
    {
        if kind == PROGRAM_BREAK
            && number <= COMPARATORS as u8
            && address < u32::from(self.plan.part().words())
        {
            return self.set_numbered(comparators, out, frame, number, address);
        }
        refuse(out, frame, Refusal::IllegalBreakpoint)
    }

    /// Sets the breakpoint with a number at an address of the flash.
    fn set_numbered(
        &mut self,
        comparators: &mut [Option<u16>; COMPARATORS],
        out: &mut Out,
        frame: u16,
        number: u8,
        address: u32,
    )
        requires empty { out.old.items ≡ [] }
        requires known { number ≤ COMPARATORS }
        requires within { address < words_of (chip_of self.old.plan.part) }
        ensures does { (core : Kept) → Does (λ part. book.set_numbered part frame number address)
            (at self.old core comparators.old out.old.items) (at self.new core comparators.new out.new.items) }
        ensures part { self.new.plan.part ≡ self.old.plan.part }
        ensures program { self.new.plan ≡ record self.old.plan { soft = self.new.plan.soft } }
        ensures rest { self.new ≡ record self.old { plan = self.new.plan } }
    {
        if number == 0 {
            return self.set_soft(out, frame, address);
        }
        set_comparator(
            comparators,
            out,
            frame,
            usize::from(number) - 1,
            address as u16,
        )
    }

    /// Sets a software breakpoint.
    fn set_soft(&mut self, out: &mut Out, frame: u16, address: u32)
        requires { out.old.items ≡ [] }
        ensures does { DoesBeside (λ part. book.set_numbered part frame 0 address) self.old out.old.items self.new out.new.items }
        ensures part { self.new.plan.part ≡ self.old.plan.part }
        ensures program { self.new.plan ≡ record self.old.plan { soft = self.new.plan.soft } }
        ensures rest { self.new ≡ record self.old { plan = self.new.plan } }
    {
        match self.plan.set(address) {
            Ok(()) => okay(out, frame),
            Err(_) => refuse(out, frame, Refusal::IllegalBreakpoint),
        }
    }

    /// Clears the breakpoint with a number, where it is set; a comparator at whatever address.
    pub fn clear_break(
        &mut self,
        comparators: &mut [Option<u16>; COMPARATORS],
        out: &mut Out,
        frame: u16,
        number: u8,
        address: u32,
    )
        requires { out.old.items ≡ [] }
        ensures does { (core : Kept) → Does (λ part. book.break_cleared frame number address)
            (at self.old core comparators.old out.old.items) (at self.new core comparators.new out.new.items) }
        ensures part { self.new.plan.part ≡ self.old.plan.part }
        ensures program { self.new.plan ≡ record self.old.plan { soft = self.new.plan.soft } }
        ensures rest { self.new ≡ record self.old { plan = self.new.plan } }
    {
        if number == 0 {
            return self.clear_soft(out, frame, address);
        }
        clear_comparator(comparators, out, frame, usize::from(number) - 1)
    }

    /// Clears a software breakpoint.
    fn clear_soft(&mut self, out: &mut Out, frame: u16, address: u32)
        requires { out.old.items ≡ [] }
        ensures does { DoesBeside (λ part. book.break_cleared frame 0 address) self.old out.old.items self.new out.new.items }
        ensures part { self.new.plan.part ≡ self.old.plan.part }
        ensures program { self.new.plan ≡ record self.old.plan { soft = self.new.plan.soft } }
        ensures rest { self.new ≡ record self.old { plan = self.new.plan } }
    {
        match self.plan.clear(address) {
            Ok(()) => okay(out, frame),
            Err(_) => refuse(out, frame, Refusal::IllegalBreakpoint),
        }
    }
}

/// Sets the comparator at an index.
fn set_comparator(
    comparators: &mut [Option<u16>; COMPARATORS],
    out: &mut Out,
    frame: u16,
    index: usize,
    address: u16,
)
    requires empty { out.old.items ≡ [] }
    requires known { index < COMPARATORS }
    ensures { (tool : ToolState) (core : Kept) → Does (λ part. book.set_numbered part frame (suc index) address)
        (at tool core comparators.old out.old.items) (at tool core comparators.new out.new.items) }
{
    comparators[index] = Some(address);
    okay(out, frame)
}

/// Clears the comparator at an index, where there is one and it is set.
fn clear_comparator(
    comparators: &mut [Option<u16>; COMPARATORS],
    out: &mut Out,
    frame: u16,
    index: usize,
)
    requires { out.old.items ≡ [] }
    ensures { (tool : ToolState) (core : Kept) (address : ℕ) → Does (λ part. book.break_cleared frame (suc index) address)
        (at tool core comparators.old out.old.items) (at tool core comparators.new out.new.items) }
{
    if !is_set(comparators, index) {
        return refuse(out, frame, Refusal::IllegalBreakpoint);
    }
    comparators[index] = None;
    okay(out, frame)
}

/// A comparator is there, and it is set.
fn is_set(comparators: &[Option<u16>; COMPARATORS], index: usize) -> bool
    ensures is { result ≡ book.is_set (slice_get comparators.now index) }
    ensures within { result ≡ true → index < COMPARATORS }
{
    if index >= COMPARATORS {
        return false;
    }
    comparators[index].is_some()
}
