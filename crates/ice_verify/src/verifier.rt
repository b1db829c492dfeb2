//! The verifier of a record.
ghost use Rattle.std.specs.Prelude.{◌≡◌, ◌<◌, ◌≤◌, ◌+◌, [], true, false, None, Option, List, ℕ, IfOk, is_some, length};
ghost use Rattle.part_spec.specs.declared.part.Part.{Part as Family};
ghost use Rattle.part_spec.specs.Chip.{chip_of, words_of};
ghost use Rattle.line_spec.specs.Frames.{IsBytes};
ghost use Rattle.debug_spec.specs.Debugger.{listens};
ghost use Rattle.debug_spec.specs.Run.{End};
ghost use Rattle.record_spec.specs.Lines.{Line, comes, event, halts, line_ends, out, waits};
ghost use Rattle.record_spec.specs.Fits.{Point, beginning, is_placed, steps_in as steps_of};
ghost use Rattle.ice_answer.specs.Values.{why_of};
ghost use Rattle.ice_verify.specs.Told.{IsTold, Tells, counted};
ghost use Rattle.ice_verify.specs.Checking.{IsFollowed, IsSound, Says, Stands, StandsAt, TakesWaiting, is_closed_at, owed_by};
ghost use Rattle.debug_spec.specs.Take.{goes_on};
ghost use Rattle.ice_verify.specs.Standing.{IsReady};
ghost use Rattle.ice_answer.specs.Feeding.{counted_on};
ghost use Rattle.ice_answer.specs.Kept.{prepared_number};

use crate::lines::{Told, read};
use crate::plain::Plain;
use crate::words::Words;
use avr_core::Core;
use flash_patch::Plan;
use ice_answer::{COMPARATORS, Cause, Out, Tool, count_dropped, feed};
use ice_recv::Receiver;
use part_spec::Part;
use record_spec::limits::STEP_LIMIT;
use std::alloc::{AllocError, Global};

/// What is said of the first line that ends the check of a record.
#[derive(Clone, Copy, Debug, PartialEq, Eq)]
pub enum Verdict {
    /// It is no line of a record in its place, or has more than 8,320 bytes.
    Bad,
    /// With it the runs have made more than 100,000,000 steps together.
    Long,
    /// It is not what the debugger does.
    No,
}

/// A record that is checked line by line.
#[derive(Drop)]
pub struct Verifier {
    plain: Plain,
    receiver: Receiver,
    /// What the last event sends, where the next line is to tell it.
    sent: Out,
    /// The next line is to tell what was sent.
    owes: bool,
    /// The steps of all runs so far.
    steps: u32,
    /// A verdict was given.
    judged: bool,
}

impl Verifier {
    /// Begins the check of a record of a session over a program. All memory is taken here.
    pub fn begin(alloc: Global, part: Part, program: &[u16]) -> Result<Verifier, AllocError>
        requires { length program.now ≡ words_of (chip_of part) }
        ensures begins { IfOk result (λ v. StandsAt part v (beginning (chip_of part) program.now)) }
        ensures sound { IfOk result IsSound }
        ensures judged { IfOk result (λ v. v.judged ≡ false) }
    {
        let receiver = Receiver::new(alloc)?;
        let core = Core::of(alloc, part)?;
        let plan = Plan::new(alloc, program)?;
        let words = Words::of(alloc, part, program)?;
        Ok(Verifier {
            plain: Plain {
                tool: Tool::of(plan),
                core,
                words,
                comparators: [None; COMPARATORS],
            },
            receiver,
            sent: Out::new(),
            owes: false,
            steps: 0,
            judged: false,
        })
    }

    /// Takes the next line, without its line feed. A verdict ends the check: nothing is then to be taken.
    pub fn line(&mut self, line: &[u8]) -> Option<Verdict>
        requires sound { IsSound self.old }
        ensures says { (part : Family) (at : Point) → StandsAt part self.old at → Says part at line.now result self.new }
        ensures sound { result ≡ None → IsSound self.new }
        ensures judged { self.new.judged ≡ is_some result }
    {
        let verdict = self.judge(line);
        self.judged = verdict.is_some();
        verdict
    }

    /// Whether the lines taken are a record that fits: no verdict was given, the last line told what was sent, and the session is closed.
    pub fn closed(&self) -> bool
        ensures closed { (part : Family) (at : Point) → StandsAt part self.now at → self.now.judged ≡ false → result ≡ is_closed_at at }
        ensures judged { self.now.judged ≡ true → result ≡ false }
    {
        !self.judged && !self.owes && self.plain.is_closed()
    }

    /// What is said of the next line.
    fn judge(&mut self, line: &[u8]) -> Option<Verdict>
        requires sound { IsSound self.old }
        ensures says { (part : Family) (at : Point) → StandsAt part self.old at → Says part at line.now result self.new }
        ensures sound { result ≡ None → IsSound self.new }
    {
        let Some(told) = read(line) else {
            return Some(Verdict::Bad);
        };
        if !self.is_placed(&told) {
            return Some(Verdict::Bad);
        }
        let steps = self.steps + steps_in(&told);
        if steps > STEP_LIMIT {
            return Some(Verdict::Long);
        }
        if !self.follow(&told) {
            return Some(Verdict::No);
        }
        self.steps = steps;
        None
    }

    /// A line stands in its place.
    fn is_placed(&self, told: &Told) -> bool
        ensures { (line : Line) → Tells told.now line → result ≡ is_placed (owed_by self.now.owes self.now.sent.items) line }
    {
        match told {
            Told::Comes(_) => !self.owes,
            Told::Waits => !self.owes,
            Told::LineEnds => !self.owes,
            Told::Halts { steps: _, cause: _ } => !self.owes,
            Told::Out(_) => self.owes,
        }
    }

    /// Whether a line is true. What it tells has then happened.
    fn follow(&mut self, told: &Told) -> bool
        requires sound { IsSound self.old }
        requires placed { (line : Line) → Tells told.now line → is_placed (owed_by self.old.owes self.old.sent.items) line ≡ true }
        requires few { (line : Line) → Tells told.now line → steps_of line ≤ STEP_LIMIT }
        requires told { (text : List ℕ) × IsTold text told.now }
        ensures follows { (line : Line) → Tells told.now line → IsFollowed line self.old result self.new }
        ensures sound { result ≡ true → IsSound self.new }
        ensures steps { self.new.steps ≡ self.old.steps }
    {
        match told {
            Told::Comes(bytes) => self.come(bytes.as_slice()),
            Told::Waits => self.wait(),
            Told::LineEnds => self.end_line(),
            Told::Halts { steps, cause } => self.halt(*steps, *cause),
            Told::Out(bytes) => self.tell_sent(bytes.as_slice()),
        }
    }

    /// Bytes come in: none waits before, and no front of them makes a frame whole.
    fn come(&mut self, bytes: &[u8]) -> bool
        requires sound { IsSound self.old }
        requires told { self.old.owes ≡ false }
        requires some { 0 < length bytes.now }
        ensures follows { IsFollowed (event (comes bytes.now)) self.old result self.new }
        ensures sound { result ≡ true → IsSound self.new }
        ensures steps { self.new.steps ≡ self.old.steps }
    {
        if !self.plain.tool.listens() {
            return false;
        }
        let used = feed(&mut self.receiver, &mut self.plain.tool, bytes);
        if used < bytes.len() {
            return false;
        }
        self.take_waiting();
        self.owes = true;
        true
    }

    /// A frame that waits is heard.
    fn wait(&mut self) -> bool
        requires sound { IsSound self.old }
        requires told { self.old.owes ≡ false }
        ensures follows { IsFollowed (event waits) self.old result self.new }
        ensures sound { result ≡ true → IsSound self.new }
        ensures steps { self.new.steps ≡ self.old.steps }
    {
        if !self.plain.tool.listens() {
            return false;
        }
        if !self.receiver.waits() {
            return false;
        }
        self.take_waiting();
        self.owes = true;
        true
    }

    /// Takes the frame that waits, if one does, and launches the run that it prepared.
    fn take_waiting(&mut self)
        requires sound { IsSound self.old }
        requires told { self.old.owes ≡ false }
        requires listens { listens self.old.plain.tool.mode ≡ true }
        ensures takes { TakesWaiting self.old self.new }
        ensures ready { IsReady self.new.plain }
        ensures calm { prepared_number self.new.plain.tool.mode ≡ None }
        ensures owes { self.new.owes ≡ self.old.owes }
        ensures steps { self.new.steps ≡ self.old.steps }
    {
        let counted = self.receiver.dropped();
        match self.receiver.next() {
            None => {}
            Some(frame) => {
                self.plain.hear(&frame, &mut self.sent);
                self.count_since(counted);
                self.plain.launch_if_prepared(&mut self.sent);
            }
        }
    }

    /// Counts what the receiver has dropped since its count was this, while the session goes on.
    fn count_since(&mut self, counted: u64)
        ensures plain { self.new.plain ≡ record self.old.plain {
          tool = counted_on (goes_on self.old.plain.tool.mode) counted self.old.receiver.dropped self.old.plain.tool;
        } }
        ensures rest { self.new ≡ record self.old { plain = self.new.plain } }
    {
        if self.plain.tool.goes_on() {
            count_dropped(&mut self.plain.tool, counted, self.receiver.dropped());
        }
    }

    /// The line ends, unless the session is closed.
    fn end_line(&mut self) -> bool
        requires sound { IsSound self.old }
        requires told { self.old.owes ≡ false }
        ensures follows { IsFollowed (event line_ends) self.old result self.new }
        ensures sound { result ≡ true → IsSound self.new }
        ensures steps { self.new.steps ≡ self.old.steps }
    {
        if self.plain.is_closed() {
            return false;
        }
        let held = self.receiver.rest();
        self.plain.tool.drop_held(held);
        self.plain.leave();
        self.owes = true;
        true
    }

    /// The run that is out ends so, if it may.
    fn halt(&mut self, steps: u32, cause: Cause) -> bool
        requires sound { IsSound self.old }
        requires told { self.old.owes ≡ false }
        ensures follows { IsFollowed (event (halts (record { steps = steps; cause = why_of cause }))) self.old result self.new }
        ensures sound { result ≡ true → IsSound self.new }
        ensures steps { self.new.steps ≡ self.old.steps }
    {
        if !self.plain.is_out() {
            return false;
        }
        if !self.plain.runs_to(steps, cause) {
            return false;
        }
        self.plain.end_run(&mut self.sent, cause);
        self.owes = true;
        true
    }

    /// These bytes were sent.
    fn tell_sent(&mut self, bytes: &[u8]) -> bool
        requires sound { IsSound self.old }
        requires owes { self.old.owes ≡ true }
        ensures follows { IsFollowed (out bytes.now) self.old result self.new }
        ensures sound { result ≡ true → IsSound self.new }
        ensures steps { self.new.steps ≡ self.old.steps }
    {
        if self.sent.as_slice() != bytes {
            return false;
        }
        self.sent.clear();
        self.owes = false;
        true
    }
}

/// The steps of which a line tells.
fn steps_in(told: &Told) -> u32
    ensures steps { (line : Line) → Tells told.now line → result ≡ counted (steps_of line) }
{
    match told {
        Told::Comes(_) => 0,
        Told::Waits => 0,
        Told::LineEnds => 0,
        Told::Halts { steps, cause: _ } => *steps,
        Told::Out(_) => 0,
    }
}
