//! How a run begins and ends, and how the session does.
ghost use Rattle.std.specs.Prelude.{◌≡◌, ◌<◌, ◌≤◌, ℕ, Bool, List, [], true, false, IfSome};
ghost use Rattle.part_spec.specs.Chip.{chip_of, words_of};
ghost use Rattle.line_spec.specs.Messages.{sign_off};
ghost use Rattle.ice_base.specs.Counts.{Rose};
ghost use Rattle.debug_spec.specs.Patch.{has, plantable as may_plant};
ghost use Rattle.debug_spec.specs.Debugger.{targets_by, closed, programming};
ghost use Rattle.debug_spec.specs.Take.{goes_on};
ghost use Rattle.debug_spec.specs.Running as book;
ghost use Rattle.debug_spec.specs.Commands.{carried_out, run_prepared};
ghost use Rattle.flash_patch.specs.Asking.{seen};
ghost use Rattle.ice_emul.specs.Asking.{DoesAsking};
ghost use Rattle.ice_answer.specs.Does.{at};
ghost use Rattle.ice_emul.specs.Launching.{IsAtHome, is_here_or_launching, page_behind};
ghost use Rattle.ice_answer.specs.Kept.{takes_requests};

use ice_answer::{Cause, Out, Tool, okay, refuse, tell};
use ice_base::Flash;
use ice_msg::Refusal;
use part_spec::PAGE_WORDS;
use run_control::{Halt, Job};

/// The page behind the first step of a run from an address on, where that is a breakpoint: it is planted again.
pub(crate) fn page_behind(tool: &Tool, start: u16) -> Option<(u16, [u16; PAGE_WORDS])>
    requires { start < words_of (chip_of tool.now.plan.part) }
    ensures { result ≡ page_behind tool.now start }
{
    if !tool.is_target(start) {
        return None;
    }
    let page = start / PAGE_WORDS as u16;
    Some((page, tool.plan.page(page, tool.run_to)))
}

/// Prepares a run for the frame with this number, to an address if there is one.
pub(crate) fn prepare<F: Flash>(
    tool: &mut Tool,
    job: &mut Job<F>,
    out: &mut Out,
    number: u16,
    run_to: Option<u16>,
)
    requires home { IsAtHome F.part tool.old job.old }
    requires empty { out.old.items ≡ [] }
    requires rests { takes_requests tool.old.mode ≡ true }
    requires run_to { IfSome run_to (λ address. may_plant (chip_of tool.old.plan.part) tool.old.plan.prog address ≡ true) }
    ensures asks { DoesAsking (seen F.words F.journal F.faults F.writes) (λ part. book.prepared part number run_to)
        (at tool.old job.old.core job.old.comparators out.old.items) job.old.flash
        (at tool.new job.new.core job.new.comparators out.new.items) job.new.flash }
    ensures home { IsAtHome F.part tool.new job.new }
    ensures launching { (is_here_or_launching tool.new.mode ≡ true) × (goes_on tool.new.mode ≡ true) }
    ensures mode { tool.new.mode ≡ programming → tool.old.mode ≡ programming }
    ensures plan { tool.new.plan ≡ tool.old.plan }
    ensures counts { F.faults job.old.flash ≤ F.faults job.new.flash }
{
    match tool.plan.sync(&mut job.flash, Some(job.core.pc()), run_to) {
        Ok(()) => {
            tool.prepare(number, run_to);
        }
        Err(_) => {
            tool.run_to = None;
            refuse(out, number, Refusal::Failed)
        }
    }
}

/// Prepares a run to an address, where a breakpoint could be planted there.
pub(crate) fn prepare_to<F: Flash>(
    tool: &mut Tool,
    job: &mut Job<F>,
    out: &mut Out,
    number: u16,
    address: u32,
)
    requires home { IsAtHome F.part tool.old job.old }
    requires rests { takes_requests tool.old.mode ≡ true }
    requires empty { out.old.items ≡ [] }
    ensures asks { DoesAsking (seen F.words F.journal F.faults F.writes) (λ part. run_prepared part number address)
        (at tool.old job.old.core job.old.comparators out.old.items) job.old.flash
        (at tool.new job.new.core job.new.comparators out.new.items) job.new.flash }
    ensures home { IsAtHome F.part tool.new job.new }
    ensures launching { (is_here_or_launching tool.new.mode ≡ true) × (goes_on tool.new.mode ≡ true) }
    ensures mode { tool.new.mode ≡ programming → tool.old.mode ≡ programming }
    ensures plan { tool.new.plan ≡ tool.old.plan }
    ensures counts { F.faults job.old.flash ≤ F.faults job.new.flash }
{
    if !tool.plan.plantable(address) {
        return refuse(out, number, Refusal::IllegalBreakpoint);
    }
    prepare(tool, job, out, number, Some(address as u16))
}

/// Makes a single step for the frame with this number, and tells it; a word that does not run stays.
pub(crate) fn single_step<F: Flash>(tool: &Tool, job: &mut Job<F>, out: &mut Out, number: u16)
    requires home { IsAtHome F.part tool.now job.old }
    requires empty { out.old.items ≡ [] }
    ensures asks { DoesAsking (seen F.words F.journal F.faults F.writes) (λ part. book.single_stepped true part number)
        (at tool.now job.old.core job.old.comparators out.old.items) job.old.flash
        (at tool.now job.new.core job.new.comparators out.new.items) job.new.flash }
    ensures home { IsAtHome F.part tool.now job.new }
    ensures counts { F.faults job.old.flash ≤ F.faults job.new.flash }
{
    match tool.plan.sync(&mut job.flash, Some(job.core.pc()), None) {
        Ok(()) => {
            okay(out, number);
            let cause = match job.single() {
                Halt::Undefined => Cause::Undefined,
                _ => Cause::SingleStep,
            };
            tell(out, job.core.pc(), cause)
        }
        Err(_) => refuse(out, number, Refusal::Failed),
    }
}

/// Makes the flash the program again, and closes the session.
pub(crate) fn close<F: Flash>(tool: &mut Tool, job: &mut Job<F>)
    requires home { IsAtHome F.part tool.old job.old }
    ensures asks { (sent : List ℕ) → DoesAsking (seen F.words F.journal F.faults F.writes) (λ part. book.restored part)
        (at tool.old job.old.core job.old.comparators sent) job.old.flash
        (at tool.new job.new.core job.new.comparators sent) job.new.flash }
    ensures home { IsAtHome F.part tool.new job.new }
    ensures closed { (restored : Bool) × (tool.new.mode ≡ closed restored) }
    ensures rest { tool.new ≡ record tool.old { mode = tool.new.mode } }
    ensures counts { F.faults job.old.flash ≤ F.faults job.new.flash }
    ensures cause { tool.new.mode ≡ closed false → Rose (F.faults job.old.flash) (F.faults job.new.flash) }
{
    let restored = tool.plan.restore(&mut job.flash).is_ok();
    tool.close(restored)
}

/// Signs off where no run is out.
pub(crate) fn sign_off<F: Flash>(tool: &mut Tool, job: &mut Job<F>, out: &mut Out, number: u16)
    requires home { IsAtHome F.part tool.old job.old }
    requires rests { takes_requests tool.old.mode ≡ true }
    requires empty { out.old.items ≡ [] }
    ensures asks { DoesAsking (seen F.words F.journal F.faults F.writes) (λ part. carried_out true part number sign_off)
        (at tool.old job.old.core job.old.comparators out.old.items) job.old.flash
        (at tool.new job.new.core job.new.comparators out.new.items) job.new.flash }
    ensures home { IsAtHome F.part tool.new job.new }
    ensures closed { (restored : Bool) × (tool.new.mode ≡ closed restored) }
    ensures rest { tool.new ≡ record tool.old { mode = tool.new.mode } }
    ensures counts { F.faults job.old.flash ≤ F.faults job.new.flash }
    ensures cause { tool.new.mode ≡ closed false → Rose (F.faults job.old.flash) (F.faults job.new.flash) }
{
    okay(out, number);
    close(tool, job)
}
