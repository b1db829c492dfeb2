//! The flash, programmed page by page: the program changes with the device.
ghost use Rattle.std.specs.Prelude.{◌≡◌, ◌+◌, ◌*◌, ◌≤◌, ◌/◌, ◌%◌, [], ℕ, List, Option, true, is_ok, length, if◌then◌else◌};
ghost use Rattle.part_spec.specs.Chip.{chip_of, flash_bytes, page_bytes, page_words};
ghost use Rattle.part_spec.specs.Pages.{erased, overlaid, paired};
ghost use Rattle.line_spec.specs.Messages as messages;
ghost use Rattle.flash_patch.specs.Asking.{seen, Programs};
ghost use Rattle.debug_spec.specs.Debugger.{programming, stopped};
ghost use Rattle.debug_spec.specs.Programming.{programmed_from};
ghost use Rattle.debug_spec.specs.Commands as book;
ghost use Rattle.debug_spec.specs.MemoryTypes.{memory_written, program, written_to};
ghost use Rattle.ice_emul.specs.Launching.{IsAtHome};
ghost use Rattle.ice_answer.specs.Kept.{takes_requests};
ghost use Rattle.ice_answer.specs.Does.{Does, Sends, at};
ghost use Rattle.ice_emul.specs.Asking.{DoesAsking};

use flash_patch::{FlashFault, Plan};
use ice_answer::{ERASED, Out, Tool, okay, paired_page, refuse};
use ice_base::Flash;
use ice_msg::Refusal;
use part_spec::{PAGE_BYTES, PAGE_WORDS};
use run_control::Job;

/// Programs pages from one on with the words that these bytes make, up to the first that fails.
fn program_bytes<F: Flash>(
    plan: &mut Plan,
    flash: &mut F,
    first: u16,
    bytes: &[u8],
) -> Result<(), FlashFault>
    requires part { F.part flash.old ≡ plan.old.part }
    requires empty { plan.old.soft ≡ [] }
    requires within { page_bytes * first + length bytes.now ≤ flash_bytes (chip_of plan.old.part) }
    requires whole { length bytes.now % page_bytes ≡ 0 }
    ensures asks { Programs (seen F.words F.journal F.faults F.writes)
        (programmed_from (overlaid plan.old.prog (page_words * first) (paired bytes.now)) first (length bytes.now / page_bytes)
        plan.old.prog) flash.old (is_ok result) plan.new.prog flash.new }
    ensures rest { plan.new ≡ record plan.old { prog = plan.new.prog } }
    ensures part { F.part flash.new ≡ F.part flash.old }
    ensures counts { F.faults flash.old ≤ F.faults flash.new }
{
    // That the program has as many words as its part is told by this call.
    let _first = plan.program_word(0);
    for page in 0..bytes.len() / PAGE_BYTES {
        let start = PAGE_BYTES * page;
        let words = paired_page(&bytes[start..start + PAGE_BYTES]);
        match plan.program_page(flash, first + page as u16, &words) {
            Ok(()) => {}
            Err(fault) => return Err(fault),
        }
    }
    Ok(())
}

/// Erases pages from one on, up to the first that fails.
fn erase_pages<F: Flash>(
    plan: &mut Plan,
    flash: &mut F,
    first: u16,
    count: u16,
) -> Result<(), FlashFault>
    requires part { F.part flash.old ≡ plan.old.part }
    requires empty { plan.old.soft ≡ [] }
    requires within { first + count ≤ (chip_of plan.old.part).pages }
    ensures asks { Programs (seen F.words F.journal F.faults F.writes)
        (programmed_from (erased (chip_of plan.old.part)) first count plan.old.prog) flash.old (is_ok result) plan.new.prog flash.new }
    ensures rest { plan.new ≡ record plan.old { prog = plan.new.prog } }
    ensures part { F.part flash.new ≡ F.part flash.old }
    ensures counts { F.faults flash.old ≤ F.faults flash.new }
{
    for page in 0..count {
        match plan.program_page(flash, first + page, &[ERASED; PAGE_WORDS]) {
            Ok(()) => {}
            Err(fault) => return Err(fault),
        }
    }
    Ok(())
}

/// Answers the frame with this number whether all pages were programmed.
fn tell_programmed(out: &mut Out, number: u16, done: Result<(), FlashFault>)
    requires { out.old.items ≡ [] }
    ensures { Sends number (messages.response_body (if is_ok done then messages.okay else messages.refused Refusal.Failed))
        out.old.items out.new.items }
{
    match done {
        Ok(()) => okay(out, number),
        Err(_) => refuse(out, number, Refusal::Failed),
    }
}

/// Erases every page.
pub(crate) fn erase_all<F: Flash>(tool: &mut Tool, job: &mut Job<F>, out: &mut Out, number: u16)
    requires home { IsAtHome F.part tool.old job.old }
    requires empty { out.old.items ≡ [] }
    requires soft { tool.old.plan.soft ≡ [] }
    ensures asks { DoesAsking (seen F.words F.journal F.faults F.writes)
        (λ part. book.carried_out true part number messages.chip_erase)
        (at tool.old job.old.core job.old.comparators out.old.items) job.old.flash
        (at tool.new job.new.core job.new.comparators out.new.items) job.new.flash }
    ensures home { IsAtHome F.part tool.new job.new }
    ensures part { tool.new.plan.part ≡ tool.old.plan.part }
    ensures mode { tool.new.mode ≡ tool.old.mode }
    ensures soft { tool.new.plan.soft ≡ [] }
    ensures counts { F.faults job.old.flash ≤ F.faults job.new.flash }
{
    let pages = tool.plan.part().pages();
    let done = erase_pages(&mut tool.plan, &mut job.flash, 0, pages);
    tell_programmed(out, number, done)
}

/// Erases the page of a byte address.
pub(crate) fn erase_page<F: Flash>(
    tool: &mut Tool,
    job: &mut Job<F>,
    out: &mut Out,
    number: u16,
    address: u32,
)
    requires home { IsAtHome F.part tool.old job.old }
    requires empty { out.old.items ≡ [] }
    requires soft { tool.old.plan.soft ≡ [] }
    ensures asks { DoesAsking (seen F.words F.journal F.faults F.writes) (λ part. book.page_erased part number address)
        (at tool.old job.old.core job.old.comparators out.old.items) job.old.flash
        (at tool.new job.new.core job.new.comparators out.new.items) job.new.flash }
    ensures home { IsAtHome F.part tool.new job.new }
    ensures part { tool.new.plan.part ≡ tool.old.plan.part }
    ensures mode { tool.new.mode ≡ tool.old.mode }
    ensures soft { tool.new.plan.soft ≡ [] }
    ensures counts { F.faults job.old.flash ≤ F.faults job.new.flash }
{
    if address >= 2 * u32::from(tool.plan.part().words()) {
        return refuse(out, number, Refusal::IllegalMemoryRange);
    }
    let page = (address / PAGE_BYTES as u32) as u16;
    let done = erase_pages(&mut tool.plan, &mut job.flash, page, 1);
    tell_programmed(out, number, done)
}

/// Writes whole pages of the program.
pub(crate) fn write_pages<F: Flash>(
    tool: &mut Tool,
    job: &mut Job<F>,
    out: &mut Out,
    frame: u16,
    address: u32,
    bytes: &[u8],
)
    requires home { IsAtHome F.part tool.old job.old }
    requires empty { out.old.items ≡ [] }
    requires soft { tool.old.plan.soft ≡ [] }
    requires within { address + length bytes.now ≤ flash_bytes (chip_of tool.old.plan.part) }
    requires page { address % page_bytes ≡ 0 }
    requires whole { length bytes.now % page_bytes ≡ 0 }
    ensures asks { DoesAsking (seen F.words F.journal F.faults F.writes) (λ part. written_to part program frame address bytes.now)
        (at tool.old job.old.core job.old.comparators out.old.items) job.old.flash
        (at tool.new job.new.core job.new.comparators out.new.items) job.new.flash }
    ensures home { IsAtHome F.part tool.new job.new }
    ensures part { tool.new.plan.part ≡ tool.old.plan.part }
    ensures mode { tool.new.mode ≡ tool.old.mode }
    ensures soft { tool.new.plan.soft ≡ tool.old.plan.soft }
    ensures counts { F.faults job.old.flash ≤ F.faults job.new.flash }
{
    let first = (address / PAGE_BYTES as u32) as u16;
    let done = program_bytes(&mut tool.plan, &mut job.flash, first, bytes);
    tell_programmed(out, frame, done)
}

/// Makes the flash the program, and begins to program it.
pub(crate) fn enter_programming<F: Flash>(
    tool: &mut Tool,
    job: &mut Job<F>,
    out: &mut Out,
    number: u16,
)
    requires home { IsAtHome F.part tool.old job.old }
    requires stopped { tool.old.mode ≡ stopped }
    requires empty { out.old.items ≡ [] }
    ensures asks { DoesAsking (seen F.words F.journal F.faults F.writes)
        (λ part. book.carried_out true part number messages.enter_programming)
        (at tool.old job.old.core job.old.comparators out.old.items) job.old.flash
        (at tool.new job.new.core job.new.comparators out.new.items) job.new.flash }
    ensures home { IsAtHome F.part tool.new job.new }
    ensures part { tool.new.plan.part ≡ tool.old.plan.part }
    ensures soft { tool.new.mode ≡ programming → tool.new.plan.soft ≡ [] }
    ensures rests { takes_requests tool.new.mode ≡ true }
    ensures counts { F.faults job.old.flash ≤ F.faults job.new.flash }
{
    match tool.plan.restore(&mut job.flash) {
        Ok(()) => {
            tool.open_flash();
            okay(out, number)
        }
        Err(_) => refuse(out, number, Refusal::Failed),
    }
}

/// Answers a write.
pub(crate) fn write_memory<F: Flash>(
    tool: &mut Tool,
    job: &mut Job<F>,
    out: &mut Out,
    frame: u16,
    kind: u8,
    address: u32,
    bytes: &[u8],
)
    requires home { IsAtHome F.part tool.old job.old }
    requires empty { out.old.items ≡ [] }
    requires soft { tool.old.mode ≡ programming → tool.old.plan.soft ≡ [] }
    ensures asks { DoesAsking (seen F.words F.journal F.faults F.writes)
        (λ part. memory_written part frame kind address bytes.now)
        (at tool.old job.old.core job.old.comparators out.old.items) job.old.flash
        (at tool.new job.new.core job.new.comparators out.new.items) job.new.flash }
    ensures home { IsAtHome F.part tool.new job.new }
    ensures part { tool.new.plan.part ≡ tool.old.plan.part }
    ensures mode { tool.new.mode ≡ tool.old.mode }
    ensures soft { tool.new.plan.soft ≡ tool.old.plan.soft }
    ensures counts { F.faults job.old.flash ≤ F.faults job.new.flash }
{
    if tool.write_beside_program(&mut job.core, out, frame, kind, address, bytes) {
        write_pages(tool, job, out, frame, address, bytes);
    }
}
