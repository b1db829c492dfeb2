//! The answers to requests, where the target is at home.
ghost use Rattle.std.specs.Prelude.{◌≡◌, ◌≤◌, [], true, false};
ghost use Rattle.ice_msg.specs.Reading.{asked};
ghost use Rattle.ice_base.specs.Counts.{Rose};
ghost use Rattle.debug_spec.specs.Debugger.{closed, programming};
ghost use Rattle.debug_spec.specs.Commands.{allowed as allowed_in, answered, carried_out};
ghost use Rattle.flash_patch.specs.Asking.{seen};
ghost use Rattle.ice_answer.specs.Values.{request_of};
ghost use Rattle.ice_answer.specs.Kept.{takes_requests};
ghost use Rattle.ice_emul.specs.Asking.{DoesAsking};
ghost use Rattle.ice_answer.specs.Does.{at};
ghost use Rattle.ice_emul.specs.Launching.{IsAtHome, is_here_or_launching};

use crate::programming::{enter_programming, erase_all, erase_page, write_memory};
use crate::running::{prepare, prepare_to, sign_off, single_step};
use ice_answer::{Out, Tool, allowed, okay, read_pc, refuse, refuse_bad, reset, sign_on, write_pc};
use ice_base::Flash;
use ice_msg::{Bad, Command, Refusal};
use run_control::Job;

/// Answers a request where the target is at home.
pub(crate) fn answer<F: Flash>(
    tool: &mut Tool,
    job: &mut Job<F>,
    out: &mut Out,
    number: u16,
    request: &Result<Command<'_>, Bad>,
)
    requires home { IsAtHome F.part tool.old job.old }
    requires rests { takes_requests tool.old.mode ≡ true }
    requires soft { tool.old.mode ≡ programming → tool.old.plan.soft ≡ [] }
    requires empty { out.old.items ≡ [] }
    ensures asks { DoesAsking (seen F.words F.journal F.faults F.writes) (λ part. answered true part number (request_of request.now))
        (at tool.old job.old.core job.old.comparators out.old.items) job.old.flash
        (at tool.new job.new.core job.new.comparators out.new.items) job.new.flash }
    ensures home { IsAtHome F.part tool.new job.new }
    ensures part { tool.new.plan.part ≡ tool.old.plan.part }
    ensures rests { is_here_or_launching tool.new.mode ≡ true }
    ensures soft { tool.new.mode ≡ programming → tool.new.plan.soft ≡ [] }
    ensures counts { F.faults job.old.flash ≤ F.faults job.new.flash }
    ensures cause { tool.new.mode ≡ closed false → Rose (F.faults job.old.flash) (F.faults job.new.flash) }
{
    match request {
        Err(bad) => refuse_bad(out, number, *bad),
        Ok(command) => {
            if !allowed(tool.mode(), command) {
                return refuse(out, number, Refusal::IllegalMcuState);
            }
            carry_out(tool, job, out, number, command)
        }
    }
}

/// Does what a command asks that the mode allows, where the target is at home.
fn carry_out<F: Flash>(
    tool: &mut Tool,
    job: &mut Job<F>,
    out: &mut Out,
    number: u16,
    command: &Command<'_>,
)
    requires home { IsAtHome F.part tool.old job.old }
    requires rests { takes_requests tool.old.mode ≡ true }
    requires allowed { allowed_in tool.old.mode (asked command.now) ≡ true }
    requires soft { tool.old.mode ≡ programming → tool.old.plan.soft ≡ [] }
    requires empty { out.old.items ≡ [] }
    ensures asks { DoesAsking (seen F.words F.journal F.faults F.writes) (λ part. carried_out true part number (asked command.now))
        (at tool.old job.old.core job.old.comparators out.old.items) job.old.flash
        (at tool.new job.new.core job.new.comparators out.new.items) job.new.flash }
    ensures home { IsAtHome F.part tool.new job.new }
    ensures part { tool.new.plan.part ≡ tool.old.plan.part }
    ensures rests { is_here_or_launching tool.new.mode ≡ true }
    ensures soft { tool.new.mode ≡ programming → tool.new.plan.soft ≡ [] }
    ensures counts { F.faults job.old.flash ≤ F.faults job.new.flash }
    ensures cause { tool.new.mode ≡ closed false → Rose (F.faults job.old.flash) (F.faults job.new.flash) }
{
    match command {
        Command::SignOff => sign_off(tool, job, out, number),
        Command::GetSignOn => sign_on(out, number),
        Command::SetParameter { id, value } => tool.set_parameter(out, number, *id, value),
        Command::GetParameter { id } => tool.get_parameter(out, number, *id),
        Command::WriteMemory {
            kind,
            address,
            bytes,
        } => write_memory(tool, job, out, number, *kind, *address, bytes),
        Command::ReadMemory {
            kind,
            count,
            address,
        } => tool.read_memory(&job.core, out, number, *kind, *count, *address),
        Command::WritePc(address) => write_pc(&mut job.core, out, number, *address),
        Command::ReadPc => read_pc(&job.core, out, number),
        Command::Go => prepare(tool, job, out, number, None),
        Command::SingleStep => single_step(tool, job, out, number),
        Command::ForcedStop => tool.force_stop(out, number),
        Command::Reset => reset(&mut job.core, out, number),
        Command::SetDeviceDescriptor(_) => okay(out, number),
        Command::ErasePage(address) => erase_page(tool, job, out, number, *address),
        Command::GetSync => okay(out, number),
        Command::SetBreak {
            kind,
            number: breakpoint,
            address,
        } => tool.set_break(
            &mut job.comparators,
            out,
            number,
            *kind,
            *breakpoint,
            *address,
        ),
        Command::ChipErase => erase_all(tool, job, out, number),
        Command::EnterProg => enter_programming(tool, job, out, number),
        Command::LeaveProg => tool.leave_programming(&mut job.core, out, number),
        Command::ClrBreak {
            number: breakpoint,
            address,
        } => tool.clear_break(&mut job.comparators, out, number, *breakpoint, *address),
        Command::RunTo(address) => prepare_to(tool, job, out, number, *address),
        Command::ClearEvents => okay(out, number),
    }
}
