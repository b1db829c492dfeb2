//! The answers to requests where the target is at home.
ghost use Rattle.std.specs.Prelude.{◌≡◌, ◌⊎◌, ℕ, List, [], None, true, false, IfSome};
ghost use Rattle.part_spec.specs.Chip.{chip_of};
ghost use Rattle.line_spec.specs.Messages as messages;
ghost use Rattle.debug_spec.specs.Debugger.{stopped};
ghost use Rattle.debug_spec.specs.Running.{prepared};
ghost use Rattle.debug_spec.specs.Commands.{allowed as allowed_in, answered, carried_out, run_prepared};
ghost use Rattle.debug_spec.specs.MemoryTypes.{memory_written};
ghost use Rattle.ice_msg.specs.Reading.{asked};
ghost use Rattle.ice_answer.specs.Values.{request_of};
ghost use Rattle.ice_answer.specs.Kept.{prepared_number, takes_requests};
ghost use Rattle.ice_verify.specs.Well.{DoesWell};
ghost use Rattle.ice_verify.specs.Standing.{IsReady, at_of};

use crate::plain::Plain;
use ice_answer::{Out, allowed, okay, read_pc, refuse, refuse_bad, reset, sign_on, write_pc};
use ice_msg::{Bad, Command, Refusal};

impl Plain {
    /// Answers a request where the target is at home.
    pub(crate) fn answer(&mut self, out: &mut Out, number: u16, request: &Result<Command<'_>, Bad>)
        requires ready { IsReady self.old }
        requires rests { takes_requests self.old.tool.mode ≡ true }
        requires empty { out.old.items ≡ [] }
        ensures does { DoesWell (λ part. answered false part number (request_of request.now)) (at_of self.old out.old.items) (at_of self.new out.new.items) }
        ensures ready { IsReady self.new }
        ensures quiet { (prepared_number self.new.tool.mode ≡ None) ⊎ (out.new.items ≡ []) }
    {
        match request {
            Err(bad) => refuse_bad(out, number, *bad),
            Ok(command) => {
                if !allowed(self.tool.mode(), command) {
                    return refuse(out, number, Refusal::IllegalMcuState);
                }
                self.carry_out(out, number, command)
            }
        }
    }

    /// Does what a command asks that the mode allows, where the target is at home.
    fn carry_out(&mut self, out: &mut Out, number: u16, command: &Command<'_>)
        requires ready { IsReady self.old }
        requires rests { takes_requests self.old.tool.mode ≡ true }
        requires allowed { allowed_in self.old.tool.mode (asked command.now) ≡ true }
        requires empty { out.old.items ≡ [] }
        ensures does { DoesWell (λ part. carried_out false part number (asked command.now)) (at_of self.old out.old.items) (at_of self.new out.new.items) }
        ensures ready { IsReady self.new }
        ensures quiet { (prepared_number self.new.tool.mode ≡ None) ⊎ (out.new.items ≡ []) }
    {
        match command {
            Command::SignOff => self.sign_off(out, number),
            Command::GetSignOn => sign_on(out, number),
            Command::SetParameter { id, value } => self.tool.set_parameter(out, number, *id, value),
            Command::GetParameter { id } => self.tool.get_parameter(out, number, *id),
            Command::WriteMemory {
                kind,
                address,
                bytes,
            } => self.write_memory(out, number, *kind, *address, bytes),
            Command::ReadMemory {
                kind,
                count,
                address,
            } => self
                .tool
                .read_memory(&self.core, out, number, *kind, *count, *address),
            Command::WritePc(address) => write_pc(&mut self.core, out, number, *address),
            Command::ReadPc => read_pc(&self.core, out, number),
            Command::Go => self.prepare(number, None),
            Command::SingleStep => self.single_step(out, number),
            Command::ForcedStop => self.tool.force_stop(out, number),
            Command::Reset => reset(&mut self.core, out, number),
            Command::SetDeviceDescriptor(_) => okay(out, number),
            Command::ErasePage(address) => self.erase_page(out, number, *address),
            Command::GetSync => okay(out, number),
            Command::SetBreak {
                kind,
                number: breakpoint,
                address,
            } => self.tool.set_break(
                &mut self.comparators,
                out,
                number,
                *kind,
                *breakpoint,
                *address,
            ),
            Command::ChipErase => self.erase_all(out, number),
            Command::EnterProg => self.enter_programming(out, number),
            Command::LeaveProg => self.tool.leave_programming(&mut self.core, out, number),
            Command::ClrBreak {
                number: breakpoint,
                address,
            } => {
                self.tool
                    .clear_break(&mut self.comparators, out, number, *breakpoint, *address)
            }
            Command::RunTo(address) => self.run_to(out, number, *address),
            Command::ClearEvents => okay(out, number),
        }
    }

    /// Signs off, with which the session is closed.
    fn sign_off(&mut self, out: &mut Out, number: u16)
        requires ready { IsReady self.old }
        requires rests { takes_requests self.old.tool.mode ≡ true }
        requires empty { out.old.items ≡ [] }
        ensures does { DoesWell (λ part. carried_out false part number messages.sign_off) (at_of self.old out.old.items) (at_of self.new out.new.items) }
        ensures ready { IsReady self.new }
        ensures quiet { prepared_number self.new.tool.mode ≡ None }
    {
        okay(out, number);
        self.close()
    }

    /// Prepares a run for the frame with this number, to an address if there is one.
    fn prepare(&mut self, number: u16, run_to: Option<u16>)
        requires ready { IsReady self.old }
        ensures does { (sent : List ℕ) → DoesWell (λ part. prepared part number run_to) (at_of self.old sent) (at_of self.new sent) }
        ensures ready { IsReady self.new }
    {
        self.tool.prepare(number, run_to)
    }

    /// Prepares a run to an address, where a breakpoint could be planted there.
    fn run_to(&mut self, out: &mut Out, number: u16, address: u32)
        requires ready { IsReady self.old }
        requires rests { takes_requests self.old.tool.mode ≡ true }
        requires empty { out.old.items ≡ [] }
        ensures does { DoesWell (λ part. run_prepared part number address) (at_of self.old out.old.items) (at_of self.new out.new.items) }
        ensures ready { IsReady self.new }
        ensures quiet { (prepared_number self.new.tool.mode ≡ None) ⊎ (out.new.items ≡ []) }
    {
        if !self.tool.plantable(address) {
            return refuse(out, number, Refusal::IllegalBreakpoint);
        }
        self.prepare(number, Some(address as u16))
    }

    /// Begins to program the flash.
    fn enter_programming(&mut self, out: &mut Out, number: u16)
        requires ready { IsReady self.old }
        requires stopped { self.old.tool.mode ≡ stopped }
        requires empty { out.old.items ≡ [] }
        ensures does { DoesWell (λ part. carried_out false part number messages.enter_programming) (at_of self.old out.old.items) (at_of self.new out.new.items) }
        ensures ready { IsReady self.new }
        ensures quiet { prepared_number self.new.tool.mode ≡ None }
    {
        self.tool.open_flash();
        okay(out, number)
    }

    /// Answers a write.
    fn write_memory(&mut self, out: &mut Out, frame: u16, kind: u8, address: u32, bytes: &[u8])
        requires ready { IsReady self.old }
        requires rests { takes_requests self.old.tool.mode ≡ true }
        requires empty { out.old.items ≡ [] }
        ensures does { DoesWell (λ part. memory_written part frame kind address bytes.now) (at_of self.old out.old.items) (at_of self.new out.new.items) }
        ensures ready { IsReady self.new }
        ensures mode { self.new.tool.mode ≡ self.old.tool.mode }
    {
        if self
            .tool
            .write_beside_program(&mut self.core, out, frame, kind, address, bytes)
        {
            self.write_pages(out, frame, address, bytes);
        }
    }
}
