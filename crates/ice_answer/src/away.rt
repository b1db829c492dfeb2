//! The answers to requests while a run is out, and to bodies that are no command.
ghost use Rattle.std.specs.Prelude.{◌≡◌, [], Bool, true, false, Err};
ghost use Rattle.line_spec.specs.Messages.{forced_stop, sign_off};
ghost use Rattle.ice_msg.specs.Reading.{asked};
ghost use Rattle.debug_spec.specs.Debugger.{is_out, leaving, running};
ghost use Rattle.debug_spec.specs.Commands.{allowed as allowed_in, answered, carried_out};
ghost use Rattle.ice_answer.specs.Values.{request_of};
ghost use Rattle.ice_answer.specs.Kept.{ToolState};
ghost use Rattle.ice_answer.specs.Does.{DoesBeside};
ghost use Rattle.ice_answer.specs.Stopping.{asks_to_stop, request_to_stop};

use crate::commands::{allowed, sign_on};
use crate::mode::Mode;
use crate::reply::{Out, okay, refuse};
use crate::tool::Tool;
use ice_msg::{Bad, Command, Refusal};

/// Refuses a body that is no command: its code is not known, or its length is wrong.
pub fn refuse_bad(out: &mut Out, number: u16, bad: Bad)
    requires { out.old.items ≡ [] }
    ensures { (planted : Bool) (tool : ToolState) → DoesBeside (λ part. answered planted part number (request_of (Err bad)))
        tool out.old.items tool out.new.items }
{
    match bad {
        Bad::Code => refuse(out, number, Refusal::IllegalCommand),
        Bad::Length => refuse(out, number, Refusal::IllegalValue),
    }
}

impl Tool {
    /// Answers a request while a run is out, and tells whether that run is to be stopped.
    pub fn answer_away(
        &mut self,
        out: &mut Out,
        number: u16,
        request: &Result<Command<'_>, Bad>,
    ) -> bool
        requires running { self.old.mode ≡ running }
        requires empty { out.old.items ≡ [] }
        ensures does { (planted : Bool) → DoesBeside (λ part. answered planted part number (request_of request.now))
            self.old out.old.items self.new out.new.items }
        ensures stops { result ≡ true → request_to_stop (request_of request.now) ≡ true }
        ensures goes { result ≡ false → request_to_stop (request_of request.now) ≡ false }
        ensures asked { result ≡ true → self.new.stop_asked ≡ true }
        ensures still { result ≡ false → (self.new.stop_asked ≡ self.old.stop_asked) × (self.new.mode ≡ running) }
        ensures out { is_out self.new.mode ≡ true }
        ensures plan { (self.new.plan ≡ self.old.plan) × (self.new.run_to ≡ self.old.run_to) }
    {
        match request {
            Err(bad) => refuse_bad(out, number, *bad),
            Ok(command) => {
                if allowed(Mode::Running, command) {
                    return self.carry_out_away(out, number, command);
                }
                refuse(out, number, Refusal::IllegalMcuState)
            }
        }
        false
    }

    /// Does what a command asks that is allowed while a run is out, and tells whether that run is to be stopped.
    fn carry_out_away(&mut self, out: &mut Out, number: u16, command: &Command<'_>) -> bool
        requires running { self.old.mode ≡ running }
        requires allowed { allowed_in running (asked command.now) ≡ true }
        requires empty { out.old.items ≡ [] }
        ensures does { (planted : Bool) → DoesBeside (λ part. carried_out planted part number (asked command.now)) self.old out.old.items self.new out.new.items }
        ensures stops { result ≡ asks_to_stop (asked command.now) }
        ensures asked { result ≡ true → self.new.stop_asked ≡ true }
        ensures still { result ≡ false → (self.new.stop_asked ≡ self.old.stop_asked) × (self.new.mode ≡ running) }
        ensures out { is_out self.new.mode ≡ true }
        ensures plan { (self.new.plan ≡ self.old.plan) × (self.new.run_to ≡ self.old.run_to) }
    {
        match command {
            Command::SignOff => {
                self.sign_off_away(out, number);
                return true;
            }
            Command::ForcedStop => {
                self.force_stop(out, number);
                return true;
            }
            Command::GetSignOn => sign_on(out, number),
            Command::SetParameter { id, value } => self.set_parameter(out, number, *id, value),
            Command::GetParameter { id } => self.get_parameter(out, number, *id),
            _ => okay(out, number),
        }
        false
    }

    /// Asks for a stop.
    pub fn force_stop(&mut self, out: &mut Out, number: u16)
        requires empty { out.old.items ≡ [] }
        ensures does { DoesBeside (λ part. carried_out true part number forced_stop) self.old out.old.items self.new out.new.items }
        ensures rest { self.new ≡ record self.old { stop_asked = true } }
    {
        self.stop_asked = true;
        okay(out, number)
    }

    /// Signs off while a run is out, with which the session ends.
    fn sign_off_away(&mut self, out: &mut Out, number: u16)
        requires running { self.old.mode ≡ running }
        requires empty { out.old.items ≡ [] }
        ensures does { DoesBeside (λ part. carried_out true part number sign_off) self.old out.old.items self.new out.new.items }
        ensures rest { self.new ≡ record self.old { mode = leaving; stop_asked = true } }
    {
        self.mode = Mode::Leaving;
        self.stop_asked = true;
        okay(out, number)
    }
}
