//! A source that makes the bytes of a made session as they are read.
ghost use Rattle.std.specs.Prelude.{◌≡◌, ◌<◌, ◌≤◌, ◌+◌, ◌^◌, ℕ, suc, [], ◌∷◌, Some, length, take, drop, IfOk, OnOk, OnErr};
ghost use Rattle.std.specs.Io.KnownBytes.{Consumes, IsAtEnd, Keeps};
ghost use Rattle.line_spec.specs.Frames.{bytes_of};
ghost use Rattle.line_spec.specs.Messages.{IsCommand, command_body, ignored_written};
ghost use Rattle.shell_spec.specs.Generator.{chosen, made_bytes, next_seed};
ghost use Rattle.shell_spec.specs.Sent.{number_behind};
ghost use Rattle.ice_base.specs.Counts.{HasCause};
ghost use Rattle.ice_msg.specs.Reading.{asked};
ghost use Rattle.made_session.specs.Coming.{coming, line_left};

use arrayvec::ArrayVec;
use ice_base::{Failed, Source};
use ice_frame::{Frame, write_frame};
use ice_msg::{Command, write_command};
use line_spec::limits::{EVENT_NUMBER, FRAME_LIMIT};

/// The bytes of a made session: each frame is made when those ahead of it were read.
#[derive(Drop)]
pub(crate) struct MadeLine {
    /// The seed behind the last command.
    seed: u32,
    /// How many frames were made.
    made: u32,
    /// How many are still to come; the last of them signs off.
    to_come: u32,
    /// The frame that was made last.
    frame: ArrayVec<u8, FRAME_LIMIT>,
    /// How many of its bytes were read.
    given: usize,
    ghost few: { made + to_come < 2 ^ 32 },
    ghost within: { given ≤ length frame.items },
}

/// A command, and the seed that chose it.
#[derive(Clone, Copy)]
struct Choice {
    seed: u32,
    command: Command<'static>,
}

impl MadeLine {
    /// The line of so many commands from a seed, and of the sign-off behind them.
    pub(crate) fn of(seed: u32, count: u32) -> MadeLine
        requires { count + 1 < 2 ^ 32 }
        ensures { line_left result.frame.items result.given result.seed result.made result.to_come ≡ made_bytes seed count }
    {
        MadeLine {
            seed,
            made: 0,
            to_come: count + 1,
            frame: ArrayVec::new(),
            given: 0,
        }
    }

    /// Where the last frame was read to its end, the next one is made, if there is one.
    fn go_on(&mut self)
        ensures left { line_left self.new.frame.items self.new.given self.new.seed self.new.made self.new.to_come
            ≡ line_left self.old.frame.items self.old.given self.old.seed self.old.made self.old.to_come }
        ensures end { self.new.given ≡ length self.new.frame.items → self.new.to_come ≡ 0 }
    {
        if self.given == self.frame.len() && self.to_come > 0 {
            self.begin_frame();
        }
    }

    /// Makes the next frame, once the last one was read.
    fn begin_frame(&mut self)
        requires read { self.old.given ≡ length self.old.frame.items }
        requires some { 0 < self.old.to_come }
        ensures left { line_left self.new.frame.items self.new.given self.new.seed self.new.made self.new.to_come
            ≡ line_left self.old.frame.items self.old.given self.old.seed self.old.made self.old.to_come }
        ensures more { self.new.given < length self.new.frame.items }
    {
        let choice = next_choice(self.seed, self.to_come);
        self.frame = command_frame(number_behind(self.made), &choice.command);
        self.given = 0;
        self.seed = choice.seed;
        self.made += 1;
        self.to_come -= 1;
    }
}

impl Source for MadeLine {
    ghost left = { λ line. Some (line_left line.frame.items line.given line.seed line.made line.to_come) };

    ghost faults = { λ _. 0 };

    fn read(&mut self, buf: &mut [u8]) -> Result<usize, Failed> {
        self.go_on();
        let count = buf.len().min(self.frame.len() - self.given);
        buf[..count].copy_from_slice(&self.frame.as_slice()[self.given..self.given + count]);
        self.given += count;
        Ok(count)
    }
}

/// The command that comes next where so many are still to come, with its seed: the last one signs off.
fn next_choice(seed: u32, to_come: u32) -> Choice
    requires { 0 < to_come }
    ensures comes { (left : ℕ) → to_come ≡ suc left → coming seed to_come ≡ asked result.command ∷ coming result.seed left }
    ensures within { IsCommand (asked result.command) }
    ensures small { length (command_body (asked result.command) (ignored_written (asked result.command))) ≤ 10 }
{
    if to_come == 1 {
        return Choice {
            seed,
            command: Command::SignOff,
        };
    }
    let seed = next_seed(seed);
    Choice {
        seed,
        command: chosen(seed),
    }
}

/// The seed behind a seed: a linear congruence.
fn next_seed(seed: u32) -> u32
    ensures { result ≡ next_seed seed }
{
    ((u64::from(seed) * 1_664_525 + 1_013_904_223) % 0x1_0000_0000) as u32
}

/// The command that a seed chooses.
fn chosen(seed: u32) -> Command<'static>
    ensures is { asked result ≡ chosen seed }
    ensures within { IsCommand (asked result) }
    ensures small { length (command_body (asked result) (ignored_written (asked result))) ≤ 10 }
{
    let address = seed / 256 % 6;
    match seed / 0x100_0000 % 8 {
        1 => Command::SingleStep,
        2 => Command::SetBreak {
            kind: 1,
            number: 0,
            address,
        },
        3 => Command::ClrBreak { number: 0, address },
        4 => Command::Go,
        5 => Command::ForcedStop,
        6 => Command::ReadMemory {
            kind: 0x20,
            count: 0x10,
            address: 0x10,
        },
        7 => Command::ReadPc,
        _ => Command::GetSync,
    }
}

/// The number of the frame behind so many others: that of events is left out.
fn number_behind(made: u32) -> u16
    ensures { result ≡ number_behind made }
{
    (made % u32::from(EVENT_NUMBER)) as u16
}

/// The bytes of the command in a frame with the number.
fn command_frame(number: u16, command: &Command<'_>) -> ArrayVec<u8, FRAME_LIMIT>
    requires within { IsCommand (asked command.now) }
    requires small { length (command_body (asked command.now) (ignored_written (asked command.now))) ≤ 10 }
    ensures { result.items ≡ bytes_of (record { number = number; body = command_body (asked command.now) (ignored_written (asked command.now)) }) }
{
    let mut body = ArrayVec::new();
    write_command(command, &mut body);
    let frame = Frame { seq: number, body };
    let mut bytes = ArrayVec::new();
    write_frame(&frame, &mut bytes);
    bytes
}
