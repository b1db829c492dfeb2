//! A line is run, and the text of its answer is put.
ghost use Rattle.std.specs.Prelude.{◌≡◌, ◌≤◌, ◌++◌, ◌∷◌, [], Ok, length};
ghost use Rattle.ice_msg.specs.Reading.{asked};
ghost use Rattle.host_session.specs.Words.{words_of};
ghost use Rattle.shell_spec.specs.Sends.{command_of, is_wait};
ghost use Rattle.debug_shell.specs.Said.{IsWithin, said_by};
ghost use Rattle.debug_shell.specs.Printing.{Prints};
ghost use Rattle.debug_shell.specs.Steps.{IsSent, Puts, printer};
ghost use Rattle.shell_spec.specs.Transcript.{IsAnswerText};
ghost use Rattle.debug_shell.specs.Transcript.{Asks, AwaitsOrIdles, DoesBy, Runs, after_answer};

use crate::answers::{answer_text, error_text, event_text, failure_text};
use crate::commands::{bytes_of, command_of, digits_in, dump_address};
use crate::script_end::{After, ScriptEnd};
use crate::text::Text;
use crate::{Line, read_line};
use host_session::{Host, Reply};
use ice_base::{Failed, Link, Sink};
use ice_msg::Command;

/// Runs a line, and says whether the script ends at it.
pub(crate) fn run_line<L: Link, K: Sink>(
    host: &mut Host<L>,
    line: &[u8],
    sink: &mut K,
) -> Option<ScriptEnd>
    ensures ran { Puts (Runs (words_of L.sent L.incoming L.faults L.sends L.receives) line.now)
        (printer host.old (K.written sink.old) (K.faults sink.old)) (printer host.new (K.written sink.new) (K.faults sink.new)) result }
    ensures counts { K.faults sink.old ≤ K.faults sink.new }
{
    match read_line(line) {
        Ok(said) => do_line(host, said, sink),
        Err(error) => print(sink, &error_text(error), After::Goes),
    }
}

/// Puts the text, and says whether the script ends.
fn print<K: Sink>(sink: &mut K, text: &Text, after: After) -> Option<ScriptEnd>
    ensures prints { Prints after result (record { bytes = K.written sink.old; faults = K.faults sink.old })
        (record { bytes = K.written sink.new; faults = K.faults sink.new }) text.now.items }
    ensures counts { K.faults sink.old ≤ K.faults sink.new }
{
    let put = sink.put(text.as_slice());
    match after {
        After::Goes => match put {
            Ok(()) => None,
            Err(Failed) => Some(ScriptEnd::Write),
        },
        After::Quits => match put {
            Ok(()) => Some(ScriptEnd::Done),
            Err(Failed) => Some(ScriptEnd::Write),
        },
        After::Fails => Some(ScriptEnd::Link),
    }
}

/// Does what a line says.
fn do_line<L: Link, K: Sink>(host: &mut Host<L>, line: Line<'_>, sink: &mut K) -> Option<ScriptEnd>
    requires { IsWithin line }
    ensures does { Puts (DoesBy (words_of L.sent L.incoming L.faults L.sends L.receives) (said_by line.entry)
        (command_of (said_by line.entry)))
        (printer host.old (K.written sink.old) (K.faults sink.old)) (printer host.new (K.written sink.new) (K.faults sink.new)) result }
    ensures counts { K.faults sink.old ≤ K.faults sink.new }
{
    let bytes = bytes_of(digits_in(&line));
    match command_of(line, bytes.as_slice()) {
        Some(command) => ask(host, &line, &command, sink),
        None => do_unasked(host, &line, sink),
    }
}

/// Does what a line says that has no command.
fn do_unasked<L: Link, K: Sink>(
    host: &mut Host<L>,
    line: &Line<'_>,
    sink: &mut K,
) -> Option<ScriptEnd>
    ensures does { Puts (AwaitsOrIdles (words_of L.sent L.incoming L.faults L.sends L.receives) (is_wait (said_by line.now)))
        (printer host.old (K.written sink.old) (K.faults sink.old)) (printer host.new (K.written sink.new) (K.faults sink.new)) result }
    ensures counts { K.faults sink.old ≤ K.faults sink.new }
{
    if !is_wait(line) {
        return None;
    }
    match host.next_event() {
        Ok(event) => print(sink, &event_text(event), After::Goes),
        Err(error) => print(sink, &failure_text(&error), After::Fails),
    }
}

/// Whether the line takes an event.
fn is_wait(line: &Line<'_>) -> bool
    ensures { result ≡ is_wait (said_by line.now) }
{
    match *line {
        Line::Wait => true,
        _ => false,
    }
}

/// Sends the command of the line.
fn ask<L: Link, K: Sink>(
    host: &mut Host<L>,
    line: &Line<'_>,
    command: &Command<'_>,
    sink: &mut K,
) -> Option<ScriptEnd>
    requires { IsSent command.now }
    ensures does { Puts (Asks (words_of L.sent L.incoming L.faults L.sends L.receives) (said_by line.now) (asked command.now))
        (printer host.old (K.written sink.old) (K.faults sink.old)) (printer host.new (K.written sink.new) (K.faults sink.new)) result }
    ensures counts { K.faults sink.old ≤ K.faults sink.new }
{
    match host.request(command) {
        Ok(reply) => print(sink, &reply_text(line, &reply), after_answer(line)),
        Err(error) => print(sink, &failure_text(&error), After::Fails),
    }
}

/// The text of the answer to a line.
fn reply_text(line: &Line<'_>, reply: &Reply) -> Text
    ensures { IsAnswerText (said_by line.now) reply.now result.items }
{
    answer_text(dump_address(line), reply.response())
}

/// What comes behind the answer to a line.
fn after_answer(line: &Line<'_>) -> After
    ensures { result ≡ after_answer (said_by line.now) }
{
    match *line {
        Line::Quit => After::Quits,
        _ => After::Goes,
    }
}
