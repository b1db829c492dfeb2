//! The shell over a link to a debugger that runs elsewhere.
ghost use Rattle.std.specs.Prelude.{◌≡◌, ◌≤◌, codes};
ghost use Rattle.host_session.specs.Words.{words_of};
ghost use Rattle.ice_line.specs.Lines.{line_at};
ghost use Rattle.ice_top.specs.Connections.{ConnectsBy, OpensShell};
ghost use Rattle.ice_top.specs.Notes.{line};
ghost use Rattle.ice_top.specs.Outside.{Noted, ends_at};
ghost use Rattle.ice_top.specs.Words.{texts};

use crate::Status;
use crate::notes::refused;
use crate::script::status_behind;
use crate::task_kind::Task;
use crate::task_said::task;
use debug_shell::run_script;
use host_session::Host;
use ice_base::{Link, Sink, Source};
use std::alloc::Global;

/// The end of a shell over a link.
#[derive(Drop)]
pub struct Connected<K: Link> {
    /// How the call ended.
    pub status: Status,
    /// The link as it is then.
    pub link: K,
}

/// Runs the lines of the source on a debugger at the other end of the link, as `debug_shell` has them, and prints each answer to the sink
/// before it reads the next.
///
/// The words are `connect PORT`. The host takes its memory before anything is sent; the notes get a line where the words say no such
/// call, or where there is no memory, and else stay as they are.
pub fn ice2_connect<K: Link, S: Source, O: Sink, E: Sink>(
    alloc: Global,
    words: &[String],
    link: K,
    source: &mut S,
    sink: &mut O,
    notes: &mut E,
) -> Connected<K>
    ensures ends { ConnectsBy (words_of K.sent K.incoming K.faults K.sends K.receives) result.status (texts words.now)
        (ends_at (line_at (S.left source.old) (S.faults source.old) (O.written sink.old) (O.faults sink.old))
        (E.written notes.old) (E.faults notes.old))
        (ends_at (line_at (S.left source.new) (S.faults source.new) (O.written sink.new) (O.faults sink.new))
        (E.written notes.new) (E.faults notes.new))
        link result.link }
    ensures source_counts { S.faults source.old ≤ S.faults source.new }
    ensures sink_counts { O.faults sink.old ≤ O.faults sink.new }
    ensures notes_counts { E.faults notes.old ≤ E.faults notes.new }
{
    match task(words) {
        Task::Connect(_) => open(alloc, link, source, sink, notes),
        Task::Local => not_connected(link, notes),
        Task::Serve(_) => not_connected(link, notes),
        Task::Usage => not_connected(link, notes),
    }
}

/// Notes that the words say no shell over a link.
fn not_connected<K: Link, E: Sink>(link: K, notes: &mut E) -> Connected<K>
    ensures status { result.status ≡ Status.Usage }
    ensures link { result.link ≡ link }
    ensures noted { Noted (E.written notes.old) (E.written notes.new) (E.faults notes.old) (E.faults notes.new) (line (codes "usage")) }
    ensures counts { E.faults notes.old ≤ E.faults notes.new }
{
    Connected {
        status: refused(Status::Usage, b"usage\n", notes),
        link,
    }
}

/// Opens the host of a shell, and runs its lines.
fn open<K: Link, S: Source, O: Sink, E: Sink>(
    alloc: Global,
    link: K,
    source: &mut S,
    sink: &mut O,
    notes: &mut E,
) -> Connected<K>
    ensures opens { OpensShell (words_of K.sent K.incoming K.faults K.sends K.receives) result.status
        (ends_at (line_at (S.left source.old) (S.faults source.old) (O.written sink.old) (O.faults sink.old))
        (E.written notes.old) (E.faults notes.old))
        (ends_at (line_at (S.left source.new) (S.faults source.new) (O.written sink.new) (O.faults sink.new))
        (E.written notes.new) (E.faults notes.new))
        link result.link }
    ensures source_counts { S.faults source.old ≤ S.faults source.new }
    ensures sink_counts { O.faults sink.old ≤ O.faults sink.new }
    ensures notes_counts { E.faults notes.old ≤ E.faults notes.new }
{
    match Host::new(alloc, link) {
        Ok(host) => {
            let mut host = host;
            let end = run_script(&mut host, source, sink);
            Connected {
                status: status_behind(end, true),
                link: host.finish(),
            }
        }
        Err(refused_host) => Connected {
            status: refused(Status::Memory, b"memory\n", notes),
            link: refused_host.link,
        },
    }
}
