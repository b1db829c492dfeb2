//! The call of the program.
ghost use Rattle.std.specs.Prelude.{◌≡◌, ◌≤◌, codes};
ghost use Rattle.flash_patch.specs.Asking.{seen};
ghost use Rattle.ice_line.specs.Lines.{line_at};
ghost use Rattle.ice_top.specs.Endings.{EndsBy};
ghost use Rattle.ice_top.specs.Notes.{line};
ghost use Rattle.ice_top.specs.Outside.{Noted, ends_at, outside};
ghost use Rattle.ice_top.specs.Plain.{AreAsPlain, LeaveProgram};
ghost use Rattle.ice_top.specs.Unopened.{IsUnopened};
ghost use Rattle.ice_top.specs.Words.{SaysFor, SaysNoText, texts};

use crate::assembling::assemble_text;
use crate::listing::list_line;
use crate::making::{Making, make};
use crate::notes::refused;
use crate::opening::Opening;
use crate::program::list_image;
use crate::replay::replay_image;
use crate::script::script_image;
use crate::verify::verify_image;
use crate::words::{Call, Form, call_of};
use crate::{Ended, Status};
use ice_base::{Flash, Loader, Sink, Source};
use std::alloc::Global;

/// Replays a debug line (AVR067) on the program of an image.
///
/// The words are `replay IMAGE STOPS`, with `m16` or `m32` behind them or none, which `part_of` reads; the flash is that of this part.
/// The loader gives the image, at most 1,048,576 bytes: Intel HEX where its name ends in `.hex`, else the words of the flash. The
/// flash is made the program. The line comes from the source, at most 67,108,864 bytes, up to its end or an answered sign-off; replies
/// and break events go to the sink. The k-th run of the target ends behind the k-th number of steps of STOPS where it is stopped, and
/// each behind the list behind the last. The notes get one line: the totals, or why the session did not open. The first cause in time
/// gives the status, and `EndsBy` says what each status means. All memory is taken in opening. The flash is handed back as it is then.
///
/// `frames` lists the line of the source, `gen SEED COUNT` makes a session, and `list IMAGE`, with a part behind it or none, lists the
/// program of an image. `asm`, with a part behind it or none, reads the text of the source, at most 1,048,576 bytes, and puts its image to
/// the sink, the low byte of each word first; the notes get a line where the text is too large or wrong, `asm: large` or `asm: line N KIND`.
/// `verify IMAGE`, with a part behind it or none, reads a session record from the source, at most 67,108,864 bytes, and judges it by a
/// debugger of the image's program that plants nothing: the sink gets `yes`, or `bad N`, `long N` or `no N` with the number of the first line
/// that is wrong or missing. Of these `frames`, `asm` and `verify` alone read the source, and no flash but that of `gen` is asked for anything. Words of `ice2_serve` and
/// `ice2_connect` say no call here.
pub fn ice2<L: Loader, S: Source, K: Sink, E: Sink, F: Flash>(
    alloc: Global,
    words: &[String],
    loader: &mut L,
    source: &mut S,
    sink: &mut K,
    notes: &mut E,
    flash: F,
) -> Ended<F>
    // The flash is that of the part that the words say.
    requires part { SaysFor (texts words.now) (F.part flash) }
    ensures ends { EndsBy (seen F.words F.journal F.faults F.writes) result.status (texts words.now)
        (outside (L.contents loader.old) (L.faults loader.old)
        (ends_at (line_at (S.left source.old) (S.faults source.old) (K.written sink.old) (K.faults sink.old))
        (E.written notes.old) (E.faults notes.old)))
        (outside (L.contents loader.new) (L.faults loader.new)
        (ends_at (line_at (S.left source.new) (S.faults source.new) (K.written sink.new) (K.faults sink.new))
        (E.written notes.new) (E.faults notes.new)))
        flash result.flash }
    // The headline: what was sent is what the plain debugger sends, up to the first run that is not clean.
    ensures plain { AreAsPlain (seen F.words F.journal F.faults F.writes)
        (line_at (S.left source.old) (S.faults source.old) (K.written sink.old) (K.faults sink.old))
        (line_at (S.left source.new) (S.faults source.new) (K.written sink.new) (K.faults sink.new)) flash result.flash }
    ensures program { LeaveProgram (seen F.words F.journal F.faults F.writes)
        (line_at (S.left source.old) (S.faults source.old) (K.written sink.old) (K.faults sink.old))
        (line_at (S.left source.new) (S.faults source.new) (K.written sink.new) (K.faults sink.new)) flash result.flash }
    // A session that did not open has not touched the line; of a text to assemble, which is read first, `ends` says what was.
    ensures untouched { IsUnopened result.status → SaysNoText (texts words.now) → (source.new ≡ source.old) × (sink.new ≡ sink.old) }
    ensures contents { L.contents loader.new ≡ L.contents loader.old }
    ensures loader_counts { L.faults loader.old ≤ L.faults loader.new }
    ensures source_counts { S.faults source.old ≤ S.faults source.new }
    ensures sink_counts { K.faults sink.old ≤ K.faults sink.new }
    ensures notes_counts { E.faults notes.old ≤ E.faults notes.new }
{
    let Some(Call { form, part }) = call_of(words) else {
        return no_call(notes, flash);
    };
    match form {
        Form::Replay { image, stops } => {
            let opening = Opening { alloc, part, image };
            replay_image(opening, stops, loader, source, sink, notes, flash)
        }
        Form::Script { image, stops } => {
            let opening = Opening { alloc, part, image };
            script_image(opening, stops, loader, source, sink, notes, flash)
        }
        Form::Frames => Ended {
            status: list_line(alloc, source, sink, notes),
            flash,
        },
        Form::Gen { seed, count } => {
            let making = Making { part, seed, count };
            make(alloc, making, sink, notes, flash)
        }
        Form::Listing { image } => {
            let opening = Opening { alloc, part, image };
            Ended {
                status: list_image(opening, loader, sink, notes),
                flash,
            }
        }
        Form::Verify { image } => {
            let opening = Opening { alloc, part, image };
            Ended {
                status: verify_image(opening, loader, source, sink, notes),
                flash,
            }
        }
        Form::Assembly => Ended {
            status: assemble_text(alloc, part, source, sink, notes),
            flash,
        },
        Form::Serve { .. } => no_call(notes, flash),
        Form::Connect { .. } => no_call(notes, flash),
    }
}

/// Notes that the words say no call of `ice2`.
fn no_call<E: Sink, F: Flash>(notes: &mut E, flash: F) -> Ended<F>
    ensures status { result.status ≡ Status.Usage }
    ensures noted { Noted (E.written notes.old) (E.written notes.new) (E.faults notes.old) (E.faults notes.new) (line (codes "usage")) }
    ensures counts { E.faults notes.old ≤ E.faults notes.new }
    ensures flash { result.flash ≡ flash }
{
    Ended {
        status: refused(Status::Usage, b"usage\n", notes),
        flash,
    }
}
