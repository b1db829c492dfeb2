//! How a call opens that runs the program of an image.
ghost use Rattle.std.specs.Prelude.{◌≡◌, ◌≤◌, ℕ, List, IfOk, OnOk, length};
ghost use Rattle.part_spec.specs.Chip.{chip_of, words_of};
ghost use Rattle.flash_patch.specs.Asking.{seen};
ghost use Rattle.ice_emul.specs.Beginning.{FailsToBegin};
ghost use Rattle.ice_line.specs.Lines.{Line};
ghost use Rattle.ice_top.specs.Opening.{LoadsAs, line_of, status_of, unread_by};
ghost use Rattle.ice_top.specs.Outside.{Noted, ends_at};
ghost use Rattle.ice_top.specs.Replays.{DidNotBegin};

use crate::image_notes::refusal_line;
use crate::notes::refused;
use crate::stops::STOPS;
use crate::{Ended, Status};
use arrayvec::ArrayVec;
use ice_base::{Flash, LoadError, Loader, Sink};
use ice_emul::BeginError;
use image_hex::{ImageError, read_image_for};
use part_spec::Part;
use std::alloc::Global;

/// The most bytes that are asked of the loader, one more than a content may have.
const LOAD_LIMIT: usize = 1_048_577;

/// Why a call did not open.
#[derive(Clone, Copy, Debug, PartialEq, Eq)]
pub(crate) enum Unopened {
    /// The loader failed.
    Loader,
    /// There was no memory.
    Memory,
    /// The image is refused.
    Image(ImageError),
}

/// What a call is opened with.
#[derive(Drop)]
pub(crate) struct Opening<'a> {
    /// Where memory is taken.
    pub alloc: Global,
    /// The part that the call is for.
    pub part: Part,
    /// The name of the image.
    pub image: &'a str,
}

/// What a session is begun with.
#[derive(Drop)]
pub(crate) struct Ready {
    /// The part that the target is.
    pub part: Part,
    /// The words of its flash.
    pub program: Vec<u16>,
    /// The numbers of steps of its runs; there is one, and each is at least 1.
    pub stops: ArrayVec<u32, STOPS>,
}

/// The program of the content with this name.
pub(crate) fn load<L: Loader>(
    alloc: Global,
    part: Part,
    name: &str,
    loader: &mut L,
) -> Result<Vec<u16>, Unopened>
    ensures loads { LoadsAs (L.contents loader.old) (L.faults loader.old) (L.faults loader.new) part name.now result }
    ensures size { IfOk result (λ program. length program.items ≡ words_of (chip_of part)) }
    ensures contents { L.contents loader.new ≡ L.contents loader.old }
    ensures still { OnOk result (L.faults loader.new ≡ L.faults loader.old) }
    ensures counts { L.faults loader.old ≤ L.faults loader.new }
{
    let image = match loader.load(alloc, name, LOAD_LIMIT) {
        Ok(image) => image,
        Err(LoadError::Failed) => return Err(Unopened::Loader),
        Err(LoadError::Memory) => return Err(Unopened::Memory),
    };
    match read_image_for(alloc, part, name, image.as_slice()) {
        Ok(program) => Ok(program),
        Err(error) => Err(unread(error)),
    }
}

/// Why a call did not open whose image was not read.
fn unread(error: ImageError) -> Unopened
    ensures { result ≡ unread_by error }
{
    match error {
        ImageError::Memory => Unopened::Memory,
        fault => Unopened::Image(fault),
    }
}

/// Notes why a session did not open.
pub(crate) fn refuse<E: Sink>(why: Unopened, notes: &mut E) -> Status
    ensures status { result ≡ status_of why }
    ensures noted { Noted (E.written notes.old) (E.written notes.new) (E.faults notes.old) (E.faults notes.new) (line_of why) }
    ensures counts { E.faults notes.old ≤ E.faults notes.new }
{
    match why {
        Unopened::Loader => refused(Status::Loader, b"loader\n", notes),
        Unopened::Memory => refused(Status::Memory, b"memory\n", notes),
        Unopened::Image(fault) => refused(Status::Image, refusal_line(fault).as_slice(), notes),
    }
}

/// Notes why a session did not begin, and gives its flash back.
pub(crate) fn give_back<E: Sink, F: Flash>(failed: BeginError<F>, notes: &mut E) -> Ended<F>
    ensures ended { (program : List ℕ) (from : F) (line : Line) →
        FailsToBegin (seen F.words F.journal F.faults F.writes) F.part program from failed →
        DidNotBegin (seen F.words F.journal F.faults F.writes) result.status (chip_of (F.part from)) program
        (ends_at line (E.written notes.old) (E.faults notes.old)) (ends_at line (E.written notes.new) (E.faults notes.new))
        from result.flash }
    ensures counts { E.faults notes.old ≤ E.faults notes.new }
{
    match failed {
        BeginError::Memory(flash) => Ended {
            status: refused(Status::Memory, b"memory\n", notes),
            flash,
        },
        BeginError::Flash(flash) => Ended {
            status: refused(Status::Flash, b"flash\n", notes),
            flash,
        },
    }
}
