//! A listing of a debug line.
ghost use Rattle.std.specs.Prelude.{◌≡◌, ◌≤◌};
ghost use Rattle.ice_line.specs.Lines.{line_at};
ghost use Rattle.ice_top.specs.Listings.{Listed, status_by};
ghost use Rattle.ice_top.specs.Outside.{ends_at};
ghost use Rattle.ice_top.specs.Unopened.{IsUnopened};

use crate::Status;
use crate::notes::refused;
use frame_listing::{ListingEnd, list_frames};
use ice_base::{Sink, Source};
use ice_recv::Receiver;
use std::alloc::Global;

/// Lists the line of the source.
pub(crate) fn list_line<S: Source, K: Sink, E: Sink>(
    alloc: Global,
    source: &mut S,
    sink: &mut K,
    notes: &mut E,
) -> Status
    ensures listed { Listed result
        (ends_at (line_at (S.left source.old) (S.faults source.old) (K.written sink.old) (K.faults sink.old))
        (E.written notes.old) (E.faults notes.old))
        (ends_at (line_at (S.left source.new) (S.faults source.new) (K.written sink.new) (K.faults sink.new))
        (E.written notes.new) (E.faults notes.new)) }
    ensures untouched { IsUnopened result → (source.new ≡ source.old) × (sink.new ≡ sink.old) }
    ensures source_counts { S.faults source.old ≤ S.faults source.new }
    ensures sink_counts { K.faults sink.old ≤ K.faults sink.new }
    ensures notes_counts { E.faults notes.old ≤ E.faults notes.new }
{
    match Receiver::new(alloc) {
        Ok(receiver) => status_of(list_frames(receiver, source, sink)),
        Err(_) => refused(Status::Memory, b"memory\n", notes),
    }
}

/// The status of a listing that ended so.
fn status_of(end: ListingEnd) -> Status
    ensures { result ≡ status_by end }
{
    match end {
        ListingEnd::Okay => Status::Okay,
        ListingEnd::Read => Status::Read,
        ListingEnd::Write => Status::Write,
        ListingEnd::TooLong => Status::TooLong,
    }
}
