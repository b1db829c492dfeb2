//! The memory of a host.
ghost use Rattle.std.specs.Prelude.{IfOk};
ghost use Rattle.host_session.specs.Rooms.{IsEmpty};

use crate::awaiting::KEPT_LIMIT;
use crate::inbox::Inbox;
use circular_buffer::HeapCircularBuffer;
use ice_msg::Event;
use std::alloc::{AllocError, Global};

/// The memory of a host, to which nothing has come.
#[derive(Drop)]
pub struct Room {
    pub(crate) inbox: Inbox,
    pub(crate) kept: HeapCircularBuffer<Event>,
}

impl Room {
    /// All the memory that a host takes.
    pub fn new(alloc: Global) -> Result<Room, AllocError>
        ensures { IfOk result IsEmpty }
    {
        let inbox = Inbox::new(alloc)?;
        let kept = HeapCircularBuffer::with_capacity(alloc, KEPT_LIMIT)?;
        Ok(Room { inbox, kept })
    }
}
