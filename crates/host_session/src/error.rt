//! Why a host has no answer.

use ice_frame::Frame;
use ice_msg::Event;

/// Why a call gave no reply and no event.
#[derive(Drop)]
pub enum HostError {
    /// The link failed, and its count of faults rose.
    Link,
    /// 1,000,000 bytes came in one call, and not what was awaited.
    NoReply,
    /// The link gives nothing more, and what was awaited did not come.
    Closed,
    /// The awaited frame, whose body is no response; or a frame with the number of events, whose body is no event.
    BadReply(Frame),
    /// An event for which there was no room.
    EventsFull(Event),
}

/// There was no memory for a host; the link is handed back.
#[derive(Drop)]
pub struct NoMemory<L> {
    /// The link, as it was.
    pub link: L,
}
