//! The line of a session and what is sent, put together frame by frame.
use arrayvec::ArrayVec;
use ice_frame::{Frame, write_frame};
use std::alloc::{AllocError, Global};

/// The body of a command, the body of its reply, and the word address and the cause of the event behind it.
pub(super) type Exchange = (&'static [u8], &'static [u8], Option<(u16, u8)>);

/// The body of a reply that all is well.
pub(super) const OKAY: &[u8] = &[0x80];

/// SET_BREAK of a software breakpoint at word 2.
pub(super) const BREAK_AT_2: &[u8] = &[0x11, 0x01, 0x00, 0x02, 0x00, 0x00, 0x00, 0x00];

/// GO, and SIGN_OFF.
pub(super) const GO: &[u8] = &[0x08];

pub(super) const SIGN_OFF: &[u8] = &[0x00];

/// FORCED_STOP as this project's own host writes it.
pub(super) const STOP: &[u8] = &[0x0A, 0x01];

/// READ_MEMORY of the first four words of the program, and its reply where that is the light's.
pub(super) const READ_WORDS: &[u8] = &[0x05, 0xA0, 0x08, 0x00, 0x00, 0x00, 0x00, 0x00, 0x00, 0x00];

pub(super) const LIGHT_READ: &[u8] = &[0x82, 0x01, 0xE0, 0x07, 0xBB, 0x08, 0xBB, 0xFF, 0xCF];

/// The number of an event's frame.
const OF_EVENTS: u16 = 0xFFFF;

/// Puts the bytes of a frame behind others. What does not fit a body is left out.
pub(super) fn put_frame(bytes: &mut Vec<u8>, number: u16, body: &[u8]) -> Result<(), AllocError> {
    let mut frame = Frame {
        seq: number,
        body: ArrayVec::new(),
    };
    let _ = frame.body.try_extend_from_slice(body);
    let mut out = ArrayVec::new();
    write_frame(&frame, &mut out);
    bytes.extend_from_slice(out.as_slice())
}

/// A line, and what is sent.
#[derive(Drop)]
pub(super) struct Talk {
    pub line: Vec<u8>,
    pub sent: Vec<u8>,
    /// The number of the next command.
    next: u16,
}

impl Talk {
    /// Nothing said yet.
    pub(super) fn new(alloc: Global) -> Talk {
        Talk {
            line: Vec::new(alloc),
            sent: Vec::new(alloc),
            next: 0,
        }
    }

    /// The next command, and its reply.
    pub(super) fn ask(&mut self, body: &[u8], reply: &[u8]) -> Result<(), AllocError> {
        put_frame(&mut self.line, self.next, body)?;
        put_frame(&mut self.sent, self.next, reply)?;
        self.next = self.next.wrapping_add(1);
        Ok(())
    }

    /// An event.
    pub(super) fn event(&mut self, pc: u16, cause: u8) -> Result<(), AllocError> {
        let [low, high] = pc.to_le_bytes();
        put_frame(
            &mut self.sent,
            OF_EVENTS,
            &[0xE0, low, high, 0x00, 0x00, cause],
        )
    }

    /// Exchanges, in their order.
    pub(super) fn of(alloc: Global, exchanges: &[Exchange]) -> Result<Talk, AllocError> {
        let mut talk = Talk::new(alloc);
        for (body, reply, event) in exchanges {
            talk.ask(body, reply)?;
            if let Some((pc, cause)) = event {
                talk.event(*pc, *cause)?;
            }
        }
        Ok(talk)
    }
}
