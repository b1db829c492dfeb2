//! The numbers of the line, each once: definitions and code take them from here.

/// The most bytes of a body (this project's own).
pub const BODY_LIMIT: usize = 4106;

/// The bytes of a frame around its body: 1B, the number, the size and 0E ahead of it, the check behind it.
pub const FRAME_EDGE: usize = 10;

/// The most bytes of a frame.
pub const FRAME_LIMIT: usize = BODY_LIMIT + FRAME_EDGE;

/// The number of events: a frame of the host with it is not answered (AVR067, 'Message format').
pub const EVENT_NUMBER: u16 = 0xFFFF;

/// The most bytes that one command reads from a memory (this project's own).
pub const MEMORY_LIMIT: usize = 4096;

/// What this tool signs on with: protocol 01; boot 01, firmware 06.00 and hardware 01 of the master and of the slave; the serial
/// number.
pub const OWN_HEAD: [u8; 15] = [1, 1, 0, 6, 1, 1, 0, 6, 1, 0, 0, 0, 0, 0, 1];

/// The name that this tool signs on with.
pub const OWN_NAME: [u8; 11] = *b"JTAGICEmkII";
