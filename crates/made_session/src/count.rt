//! What the bytes of frames come to, byte by byte.
ghost use Rattle.std.specs.Prelude.{◌≡◌};
ghost use Rattle.made_session.specs.Counting.{body_counted, counted, ended, start};

use ice_frame::crc_with;
use line_spec::limits::EVENT_NUMBER;

/// What the bytes taken so far come to: whole frames, and the front of one more.
#[derive(Clone, Copy, Debug, PartialEq, Eq)]
pub(crate) struct Count {
    /// How many of the frames are replies, up to the greatest u64.
    pub replies: u64,
    /// How many are events, likewise.
    pub events: u64,
    /// The check of the bodies, joined.
    pub check: u16,
    /// How many bytes of a frame stand ahead of the next one: those of the header, then 8 in the body and at the first byte of the
    /// check, and 9 at its second.
    pub place: u8,
    /// The number of the frame, once its two bytes were taken: each comes in at the top.
    pub number: u16,
    /// How many bytes of the body are still to come, once the four bytes of the size were taken.
    pub left: u32,
}

impl Count {
    /// What no bytes come to.
    pub(crate) fn start() -> Count
        ensures { result ≡ start }
    {
        Count {
            replies: 0,
            events: 0,
            check: 0xFFFF,
            place: 0,
            number: 0,
            left: 0,
        }
    }

    /// What these bytes and one more come to.
    pub(crate) fn with(self, byte: u8) -> Count
        ensures { result ≡ counted self byte }
    {
        if self.place < 1 {
            Count { place: 1, ..self }
        } else if self.place < 3 {
            Count {
                place: self.place + 1,
                number: self.number / 256 + 256 * u16::from(byte),
                ..self
            }
        } else if self.place < 7 {
            Count {
                place: self.place + 1,
                left: self.left / 256 + 0x100_0000 * u32::from(byte),
                ..self
            }
        } else if self.place < 8 {
            Count { place: 8, ..self }
        } else if self.place < 9 {
            self.with_body(byte)
        } else {
            self.ended()
        }
    }

    /// Behind the header stand the bytes of the body, as many as it says, and then the first byte of the check.
    fn with_body(self, byte: u8) -> Count
        ensures { result ≡ body_counted self byte }
    {
        if self.left == 0 {
            return Count { place: 9, ..self };
        }
        Count {
            left: self.left - 1,
            check: crc_with(self.check, byte),
            ..self
        }
    }

    /// The frame is whole.
    fn ended(self) -> Count
        ensures { result ≡ ended self }
    {
        if self.number == EVENT_NUMBER {
            Count {
                place: 0,
                events: self.events.saturating_add(1),
                ..self
            }
        } else {
            Count {
                place: 0,
                replies: self.replies.saturating_add(1),
                ..self
            }
        }
    }
}
