//! How a call ends.
ghost use Rattle.std.specs.Prelude.{◌≡◌};

/// Why a call ended; the first cause in time decides.
#[derive(Clone, Copy, Debug, PartialEq, Eq)]
pub enum Status {
    /// The input was read to its end, or the session signed off.
    Okay,
    /// The words have none of the call's forms.
    Usage,
    /// The image is refused.
    Image,
    /// The loader failed.
    Loader,
    /// The source failed.
    Read,
    /// The sink or the notes failed.
    Write,
    /// A page write failed.
    Flash,
    /// There was no memory to open with.
    Memory,
    /// The source gave more than 67,108,864 bytes.
    TooLong,
    /// The thread of the line could not be started.
    NoThread,
    /// The link to the tool failed.
    Link,
    /// The record does not fit.
    Refuted,
}

impl Status {
    ghost use Rattle.ice_top.specs.Codes.{code_of};

    /// The exit status: 0, then 2 to 11 in the order of the variants, and 14.
    pub fn code(&self) -> u8
        ensures { result ≡ code_of self.now }
    {
        match self {
            Status::Okay => 0,
            Status::Usage => 2,
            Status::Image => 3,
            Status::Loader => 4,
            Status::Read => 5,
            Status::Write => 6,
            Status::Flash => 7,
            Status::Memory => 8,
            Status::TooLong => 9,
            Status::NoThread => 10,
            Status::Link => 11,
            Status::Refuted => 14,
        }
    }
}

/// The end of a call: its status, and the flash that was handed in.
#[derive(Drop)]
pub struct Ended<F> {
    /// How the call ended.
    pub status: Status,
    /// The flash as it is then.
    pub flash: F,
}
