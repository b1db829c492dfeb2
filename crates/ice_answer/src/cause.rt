//! Why the target stopped.
ghost use Rattle.std.specs.Prelude.{◌≡◌};
ghost use Rattle.debug_spec.specs.Stop.{cause_code};
ghost use Rattle.ice_answer.specs.Values.{why_of};

/// Why the target stopped.
#[derive(Clone, Copy, Debug, PartialEq, Eq)]
pub enum Cause {
    /// At a breakpoint.
    Breakpoint,
    /// As it was asked to.
    Forced,
    /// After a single step.
    SingleStep,
    /// After a reset.
    Restarted,
    /// At a BREAK of the program's own.
    OwnBreak,
    /// At a word that does not run.
    Undefined,
    /// As a page could not be written.
    FailedWrite,
}

impl Cause {
    /// The byte that stands for it on the line.
    pub fn code(self) -> u8
        ensures { result ≡ cause_code (why_of self) }
    {
        match self {
            Cause::Breakpoint => 0x01,
            Cause::Forced => 0x02,
            Cause::SingleStep => 0x03,
            Cause::Restarted => 0x04,
            Cause::OwnBreak => 0x05,
            Cause::Undefined => 0x06,
            Cause::FailedWrite => 0x07,
        }
    }
}
