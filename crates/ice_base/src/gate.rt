//! Where a running target may be held.

/// A gate that is passed after each unfinished turn of a target's run. It may hold the run back.
pub trait Gate: Drop {
    /// Passes the gate after the turn with this number, from 1 and modulo 2^64.
    fn pass(&mut self, turn: u64);
}

/// A gate that holds nothing back.
#[derive(Clone, Copy, Debug, PartialEq, Eq)]
pub struct OpenGate;

impl Gate for OpenGate {
    fn pass(&mut self, _turn: u64) {}
}
