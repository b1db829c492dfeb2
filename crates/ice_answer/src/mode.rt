//! What the debugger does.

/// What the debugger does.
#[derive(Clone, Copy, Debug, PartialEq, Eq)]
pub enum Mode {
    /// The target is stopped.
    Stopped,
    /// A run is prepared, and the reply to the frame with this number waits for its launch.
    Launching(u16),
    /// A run is out.
    Running,
    /// The flash is programmed.
    Programming,
    /// A run is out, and the session ends with it.
    Leaving,
    /// The session is closed, and its restore was made or not.
    Closed(bool),
}
