//! The kinds of calls, by the objects that they are made with.

/// The call of these words, and so the objects that it is made with.
#[derive(Clone, Copy, Debug, PartialEq, Eq)]
pub enum Task {
    /// A call of `ice2`: over the standard streams.
    Local,
    /// A call of `ice2_serve`: over a connection that comes in at this port.
    Serve(u16),
    /// A call of `ice2_connect`: over a connection to this port.
    Connect(u16),
    /// The words say no call.
    Usage,
}
