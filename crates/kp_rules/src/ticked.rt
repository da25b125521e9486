//! What a core answers to the time and to a reply.

/// What the time has brought.
#[derive(Clone, Copy, Debug, PartialEq, Eq)]
pub struct Ticked {
    /// How many items were told of.
    pub reports: usize,
    /// A request has waited too long for its reply, and the connection is to be given up.
    pub reconnect: bool,
}

/// What a reply has brought.
#[derive(Clone, Copy, Debug, PartialEq, Eq)]
pub struct Replied {
    /// The reply is one to a request in flight.
    pub known: bool,
    /// How many items were told of.
    pub reports: usize,
}
