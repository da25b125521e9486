//! How often a connection that was lost is made anew.

/// How many new connections there may be. One is made only while there is something to send. The first of them is made at
/// once, and there is a wait before each other one: 10 milliseconds, and twice as long each time, up to the greater of a
/// second and `retry.backoff.ms`. After a reply the waits begin again.
#[derive(Clone, Copy, Debug, PartialEq, Eq)]
pub enum Policy {
    /// So many in all.
    InAll(u32),
    /// So many in a row, with no reply between them.
    InARow(u32),
    /// As many as it takes: what is not sent within `delivery.timeout.ms` is told.
    Unlimited,
}
