//! Where a batch is that was handed over and not yet told.

/// Where a batch is that was handed over and not yet told.
#[derive(Clone, Copy, Debug, PartialEq, Eq)]
pub enum Attempt {
    /// In the request with this correlation id, which awaits its reply.
    InFlight(u32),
    /// It waits for a retry, since this moment.
    Waiting(u64),
}
