//! What a broker's error code means for a batch.

/// What a broker's error code means for a batch.
#[derive(Clone, Copy, Debug, PartialEq, Eq)]
pub enum Meaning {
    /// It stands in the log, from the offset that goes with the code.
    Stored,
    /// It stands in the log, and is older than the batches that the broker knows.
    Duplicate,
    /// It may be sent again.
    Retry,
    /// It is refused for good.
    Reject,
}
