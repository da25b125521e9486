//! What a sender is told of its items.

/// Why an item was never sent.
#[derive(Clone, Copy, Debug, PartialEq, Eq)]
pub enum Reason {
    /// Its batch was still queued when the delivery timeout was over.
    Expired,
    /// Its partition was fenced.
    Fenced,
    /// The producer was ended.
    Ended,
}

/// What became of an item.
#[derive(Clone, Copy, Debug, PartialEq, Eq)]
pub enum Outcome {
    /// It stands in the log, at this offset.
    Delivered(i64),
    /// It stands in the log; the broker no longer knows at which offset.
    DeliveredNoOffset,
    /// It was sent, and given up before an answer came; it may stand in the log or not.
    Unknown,
    /// The broker refused its batch for good, with this error code; it may stand in the log or not, where an earlier
    /// attempt was lost.
    Rejected(i16),
    /// It was never sent.
    Unsent(Reason),
}

/// What a sender is told of an item.
#[derive(Clone, Copy, Debug, PartialEq, Eq)]
pub struct Report {
    pub sender: u32,
    pub partition: u32,
    /// How many records of this sender were accepted for this partition before it.
    pub number: u64,
    pub outcome: Outcome,
}
