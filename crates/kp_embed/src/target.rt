//! Where records go.

/// The partition that a record is to go to.
#[derive(Clone, Copy, Debug, PartialEq, Eq)]
pub enum Target {
    /// This one, counted from 0.
    Partition(u32),
    /// The one of its key (Kafka's murmur2); without a key the next one, round robin.
    Any,
}

/// The place of an accepted record.
#[derive(Clone, Copy, Debug, PartialEq, Eq)]
pub struct Ticket {
    pub partition: u32,
    /// How many records were accepted for this partition before it.
    pub number: u64,
}
