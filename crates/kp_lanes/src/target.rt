//! Where a record is to go, and where it went.

/// The partition that a record is to go to.
#[derive(Clone, Copy, Debug, PartialEq, Eq)]
pub enum Target {
    /// This one, counted from 0.
    Named(u32),
    /// The one of its key; without a key the next one, round robin.
    Auto,
}

/// The place of an accepted record.
#[derive(Clone, Copy, Debug, PartialEq, Eq)]
pub struct Ticket {
    pub partition: u32,
    /// How many records of its sender were accepted for this partition before it.
    pub number: u64,
}
