//! Items that were handed over one after the other.

/// Items of one sender that were handed over one after the other, their numbers rising by one.
#[derive(Clone, Copy, Debug, PartialEq, Eq)]
pub struct Run {
    pub sender: u32,
    /// The first item's number.
    pub first: u64,
    pub count: u64,
}
