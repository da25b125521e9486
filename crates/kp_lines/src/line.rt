//! A line of a stream.

/// A line of a stream.
#[derive(Debug, Drop)]
pub struct Line {
    /// The first line's is 1.
    pub number: u64,
    /// What stands before its delimiter.
    pub bytes: Vec<u8>,
}
