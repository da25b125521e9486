//! A request that goes out.

use kp_wire::Blob;

/// A request that goes out.
#[derive(Debug, Drop)]
pub struct Outgoing {
    /// The id under which its reply comes.
    pub correlation: u32,
    /// The whole frame, its size included.
    pub bytes: Blob,
}
