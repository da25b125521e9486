//! How far a handshake has come.

/// How far a handshake has come.
#[derive(Clone, Copy, Debug)]
pub(crate) enum Stage {
    /// Nothing was asked.
    Opening,
    /// The answer to Metadata is awaited.
    Metadata,
    /// The answer to InitProducerId is awaited; the topic has so many partitions.
    ProducerId(u32),
}
