//! Why a configuration or an item is refused.

ghost use Rattle.std.specs.Prelude.{◌≡◌};
ghost use Rattle.kp_accum.specs.Config.{number_of};

use thiserror::Error;

/// Why a configuration is refused: of these, from the top, the first that applies.
#[derive(Clone, Copy, Debug, PartialEq, Eq, Error)]
pub enum ConfigFault {
    #[error("batch.size is not from 0 to 8388608")]
    BatchSize,
    #[error("linger.ms is not from 0 to 86400000")]
    Linger,
    #[error("buffer.memory is not from 100 to 1073741824")]
    BufferMemory,
    #[error("max.request.size is not from 100 to 8388608")]
    MaxRequestSize,
    #[error("request.timeout.ms is not from 1 to 2147483647")]
    RequestTimeout,
    #[error("delivery.timeout.ms is not from linger.ms + request.timeout.ms to 2147483647")]
    DeliveryTimeout,
    #[error("retry.backoff.ms is not from 0 to 86400000")]
    RetryBackoff,
    #[error("max.in.flight.requests.per.connection is not from 1 to 5")]
    MaxInFlight,
    #[error("sequence.limit is not from 1 to 2147483648")]
    SequenceLimit,
    #[error("batch.size is above max.request.size")]
    BatchAboveRequest,
}

impl ConfigFault {
    /// The fault's number, from 1, in the order in which they are looked for.
    pub fn number(self) -> u8
        ensures { result ≡ number_of self }
    {
        match self {
            ConfigFault::BatchSize => 1,
            ConfigFault::Linger => 2,
            ConfigFault::BufferMemory => 3,
            ConfigFault::MaxRequestSize => 4,
            ConfigFault::RequestTimeout => 5,
            ConfigFault::DeliveryTimeout => 6,
            ConfigFault::RetryBackoff => 7,
            ConfigFault::MaxInFlight => 8,
            ConfigFault::SequenceLimit => 9,
            ConfigFault::BatchAboveRequest => 10,
        }
    }
}

/// Why an item is refused: of these the first that applies. The item comes back.
#[derive(Clone, Copy, Debug, PartialEq, Eq, Error)]
pub enum AppendFault {
    /// With the item, the items would take more than `buffer.memory`.
    #[error("the buffer memory is full")]
    BufferFull,
    #[error("out of memory")]
    OutOfMemory,
}
