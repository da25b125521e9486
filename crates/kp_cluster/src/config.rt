//! How a cluster is reached, by Kafka's names.

/// How a cluster is reached. All times are in milliseconds.
#[derive(Clone, Copy, Debug, PartialEq, Eq)]
pub struct ClusterConfig {
    /// `reconnect.backoff.ms`: how long an address is left alone after its first failure in a row; by default 50.
    pub reconnect_backoff_ms: u64,
    /// `reconnect.backoff.max.ms`: how long at most; by default 1000.
    pub reconnect_backoff_max_ms: u64,
    /// `metadata.max.age.ms`: Metadata is asked for so often even where nothing has failed; by default 300000.
    pub metadata_max_age_ms: u64,
    /// `request.timeout.ms`: an answer to Metadata is awaited for so long; by default 30000.
    pub request_timeout_ms: u64,
    /// All goes to the one address whose connection answered, as through a tunnel.
    pub keep_to_one: bool,
}

impl ClusterConfig {
    /// Kafka's defaults.
    pub const DEFAULT: ClusterConfig = ClusterConfig {
        reconnect_backoff_ms: 50,
        reconnect_backoff_max_ms: 1000,
        metadata_max_age_ms: 300_000,
        request_timeout_ms: 30_000,
        keep_to_one: false,
    };
}
