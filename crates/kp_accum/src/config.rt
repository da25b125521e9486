//! How a producer batches, waits and retries, by Kafka's names (Kafka's documentation, "Producer Configs").

ghost use Rattle.std.specs.Prelude.{◌≡◌, ◌≤◌};
ghost use Rattle.std.specs.Bool.{OnFalse};
ghost use Rattle.kp_accum.specs.Config.{is_outside, checked};

use crate::fault::ConfigFault;

/// A batch's and a request's most bytes: 8 MiB.
const REQUEST_LIMIT: u64 = 8_388_608;

/// The longest wait before a batch is sent, or sent again: a day, in milliseconds.
const WAIT_LIMIT: u64 = 86_400_000;

/// The least memory, and the least request, that there may be: more than a batch of one small record.
const SIZE_LEAST: u64 = 100;

/// The most memory for records that wait: 1 GiB.
const MEMORY_LIMIT: u64 = 1_073_741_824;

/// The longest timeout: Kafka's is an int32.
const TIMEOUT_LIMIT: u64 = 2_147_483_647;

/// The most requests in flight with which a broker still knows each batch of a producer (KIP-98).
const IN_FLIGHT_LIMIT: u64 = 5;

/// How many sequence numbers there are: those of an int32 that are not below 0.
const SEQUENCE_LIMIT: u64 = 2_147_483_648;

/// How a producer batches, waits and retries. Sizes are in bytes, times in milliseconds.
#[derive(Clone, Copy, Debug, PartialEq, Eq)]
pub struct Config {
    /// `batch.size`: a batch that has so many bytes is full.
    pub batch_size: u64,
    /// `linger.ms`: how long a batch that is not full waits for more records.
    pub linger_ms: u64,
    /// `buffer.memory`: how many bytes the records that were not told of may have.
    pub buffer_memory: u64,
    /// `max.request.size`: how many bytes the batches of a request may have.
    pub max_request_size: u64,
    /// `request.timeout.ms`: how long a request waits for its response.
    pub request_timeout_ms: u64,
    /// `delivery.timeout.ms`: how long a batch has from its beginning.
    pub delivery_timeout_ms: u64,
    /// `retry.backoff.ms`: how long a batch waits before it is sent again.
    pub retry_backoff_ms: u64,
    /// `max.in.flight.requests.per.connection`.
    pub max_in_flight_requests_per_connection: u64,
    /// How many records of a partition have sequence numbers: a limit of this producer's own.
    pub sequence_limit: u64,
}

impl Default for Config {
    ghost use Rattle.kp_accum.specs.Config.{default_config};

    ghost is_default = { λ c. c ≡ default_config };

    fn default() -> Config {
        Config {
            batch_size: 16384,
            linger_ms: 0,
            buffer_memory: 33_554_432,
            max_request_size: 1_048_576,
            request_timeout_ms: 30_000,
            delivery_timeout_ms: 120_000,
            retry_backoff_ms: 100,
            max_in_flight_requests_per_connection: 5,
            sequence_limit: SEQUENCE_LIMIT,
        }
    }
}

impl Config {
    /// The first fault of the configuration, if there is one.
    #[tactic(auto, unfolding(crate::specs::Config::checked))]
    pub fn check(&self) -> Result<(), ConfigFault>
        ensures { result ≡ checked self.now }
    {
        if is_outside(0, REQUEST_LIMIT, self.batch_size) {
            return Err(ConfigFault::BatchSize);
        }
        if is_outside(0, WAIT_LIMIT, self.linger_ms) {
            return Err(ConfigFault::Linger);
        }
        if is_outside(SIZE_LEAST, MEMORY_LIMIT, self.buffer_memory) {
            return Err(ConfigFault::BufferMemory);
        }
        if is_outside(SIZE_LEAST, REQUEST_LIMIT, self.max_request_size) {
            return Err(ConfigFault::MaxRequestSize);
        }
        if is_outside(1, TIMEOUT_LIMIT, self.request_timeout_ms) {
            return Err(ConfigFault::RequestTimeout);
        }
        let delivery_least = self.linger_ms + self.request_timeout_ms;
        if is_outside(delivery_least, TIMEOUT_LIMIT, self.delivery_timeout_ms) {
            return Err(ConfigFault::DeliveryTimeout);
        }
        if is_outside(0, WAIT_LIMIT, self.retry_backoff_ms) {
            return Err(ConfigFault::RetryBackoff);
        }
        if is_outside(
            1,
            IN_FLIGHT_LIMIT,
            self.max_in_flight_requests_per_connection,
        ) {
            return Err(ConfigFault::MaxInFlight);
        }
        if is_outside(1, SEQUENCE_LIMIT, self.sequence_limit) {
            return Err(ConfigFault::SequenceLimit);
        }
        if self.max_request_size < self.batch_size {
            return Err(ConfigFault::BatchAboveRequest);
        }
        Ok(())
    }
}

/// Whether the value is not from `least` to `most`.
#[tactic(auto, unfolding(crate::specs::Config::is_outside))]
fn is_outside(least: u64, most: u64, value: u64) -> bool
    ensures test { result ≡ is_outside least most value }
    ensures bounds { OnFalse result (least ≤ value × value ≤ most) }
{
    value < least || value > most
}
