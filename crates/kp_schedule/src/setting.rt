//! What a schedule may set.

ghost use Rattle.std.specs.Prelude.{◌≡◌};
ghost use Rattle.kp_schedule.specs.Grammar.{Reads, name_of};

/// What a schedule may set: how many partitions and senders there are, and the producer's configuration by Kafka's names
/// (Kafka's documentation, "Producer Configs").
#[derive(Clone, Copy, Debug, PartialEq, Eq)]
pub enum Setting {
    Partitions,
    Senders,
    BatchSize,
    Linger,
    BufferMemory,
    MaxRequestSize,
    RequestTimeout,
    DeliveryTimeout,
    RetryBackoff,
    MaxInFlight,
    SequenceLimit,
}

/// The setting of this name.
pub fn setting_of(name: &str) -> Option<Setting>
    ensures { Reads (λ _. Unit {0}) name_of name.now result }
{
    match name {
        "partitions" => Some(Setting::Partitions),
        "senders" => Some(Setting::Senders),
        "batch.size" => Some(Setting::BatchSize),
        "linger.ms" => Some(Setting::Linger),
        "buffer.memory" => Some(Setting::BufferMemory),
        "max.request.size" => Some(Setting::MaxRequestSize),
        "request.timeout.ms" => Some(Setting::RequestTimeout),
        "delivery.timeout.ms" => Some(Setting::DeliveryTimeout),
        "retry.backoff.ms" => Some(Setting::RetryBackoff),
        "max.in.flight" => Some(Setting::MaxInFlight),
        "sequence.limit" => Some(Setting::SequenceLimit),
        _ => None,
    }
}
