//! What an engine is opened with.

use kp_accum::Config;
use kp_cases::{StepFault, Words};

/// What an engine is opened with. Its topic is "t", and its client "kp".
#[derive(Clone, Copy)]
pub(crate) struct Setting {
    pub(crate) config: Config,
    pub(crate) partitions: u32,
    pub(crate) senders: u32,
    /// The correlation id of the first request.
    pub(crate) correlation: u32,
    /// How many records, and how many reports, are between a sender and the engine.
    pub(crate) capacity: usize,
    /// How much later each turn is than the one before it, in milliseconds.
    pub(crate) step: u64,
    pub(crate) keeps_calls: bool,
}

/// Sets what has this name among Kafka's.
fn configure(config: &mut Config, name: &str, value: u64) -> Result<(), StepFault> {
    match name {
        "batch.size" => config.batch_size = value,
        "linger.ms" => config.linger_ms = value,
        "buffer.memory" => config.buffer_memory = value,
        "request.timeout.ms" => config.request_timeout_ms = value,
        "delivery.timeout.ms" => config.delivery_timeout_ms = value,
        "sequence.limit" => config.sequence_limit = value,
        _ => return Err(StepFault::NotUnderstood),
    }
    Ok(())
}

impl Setting {
    /// One sender and one partition, and a clock that stands.
    pub(crate) fn new() -> Setting {
        Setting {
            config: Config::default(),
            partitions: 1,
            senders: 1,
            correlation: 2,
            capacity: 16,
            step: 0,
            keeps_calls: true,
        }
    }

    /// Sets what the next word names to the one behind it.
    fn set(&mut self, words: &mut Words<'_>) -> Result<(), StepFault> {
        match words.word()? {
            "partitions" => self.partitions = words.number()?,
            "senders" => self.senders = words.number()?,
            "correlation" => self.correlation = words.number()?,
            name => return self.set_turning(name, words),
        }
        Ok(())
    }

    /// Sets what has this name among what the core has no part in, or among Kafka's settings.
    fn set_turning(&mut self, name: &str, words: &mut Words<'_>) -> Result<(), StepFault> {
        match name {
            "capacity" => self.capacity = words.number()?,
            "step" => self.step = words.number()?,
            "keeps-calls" => self.keeps_calls = words.number()?,
            _ => return configure(&mut self.config, name, words.number()?),
        }
        Ok(())
    }

    /// Names, each with its value behind it. What is not named is as it is in a new one.
    pub(crate) fn read(words: &mut Words<'_>) -> Result<Setting, StepFault> {
        let mut setting = Setting::new();
        for _ in 0..u64::MAX {
            if words.is_empty() {
                break;
            }
            setting.set(words)?;
        }
        Ok(setting)
    }
}
