//! What a core is made of.

use kp_accum::Config;
use kp_cases::{StepFault, Words};
use kp_core::{Core, Names};
use kp_wire::Text;
use std::alloc::{AllocError, Global};

/// The first producer id of each core.
const PRODUCER_ID: u64 = 1000;

/// The values of a configuration, in its order.
fn config_of(words: &mut Words<'_>) -> Result<Config, StepFault> {
    let mut values = [0; 9];
    for value in &mut values {
        *value = words.number()?;
    }
    let [
        batch_size,
        linger_ms,
        buffer_memory,
        max_request_size,
        request_timeout_ms,
        delivery_timeout_ms,
        retry_backoff_ms,
        max_in_flight_requests_per_connection,
        sequence_limit,
    ] = values;
    Ok(Config {
        batch_size,
        linger_ms,
        buffer_memory,
        max_request_size,
        request_timeout_ms,
        delivery_timeout_ms,
        retry_backoff_ms,
        max_in_flight_requests_per_connection,
        sequence_limit,
    })
}

/// What a core is made of, beside its names.
#[derive(Clone, Copy)]
struct Setting {
    partitions: u32,
    senders: u32,
    /// The correlation id of its first request.
    correlation: u32,
    /// Whether it keeps audits.
    audits: bool,
    config: Config,
}

/// So many partitions and senders, the correlation id of the first request, whether audits are kept, and the values of the
/// configuration.
fn setting_of(words: &mut Words<'_>) -> Result<Setting, StepFault> {
    Ok(Setting {
        partitions: words.number()?,
        senders: words.number()?,
        correlation: words.number()?,
        audits: words.number()?,
        config: config_of(words)?,
    })
}

fn names_of(alloc: Global) -> Result<Names, AllocError> {
    Ok(Names {
        topic: Text::from_str(alloc, "t")?,
        client: Text::from_str(alloc, "kp")?,
    })
}

/// A core with these names, where one is made of this.
fn made_of(alloc: Global, setting: Setting, names: Names) -> Result<Core, StepFault> {
    let Setting {
        partitions,
        senders,
        correlation,
        audits,
        config,
    } = setting;
    if config.check() != Ok(())
        || names.topic.len() > 249
        || names.client.len() > 249
        || partitions == 0
        || partitions > 1024
        || senders == 0
        || senders > 64
        || correlation > 2_147_483_647
    {
        return Err("no core is made of this".into());
    }
    match Core::new(
        alloc,
        config,
        names,
        partitions,
        senders,
        PRODUCER_ID,
        correlation,
        audits,
    ) {
        Ok(core) => Ok(core),
        Err(_) => Err(StepFault::OutOfMemory),
    }
}

/// The core of these numbers: so many partitions and senders, the correlation id of its first request, whether it keeps audits, and the
/// values of its configuration.
pub(crate) fn core_of(alloc: Global, words: &mut Words<'_>) -> Result<Core, StepFault> {
    let setting = setting_of(words)?;
    let names = names_of(alloc)?;
    made_of(alloc, setting, names)
}
