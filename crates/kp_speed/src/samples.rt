//! What the works are done with: a configuration, records and items.

use kp_accum::{Config, Item};
use kp_batch::{Record, Timestamp};
use kp_wire::{Blob, Seq};
use std::alloc::{AllocError, Global};

/// An item's value: a hundred bytes.
const VALUE: [u8; 100] = [b'v'; 100];

/// With memory for millions of items.
pub(crate) const CONFIG: Config = Config {
    batch_size: 16384,
    linger_ms: 0,
    buffer_memory: 1_073_741_824,
    max_request_size: 1_048_576,
    request_timeout_ms: 30_000,
    delivery_timeout_ms: 120_000,
    retry_backoff_ms: 100,
    max_in_flight_requests_per_connection: 5,
    sequence_limit: 2_147_483_648,
};

/// A record with no key and a value of a hundred bytes.
pub(crate) fn record_of(alloc: Global) -> Result<Record, AllocError> {
    Ok(Record {
        timestamp: Timestamp::from_millis(0).ok_or(AllocError)?,
        key: None,
        value: Some(Blob::from_slice(alloc, &VALUE)?),
        headers: Seq::new(Vec::new(alloc)),
    })
}

/// This sender's item with this number, accepted at the moment 0.
pub(crate) fn item_of(
    alloc: Global,
    sender: u32,
    partition: u32,
    number: u32,
) -> Result<Item, AllocError> {
    Ok(Item {
        sender,
        partition,
        number: u64::from(number),
        at: 0,
        body: record_of(alloc)?,
    })
}
