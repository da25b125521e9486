//! Settings, flags and items, as steps name them.

use crate::parts::{PartPlayer, Played};
use kp_accum::{Config, Flags, Item};
use kp_batch::{AsRecord, Record, Timestamp, charge};
use kp_cases::{StepFault, Words};
use kp_wire::{Blob, Seq};
use std::alloc::Global;

/// The value of the setting of this name of Kafka's (Kafka's documentation, "Producer Configs").
pub(crate) fn value_of<'c>(config: &'c mut Config, name: &str) -> Result<&'c mut u64, StepFault> {
    Ok(match name {
        "batch.size" => &mut config.batch_size,
        "linger.ms" => &mut config.linger_ms,
        "buffer.memory" => &mut config.buffer_memory,
        "max.request.size" => &mut config.max_request_size,
        "request.timeout.ms" => &mut config.request_timeout_ms,
        "delivery.timeout.ms" => &mut config.delivery_timeout_ms,
        "retry.backoff.ms" => &mut config.retry_backoff_ms,
        "max.in.flight" => &mut config.max_in_flight_requests_per_connection,
        "sequence.limit" => &mut config.sequence_limit,
        _ => return Err(StepFault::NotUnderstood),
    })
}

/// Sets what a word says, as `NAME=VALUE`.
fn configure(config: &mut Config, setting: &str) -> Played {
    let (name, value) = setting.split_once('=').ok_or(StepFault::NotUnderstood)?;
    let value = value.parse().map_err(|_| StepFault::NotUnderstood)?;
    *value_of(config, name)? = value;
    Ok(())
}

/// The flags that the words name.
pub(crate) fn flags_of(words: &mut Words<'_>) -> Result<Flags, StepFault> {
    let mut flags = Flags::default();
    for flag in words.rest().split_whitespace() {
        match flag {
            "exhausted" => flags.exhausted = true,
            "closing" => flags.closing = true,
            "flushing" => flags.flushing = true,
            _ => return Err(StepFault::NotUnderstood),
        }
    }
    Ok(flags)
}

/// The next word, which is a number; 0 where there is none.
pub(crate) fn number_or_zero(words: &mut Words<'_>) -> Result<u32, StepFault> {
    if words.is_empty() {
        return Ok(0);
    }
    words.number()
}

/// A record of this value, with neither key nor headers, at moment 0.
fn record_of(alloc: Global, value: Vec<u8>) -> Result<Record, StepFault> {
    Ok(Record {
        timestamp: Timestamp::from_millis(0).ok_or("there is no such moment")?,
        key: None,
        value: Some(Blob::new(value)),
        headers: Seq::new(Vec::new(alloc)),
    })
}

/// An item with such a record: its number, its value, the moment at which it was accepted, and, each 0 where it is not said,
/// its partition and its sender.
pub(crate) fn item_of(alloc: Global, words: &mut Words<'_>) -> Result<Item, StepFault> {
    let number = words.number()?;
    let value = words.bytes()?;
    let at = words.number()?;
    let (partition, sender) = (number_or_zero(words)?, number_or_zero(words)?);
    Ok(Item {
        sender,
        partition,
        number,
        at,
        body: record_of(alloc, value)?,
    })
}

/// Gives the item's record this timestamp.
fn stamp(item: &mut Item, millis: i64) -> Played {
    item.body.timestamp = Timestamp::from_millis(millis).ok_or("there is no such moment")?;
    Ok(())
}

/// Tells what an item has: sender, partition, number, moment of acceptance, timestamp and charge.
fn tell_item(item: &Item, came: &mut String) -> Played {
    write!(
        came,
        "{} {} {} {}",
        item.sender, item.partition, item.number, item.at
    )?;
    let record = item.as_record();
    write!(came, " {} {}", record.timestamp.millis(), charge(record))?;
    Ok(())
}

impl PartPlayer {
    /// Sets what the words say, as `NAME=VALUE`, and all else to its default: `ok`, or the number and name of the fault.
    pub(crate) fn set(&mut self, words: &mut Words<'_>, came: &mut String) -> Played {
        self.config = Config::default();
        for setting in words.rest().split_whitespace() {
            configure(&mut self.config, setting)?;
        }
        match self.config.check() {
            Ok(()) => came.push_str("ok")?,
            Err(fault) => write!(came, "{} {fault:?}", fault.number())?,
        }
        Ok(())
    }

    /// Tells what a copy of the item has, with the timestamp behind it.
    pub(crate) fn tell_copy(&self, words: &mut Words<'_>, came: &mut String) -> Played {
        let mut item = item_of(self.alloc, words)?;
        stamp(&mut item, words.number()?)?;
        tell_item(&item.copy(self.alloc)?, came)
    }
}
