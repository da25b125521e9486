//! Records one after the other, and what is known of them on the way.

ghost use Rattle.std.specs.Prelude.{◌≡◌, length, pos, OnOk};
ghost use Rattle.std.specs.Ordering.{int_eq};
ghost use Rattle.kp_wire.specs.Codec.{read_many};
ghost use Rattle.kp_batch.specs.Record.{relative_record};
ghost use Rattle.kp_batch_reading.specs.Gathering.{timely_moment, Gathers};

use crate::records::read_record;
use kp_batch::{Record, RelativeRecord, Summary, Timestamp};
use kp_wire::{ReadError, Seq};
use std::alloc::{AllocError, Global};

/// The size of a record whose fields are all empty.
const LEAST_RECORD: usize = 7;

/// What is known of the records that were read.
#[derive(Drop)]
pub(crate) struct Gathered {
    /// The records with their own timestamps, as long as these are `timed`.
    pub records: Seq<Record>,
    /// The greatest of these timestamps.
    pub greatest: u64,
    /// Whether each record's offset delta is its place.
    pub in_places: bool,
    /// Whether the first record has the base timestamp, and each has a moment.
    pub timed: bool,
}

#[inline]
fn is_in_place(relative: &RelativeRecord, k: u32) -> bool
    ensures { result ≡ int_eq relative.now.offset_delta (pos k) }
{
    i64::from(relative.offset_delta) == i64::from(k)
}

/// The moment of the record at place `k`: none where its timestamp is none, or where it is the first and not at the
/// batch's base.
#[inline]
fn moment(summary: &Summary, relative: &RelativeRecord, k: u32) -> Option<Timestamp>
    ensures { result ≡ timely_moment summary.now.base_timestamp k relative.now }
{
    if k == 0 && relative.timestamp_delta != 0 {
        return None;
    }
    Timestamp::from_millis(
        summary
            .base_timestamp
            .checked_add(relative.timestamp_delta)?,
    )
}

/// Makes room for so many records in all, once a first one was read: a count with nothing behind it takes no memory.
#[inline]
fn reserve_behind(k: u32, records: &mut Vec<Record>, count: usize) -> Result<(), AllocError>
    ensures { OnOk result (records.new.items ≡ records.old.items) }
{
    if k == 0 {
        records.reserve(count)?;
    }
    Ok(())
}

/// So many records, and the bytes behind them.
pub(crate) fn gather<'a>(
    alloc: Global,
    summary: &Summary,
    count: u32,
    bytes: &'a [u8],
) -> Result<(Gathered, &'a [u8]), ReadError>
    ensures { Gathers summary.now.base_timestamp (λ rest. rest.now) result (read_many relative_record.read count bytes.now) }
{
    let most = bytes.len() / LEAST_RECORD;
    let mut records = Vec::new(alloc);
    let mut greatest = 0u64;
    let mut in_places = true;
    let mut timed = true;
    let mut rest = bytes;
    for k in 0..count {
        let (relative, behind) = read_record(alloc, rest)?;
        reserve_behind(k, &mut records, most.min(count as usize))?;
        rest = behind;
        in_places = in_places && is_in_place(&relative, k);
        match moment(summary, &relative, k) {
            Some(timestamp) if timed => {
                greatest = greatest.max(timestamp.millis() as u64);
                records.push(Record {
                    timestamp,
                    key: relative.key,
                    value: relative.value,
                    headers: relative.headers,
                })?;
            }
            _ => timed = false,
        }
    }
    let gathered = Gathered {
        records: Seq::new(records),
        greatest,
        in_places,
        timed,
    };
    Ok((gathered, rest))
}
