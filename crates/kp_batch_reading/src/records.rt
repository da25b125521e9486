//! A record as it stands in a batch.

ghost use Rattle.std.specs.Prelude.{◌≡◌, ◌-◌, length};
ghost use Rattle.kp_wire.specs.Reading.{Gives};
ghost use Rattle.kp_batch.specs.Record.{fields, read_fields, relative_record};

use crate::fields::{read_attributes, read_headers};
use kp_batch::RelativeRecord;
use kp_batch::fields::{copied, read_bytes_or_null};
use kp_wire::{ReadError, Seq, WireFault, end_before, read_varint, read_varlong};
use std::alloc::Global;

/// What stands behind a record's length, and behind it `after` bytes or more.
#[tactic(auto, unfolding(kp_batch::specs::Record::fields))]
fn read_fields(
    alloc: Global,
    bytes: &[u8],
    after: usize,
) -> Result<(RelativeRecord, &[u8]), ReadError>
    ensures { Gives (λ x. (x.0, x.1.now)) result ((fields after).read bytes.now) }
{
    let rest = read_attributes(bytes, after)?;
    let (timestamp_delta, rest) = end_before(read_varlong(rest)?, after)?;
    let (offset_delta, rest) = end_before(read_varint(rest)?, after)?;
    let (key, rest) = read_bytes_or_null(rest, after)?;
    let (value, rest) = read_bytes_or_null(rest, after)?;
    let mut headers = Vec::new(alloc);
    let rest = read_headers(alloc, &mut headers, rest, after)?;
    let record = RelativeRecord {
        timestamp_delta,
        offset_delta,
        key: copied(alloc, key)?,
        value: copied(alloc, value)?,
        headers: Seq::new(headers),
    };
    Ok((record, rest))
}

/// The record whose length is `len`: its fields end where it ends.
#[tactic(auto, unfolding(kp_batch::specs::Record::read_fields))]
fn read_sized(alloc: Global, bytes: &[u8], len: usize) -> Result<(RelativeRecord, &[u8]), ReadError>
    ensures { Gives (λ x. (x.0, x.1.now)) result (read_fields len bytes.now) }
{
    let after = bytes.len().saturating_sub(len);
    let (record, rest) = read_fields(alloc, bytes, after)?;
    if len > bytes.len() {
        return Err(ReadError::Fault(WireFault::BadLength));
    }
    if rest.len() != after {
        return Err(ReadError::Fault(WireFault::BadLength));
    }
    Ok((record, rest))
}

/// The record at the front, and the bytes behind it.
#[tactic(auto, unfolding(kp_wire::specs::Codec::by_length, kp_batch::specs::Record::relative_record))]
pub(crate) fn read_record(alloc: Global, bytes: &[u8]) -> Result<(RelativeRecord, &[u8]), ReadError>
    ensures { Gives (λ x. (x.0, x.1.now)) result (relative_record.read bytes.now) }
{
    let (len, rest) = read_varint(bytes)?;
    if len < 0 {
        return Err(ReadError::Fault(WireFault::BadLength));
    }
    read_sized(alloc, rest, len as usize)
}
