//! A batch into bytes.

ghost use Rattle.std.specs.Prelude.{◌≡◌, ℕ, ◌+◌, ◌<◌, ◌≤◌, ◌++◌, ◌^◌, ◌-◌, List, pos, length, map, take, drop, max, IfOk, OnOk};
ghost use Rattle.std.specs.Int.{w32, to_be_bytes};
ghost use Rattle.std.specs.List.{flat_map, AllByRecursion};
ghost use Rattle.kp_wire.specs.Checksum.{crc};
ghost use Rattle.kp_wire.specs.Codec.{int};
ghost use Rattle.kp_wire.specs.Varint.{varint};
ghost use Rattle.kp_batch.specs.declared.summary.Front.{Front};
ghost use Rattle.kp_batch.specs.Record.{bytes_or_null, headers, fields, relative_record};
ghost use Rattle.kp_batch.specs.Spelling.{front, head, summary, relative_by, relatives_from, max_timestamp, size_of_batch, covered, HasFields, Puts, written, Spells};

use crate::as_record::AsRecord;
use crate::batch::BatchHead;
use crate::layout::{CHECKSUM_AT, COVERED_AT, LENGTH_AT, LENGTH_END};
use crate::record::{Header, Record, Timestamp};
use crate::size::{SIZE_LIMIT, header_size, record_fields_size, room_for};
use crate::summary::Summary;
use kp_wire::{
    Blob, MeasuredField, crc32c, put_each, put_i8, put_i16, put_i32, put_i64, put_varint,
    put_varlong,
};
use std::alloc::{AllocError, Global};

/// What stands before the fields that the checksum covers, in a batch that a producer writes: base offset 0, no length yet, leader
/// epoch -1, the magic byte, no checksum yet.
const FRONT: [u8; COVERED_AT] = [
    0, 0, 0, 0, 0, 0, 0, 0, 0, 0, 0, 0, 255, 255, 255, 255, 2, 0, 0, 0, 0,
];

/// Appends the bytes behind their length. An `Err` may leave a part.
#[inline(always)]
fn put_sized(out: &mut Vec<u8>, bytes: &[u8]) -> Result<(), AllocError>
    requires { length bytes.now ≤ SIZE_LIMIT }
    ensures { OnOk result (out.new.items ≡ out.old.items ++ (varint.spell (pos (length bytes.now)) ++ bytes.now)) }
{
    put_varint(out, bytes.len() as i32)?;
    out.extend_from_slice(bytes)?;
    Ok(())
}

/// Appends the bytes behind their length, or the length -1 where there are none. An `Err` may leave a part.
#[inline(always)]
#[tactic(auto, unfolding(crate::specs::Record::bytes_or_null, crate::specs::Record::length_field))]
fn put_nullable(out: &mut Vec<u8>, bytes: &Option<Blob>) -> Result<(), AllocError>
    requires { (bytes_or_null 0).Fits bytes.now }
    ensures { OnOk result (out.new.items ≡ out.old.items ++ (bytes_or_null 0).spell bytes.now) }
{
    match bytes {
        None => put_varint(out, -1)?,
        Some(bytes) => put_sized(out, bytes.as_slice())?,
    }
    Ok(())
}

impl MeasuredField for Header {
    ghost use Rattle.kp_batch.specs.Record.{header};

    ghost spells = { (header 0).spell };

    ghost fits = { (header 0).Fits };

    fn size(&self) -> Option<u64> {
        header_size(self)
    }

    #[tactic(auto, unfolding(crate::specs::Record::header, crate::specs::Record::text, crate::specs::Record::length_field))]
    fn put(&self, out: &mut Vec<u8>) -> Result<(), AllocError> {
        put_sized(out, self.key.as_str().as_bytes())?;
        put_nullable(out, &self.value)?;
        Ok(())
    }
}

/// Appends the headers behind their count. An `Err` may leave a part.
#[inline(never)]
#[tactic(auto, unfolding(crate::specs::Record::headers, crate::specs::Record::length_field))]
fn put_some_headers(out: &mut Vec<u8>, hs: &[Header]) -> Result<(), AllocError>
    requires { (headers 0).Fits hs.now }
    ensures { OnOk result (out.new.items ≡ out.old.items ++ (headers 0).spell hs.now) }
{
    put_varint(out, hs.len() as i32)?;
    put_each(out, hs)?;
    Ok(())
}

/// As `put_some_headers`, at once where there is no header, as in most records.
#[inline]
fn put_headers(out: &mut Vec<u8>, hs: &[Header]) -> Result<(), AllocError>
    requires { (headers 0).Fits hs.now }
    ensures { OnOk result (out.new.items ≡ out.old.items ++ (headers 0).spell hs.now) }
{
    if !hs.is_empty() {
        return put_some_headers(out, hs);
    }
    put_varint(out, 0)?;
    Ok(())
}

/// Appends what stands behind a record's length. An `Err` may leave a part.
#[inline]
#[tactic(auto, unfolding(crate::specs::Record::fields, crate::specs::Record::attributes))]
fn put_fields(
    out: &mut Vec<u8>,
    body: &Record,
    timestamp_delta: i64,
    offset_delta: i32,
) -> Result<(), AllocError>
    requires { (fields 0).Fits (relative_by timestamp_delta offset_delta body.now) }
    ensures { OnOk result (out.new.items ≡ out.old.items ++ (fields 0).spell (relative_by timestamp_delta offset_delta body.now)) }
{
    out.push(0)?;
    put_varlong(out, timestamp_delta)?;
    put_varint(out, offset_delta)?;
    put_nullable(out, &body.key)?;
    put_nullable(out, &body.value)?;
    put_headers(out, body.headers.as_slice())?;
    Ok(())
}

/// Appends a record, whose size is at most `SIZE_LIMIT`. An `Err` may leave a part.
#[inline]
fn put_record(
    out: &mut Vec<u8>,
    body: &Record,
    timestamp_delta: i64,
    offset_delta: i32,
) -> Result<(), AllocError>
    requires { length (relative_record.spell (relative_by timestamp_delta offset_delta body.now)) ≤ SIZE_LIMIT }
    ensures { let r = relative_by timestamp_delta offset_delta body.now in
        OnOk result (Puts (relative_record.Fits r) (relative_record.spell r) out.old.items out.new.items) }
{
    let size = record_fields_size(body, timestamp_delta, offset_delta);
    put_varint(out, size as i32)?;
    put_fields(out, body, timestamp_delta, offset_delta)?;
    Ok(())
}

/// Appends the records of a batch with this base timestamp, whose sizes are `SIZE_LIMIT` at most together. An `Err`
/// may leave a part.
fn put_records<T: AsRecord>(
    out: &mut Vec<u8>,
    base: Timestamp,
    records: &[T],
) -> Result<(), AllocError>
    requires { length (flat_map relative_record.spell (relatives_from base 0 (map T.body records.now))) ≤ SIZE_LIMIT }
    ensures { let rs = relatives_from base 0 (map T.body records.now) in
        OnOk result (Puts (AllByRecursion relative_record.Fits rs) (flat_map relative_record.spell rs) out.old.items out.new.items) }
{
    for (k, item) in records.iter().enumerate() {
        let body = item.as_record();
        let timestamp_delta = body.timestamp.millis() - base.millis();
        put_record(out, body, timestamp_delta, k as i32)?;
    }
    Ok(())
}

/// The latest of this moment and those of the records.
fn latest_of<T: AsRecord>(first: Timestamp, records: &[T]) -> Timestamp
    ensures { result ≡ max first (max_timestamp (map T.body records.now)) }
{
    let mut latest = first;
    for item in records {
        let body = item.as_record();
        if latest.millis() < body.timestamp.millis() {
            latest = body.timestamp;
        }
    }
    latest
}

fn put_head(out: &mut Vec<u8>, h: &BatchHead) -> Result<(), AllocError>
    ensures { OnOk result (out.new.items ≡ out.old.items ++ head.spell h.now) }
{
    put_i64(out, h.producer_id)?;
    put_i16(out, h.epoch)?;
    put_i32(out, h.base_sequence)?;
    Ok(())
}

fn put_summary(out: &mut Vec<u8>, s: &Summary) -> Result<(), AllocError>
    ensures { OnOk result (out.new.items ≡ out.old.items ++ summary.spell s.now) }
{
    put_i16(out, s.attributes)?;
    put_i32(out, s.last_offset_delta)?;
    put_i64(out, s.base_timestamp)?;
    put_i64(out, s.max_timestamp)?;
    put_head(out, &s.head)?;
    put_i32(out, s.count)?;
    Ok(())
}

/// Puts the length into its place.
fn put_length(bytes: &mut [u8])
    requires long { 21 ≤ length bytes.old }
    requires fits { length bytes.old ≤ SIZE_LIMIT }
    ensures { bytes.new ≡ take 8 bytes.old ++ (int w32).spell (pos (length bytes.old - 12)) ++ drop 12 bytes.old }
{
    let length = (bytes.len() - LENGTH_END) as i32;
    bytes[LENGTH_AT..LENGTH_END].copy_from_slice(&length.to_be_bytes());
}

/// Puts the checksum of what it covers into its place.
fn put_checksum(bytes: &mut [u8])
    requires { 21 ≤ length bytes.old }
    ensures put { bytes.new ≡ take 17 bytes.old ++ to_be_bytes w32 (crc (drop 21 bytes.old)) ++ drop 21 bytes.old }
    ensures fits { crc (drop 21 bytes.old) < 2 ^ 32 }
{
    let checksum = crc32c(&bytes[COVERED_AT..]);
    bytes[CHECKSUM_AT..COVERED_AT].copy_from_slice(&checksum.to_be_bytes());
}

/// Puts the length and the checksum of a whole batch into their places.
fn seal(bytes: &mut [u8])
    requires long { 21 ≤ length bytes.old }
    requires fits { length bytes.old ≤ SIZE_LIMIT }
    ensures sealed { (f : Front) (rest : List ℕ) → bytes.old ≡ front.spell f ++ rest
        → bytes.new ≡ front.spell (record f { batch_length = pos (9 + length rest); checksum = crc rest }) ++ rest }
    ensures fits { (f : Front) (rest : List ℕ) → bytes.old ≡ front.spell f ++ rest → crc rest < 2 ^ 32 }
{
    put_length(bytes);
    put_checksum(bytes);
}

/// Appends what the checksum covers: the fields behind it, and the records. An `Err` may leave a part.
#[tactic(auto, using(crate::proofs::SizeLemmas::many_items))]
fn put_covered<T: AsRecord>(
    out: &mut Vec<u8>,
    h: BatchHead,
    records: &[T],
) -> Result<(), AllocError>
    requires some { 0 < length records.now }
    requires fits { size_of_batch (map T.body records.now) ≤ SIZE_LIMIT }
    ensures { let rs = map T.body records.now in
        OnOk result (Puts (HasFields h rs) (covered h rs) out.old.items out.new.items) }
{
    let base = records[0].as_record().timestamp;
    let count = records.len() as i32;
    let s = Summary {
        attributes: 0,
        last_offset_delta: count - 1,
        base_timestamp: base.millis(),
        max_timestamp: latest_of(base, records).millis(),
        head: h,
        count,
    };
    put_summary(out, &s)?;
    put_records(out, base, records)?;
    Ok(())
}

/// The batch of these records, as a producer writes it: base offset 0, leader epoch -1. It has a record, and
/// its size, which `batch_size` tells, is at most `SIZE_LIMIT`.
pub fn write_batch<T: AsRecord>(
    alloc: Global,
    h: BatchHead,
    records: &[T],
) -> Result<Vec<u8>, AllocError>
    requires some { 0 < length records.now }
    requires fits { size_of_batch (map T.body records.now) ≤ SIZE_LIMIT }
    ensures { IfOk result (λ bytes. Spells bytes.items (written h (map T.body records.now))) }
{
    let mut out = Vec::with_capacity(alloc, room_for(records))?;
    out.extend_from_slice(&FRONT)?;
    put_covered(&mut out, h, records)?;
    seal(&mut out);
    Ok(out)
}
