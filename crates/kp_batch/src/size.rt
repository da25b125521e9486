//! The sizes of records and of batches, in bytes.

ghost use Rattle.std.specs.Prelude.{◌≡◌, ℕ, ◌+◌, ◌<◌, ◌≤◌, List, [], ◌∷◌, ◌++◌, length, map, pos, ℤ, IsSome, IsNone, IfSome};
ghost use Rattle.std.specs.List.{flat_map};
ghost use Rattle.kp_wire.specs.Sizes.{IsSize};
ghost use Rattle.kp_wire.specs.Varint.{varint};
ghost use Rattle.kp_batch.specs.Record.{bytes_or_null, header, headers, fields, fields_size, relative_record};
ghost use Rattle.kp_batch.specs.Spelling.{relative_by, base_timestamp, measured, up_to_limit, size_of_batch};

use crate::as_record::AsRecord;
use crate::layout::RECORDS_AT;
use crate::record::{Header, Record, Timestamp};
use kp_wire::{Blob, varint_len, varlong_len};

/// The greatest size of a batch, and so of a record: the greatest int32.
pub const SIZE_LIMIT: u64 = 2147483647;

/// The least size above the limit.
const TOO_LARGE: u64 = SIZE_LIMIT + 1;

/// The size of what stands before a batch's records.
const HEAD_SIZE: u64 = RECORDS_AT as u64;

/// The most bytes that a VARINT takes.
const VARINT_ROOM: usize = 5;

/// The most bytes that a VARLONG takes.
const VARLONG_ROOM: usize = 10;

/// The most that a header takes beside its key and its value: the lengths of both.
const HEADER_ROOM: usize = 2 * VARINT_ROOM;

/// The most that a record takes beside its key, its value and its headers: its attributes, the timestamp, and five
/// VARINTs, which are its length, the offset, the lengths of the key and the value, and the count of headers.
const RECORD_ROOM: usize = 1 + VARLONG_ROOM + 5 * VARINT_ROOM;

/// The sum of two sizes, each as it is or, once it is above the limit, the greatest number.
#[tactic(auto, unfolding(crate::specs::Spelling::measured))]
pub(crate) fn add_sizes(a: u64, b: u64) -> u64
    ensures { (m n : ℕ) → a ≡ measured m → b ≡ measured n → result ≡ measured (m + n) }
{
    let sum = a.saturating_add(b);
    if sum > SIZE_LIMIT { u64::MAX } else { sum }
}

/// The size of so many bytes with their length before them, or a size above the limit where it is above.
#[inline]
fn sized_len(len: usize) -> u64
    ensures told { up_to_limit result ≡ up_to_limit (length (varint.spell (pos len)) + len) }
    ensures value { len ≤ SIZE_LIMIT → result ≡ length (varint.spell (pos len)) + len }
    ensures few { result ≤ SIZE_LIMIT + 5 }
{
    if len as u64 > SIZE_LIMIT {
        return TOO_LARGE;
    }
    varint_len(len as i32) + len as u64
}

/// The same; None where the bytes are more than a length can say.
#[inline]
fn size_of_sized(len: usize) -> Option<u64>
    ensures short { IsSome result → len ≤ SIZE_LIMIT }
    ensures long { IsNone result → SIZE_LIMIT < len }
    ensures value { IfSome result (λ size. size ≡ length (varint.spell (pos len)) + len) }
    ensures few { IfSome result (λ size. size ≤ SIZE_LIMIT + 5) }
{
    if len as u64 > SIZE_LIMIT {
        return None;
    }
    Some(sized_len(len))
}

#[inline]
#[tactic(auto, unfolding(crate::specs::Record::bytes_or_null, crate::specs::Record::length_field))]
fn size_of_nullable(bytes: &Option<Blob>) -> Option<u64>
    ensures size { IsSize ((bytes_or_null 0).Fits bytes.now) ((bytes_or_null 0).spell bytes.now) result }
    ensures few { IfSome result (λ size. size ≤ SIZE_LIMIT + 5) }
    ensures long { IsNone result → SIZE_LIMIT < length ((bytes_or_null 0).spell bytes.now) }
{
    match bytes {
        None => Some(varint_len(-1)),
        Some(bytes) => size_of_sized(bytes.len()),
    }
}

/// The size of the bytes with their length before them, or of the length of null; a size above the limit where it is
/// above. Each record is measured by it, so it takes no detour by `Option`.
#[inline]
#[tactic(auto, unfolding(crate::specs::Record::bytes_or_null, crate::specs::Record::length_field))]
fn nullable_size(bytes: &Option<Blob>) -> u64
    ensures told { up_to_limit result ≡ up_to_limit (length ((bytes_or_null 0).spell bytes.now)) }
    ensures few { result ≤ SIZE_LIMIT + 5 }
{
    match bytes {
        None => varint_len(-1),
        Some(bytes) => sized_len(bytes.len()),
    }
}

/// The size of the header. None where its key or its value is more than its length can say.
pub(crate) fn header_size(h: &Header) -> Option<u64>
    ensures size { IsSize ((header 0).Fits h.now) ((header 0).spell h.now) result }
    ensures long { IsNone result → SIZE_LIMIT < length ((header 0).spell h.now) }
{
    let key = size_of_sized(h.key.as_str().len())?;
    let value = size_of_nullable(&h.value)?;
    Some(key + value)
}

/// The size of the headers with their count before them, or the least size above the limit where it is above.
#[inline(never)]
fn some_headers_size(hs: &[Header]) -> u64
    ensures told { result ≡ up_to_limit (length ((headers 0).spell hs.now)) }
    ensures fits { result ≤ SIZE_LIMIT → (headers 0).Fits hs.now }
{
    if hs.len() as u64 > SIZE_LIMIT {
        return TOO_LARGE;
    }
    let mut size = varint_len(hs.len() as i32);
    for h in hs {
        match header_size(h) {
            None => return TOO_LARGE,
            Some(more) => size = size.saturating_add(more).min(TOO_LARGE),
        }
    }
    size
}

/// As `some_headers_size`, at once where there is no header, as in most records.
#[inline]
fn headers_size(hs: &[Header]) -> u64
    ensures told { up_to_limit result ≡ up_to_limit (length ((headers 0).spell hs.now)) }
    ensures few { result ≤ SIZE_LIMIT + 5 }
    ensures fits { result ≤ SIZE_LIMIT → (headers 0).Fits hs.now }
{
    if hs.is_empty() {
        varint_len(0)
    } else {
        some_headers_size(hs)
    }
}

/// The size of what stands behind a record's length, or a size above the limit where it is above.
#[inline(always)]
pub(crate) fn record_fields_size(body: &Record, timestamp_delta: i64, offset_delta: i32) -> u64
    ensures fits { result ≤ SIZE_LIMIT → (fields 0).Fits (relative_by timestamp_delta offset_delta body.now) }
    ensures told { up_to_limit result ≡ up_to_limit (fields_size (relative_by timestamp_delta offset_delta body.now)) }
{
    1 + varlong_len(timestamp_delta)
        + varint_len(offset_delta)
        + nullable_size(&body.key)
        + nullable_size(&body.value)
        + headers_size(body.headers.as_slice())
}

/// The size of a record in a batch, where its timestamp and its offset are so much above those of the batch;
/// u64::MAX where it is above the limit of a batch.
#[inline(always)]
pub fn record_size(body: &Record, timestamp_delta: i64, offset_delta: i32) -> u64
    ensures { result ≡ measured (length (relative_record.spell (relative_by timestamp_delta offset_delta body.now))) }
{
    let fields = record_fields_size(body, timestamp_delta, offset_delta);
    if fields > SIZE_LIMIT {
        return u64::MAX;
    }
    add_sizes(varint_len(fields as i32), fields)
}

/// The size of the batch that holds the record alone; u64::MAX where it is above the limit.
#[inline]
pub fn charge(body: &Record) -> u64
    ensures { result ≡ measured (size_of_batch (body.now ∷ [])) }
{
    add_sizes(HEAD_SIZE, record_size(body, 0, 0))
}

fn measure<T: AsRecord>(records: &[T]) -> u64
    ensures { result ≡ measured (size_of_batch (map T.body records.now)) }
{
    let base = match records {
        [] => return HEAD_SIZE,
        [first, ..] => first.as_record().timestamp.millis(),
    };
    let mut size = HEAD_SIZE;
    for (k, item) in records.iter().enumerate() {
        if size > SIZE_LIMIT {
            return u64::MAX;
        }
        let body = item.as_record();
        let timestamp_delta = body.timestamp.millis() - base;
        size = add_sizes(size, record_size(body, timestamp_delta, k as i32));
    }
    size
}

/// The size of the batch of these records; u64::MAX where it is above the limit.
pub fn batch_size<T: AsRecord>(records: &[T]) -> u64
    ensures value { result ≡ measured (size_of_batch (map T.body records.now)) }
    ensures fits { result ≤ SIZE_LIMIT → size_of_batch (map T.body records.now) ≤ SIZE_LIMIT }
{
    measure(records)
}

/// The size of the batch of these records and one more, where theirs is `size`; u64::MAX where it is above the limit.
#[inline]
pub fn size_with<T: AsRecord>(size: u64, records: &[T], body: &Record) -> u64
    requires is_theirs { size ≡ size_of_batch (map T.body records.now) }
    requires fits { size ≤ SIZE_LIMIT }
    ensures { result ≡ measured (size_of_batch (map T.body records.now ++ body.now ∷ [])) }
{
    let timestamp_delta = body.timestamp.millis() - base_with(records, body).millis();
    let offset_delta = records.len() as i32;
    add_sizes(size, record_size(body, timestamp_delta, offset_delta))
}

/// The base timestamp of the batch of these records and one more.
#[inline]
fn base_with<T: AsRecord>(records: &[T], body: &Record) -> Timestamp
    ensures { result ≡ base_timestamp (map T.body records.now ++ body.now ∷ []) }
{
    match records {
        [] => body.timestamp,
        [first, ..] => first.as_record().timestamp,
    }
}

/// The length of the bytes, 0 where there are none.
#[tactic(auto, using(crate::proofs::SizeLemmas::room_laws), unfolding(crate::specs::Record::bytes_or_null, crate::specs::Record::length_field))]
fn len_of(bytes: &Option<Blob>) -> usize
    ensures { length ((bytes_or_null 0).spell bytes.now) ≤ VARINT_ROOM + result }
{
    match bytes {
        None => 0,
        Some(bytes) => bytes.len(),
    }
}

fn header_room(h: &Header) -> usize
    ensures { up_to_limit (length ((header 0).spell h.now)) ≤ result }
{
    HEADER_ROOM
        .saturating_add(h.key.len())
        .saturating_add(len_of(&h.value))
}

#[inline]
fn headers_room(hs: &[Header]) -> usize
    ensures { up_to_limit (length ((headers 0).spell hs.now)) ≤ VARINT_ROOM + result }
{
    let mut room = 0usize;
    for h in hs {
        room = room.saturating_add(header_room(h));
    }
    room
}

/// Room for the record, whatever its timestamp and its offset in the batch.
#[inline]
fn record_room(body: &Record) -> usize
    ensures { (timestamp_delta offset_delta : ℤ)
        → up_to_limit (length (relative_record.spell (relative_by timestamp_delta offset_delta body.now))) ≤ result }
{
    RECORD_ROOM
        .saturating_add(len_of(&body.key))
        .saturating_add(len_of(&body.value))
        .saturating_add(headers_room(body.headers.as_slice()))
}

/// Room enough for the batch of these records, and mostly more: each number is counted at its longest.
pub(crate) fn room_for<T: AsRecord>(records: &[T]) -> usize
    ensures { up_to_limit (size_of_batch (map T.body records.now)) ≤ result }
{
    let mut room = RECORDS_AT;
    for item in records {
        room = room.saturating_add(record_room(item.as_record()));
    }
    room
}
