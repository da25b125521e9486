//! Numbers, bytes, texts and lists.

use crate::fault::{Fault, Left};
use crate::told::{Told, put_hex};
use kp_cases::StepFault;
use kp_wire::{
    Blob, Seq, Text, end_before, put_array, put_bool, put_i8, put_i16, put_i32, put_i64,
    put_nullable, put_nullable_array, put_nullable_text, put_records, put_string, put_text,
    put_u32, put_varint, put_varlong, read_array, read_bool, read_bytes, read_i8, read_i16,
    read_i32, read_i64, read_many, read_nullable, read_nullable_array, read_nullable_text,
    read_records, read_string, read_text, read_u32, read_utf8, read_varint, read_varlong,
    size_of_array, size_of_bool, size_of_i16, size_of_i32, size_of_i64, size_of_nullable_array,
    size_of_nullable_text, size_of_records, size_of_text, take_nullable, take_string, take_varint,
    take_varlong, varint_len, varlong_len,
};

/// The most bytes that a text has.
const TEXT_LIMIT: usize = 32767;

/// An INT8, an INT16, an INT32, an INT64 and a UINT32.
fn numbers<'a>(bytes: &'a [u8], told: &mut Told) -> Left<'a> {
    let (a, rest) = read_i8(bytes)?;
    let (b, rest) = read_i16(rest)?;
    let (c, rest) = read_i32(rest)?;
    let (d, rest) = read_i64(rest)?;
    let (e, rest) = read_u32(rest)?;
    let sizes = [size_of_i16(b), size_of_i32(c), size_of_i64(d)];
    write!(told.text, "{a} {b} {c} {d} {e}, sizes {sizes:?}")?;
    put_i8(&mut told.written, a)?;
    put_i16(&mut told.written, b)?;
    put_i32(&mut told.written, c)?;
    put_i64(&mut told.written, d)?;
    put_u32(&mut told.written, e)?;
    Ok(rest)
}

fn boolean<'a>(bytes: &'a [u8], told: &mut Told) -> Left<'a> {
    let (value, rest) = read_bool(bytes)?;
    told.show(&value)?;
    told.size = Some(size_of_bool(value));
    put_bool(&mut told.written, value)?;
    Ok(rest)
}

/// A VARINT, which is taken first and then read. The last `after` bytes belong to what stands behind it.
fn varint<'a>(after: usize, bytes: &'a [u8], told: &mut Told) -> Left<'a> {
    let (taken, len) = take_varint(bytes)?;
    let (n, rest) = end_before(read_varint(bytes)?, after)?;
    told.show(&n)?;
    told.is_taken = taken == n && bytes.get(len..) == Some(rest);
    told.size = Some(varint_len(n));
    put_varint(&mut told.written, n)?;
    Ok(rest)
}

/// A VARLONG, likewise.
fn varlong<'a>(after: usize, bytes: &'a [u8], told: &mut Told) -> Left<'a> {
    let (taken, len) = take_varlong(bytes)?;
    let (n, rest) = end_before(read_varlong(bytes)?, after)?;
    told.show(&n)?;
    told.is_taken = taken == n && bytes.get(len..) == Some(rest);
    told.size = Some(varlong_len(n));
    put_varlong(&mut told.written, n)?;
    Ok(rest)
}

/// So many bytes, which are made a blob, a list and a blob again.
fn bytes_of<'a>(len: usize, bytes: &'a [u8], told: &mut Told) -> Left<'a> {
    let (front, rest) = read_bytes(bytes, len)?;
    let blob = Blob::from_slice(told.alloc, front)?;
    told.size = Some(blob.len() as u64);
    put_hex(&mut told.text, blob.as_slice())?;
    let list = Seq::new(blob.into_vec());
    write!(told.text, ", a list of {}: ", list.len())?;
    put_hex(&mut told.text, list.as_slice())?;
    let blob = Blob::new(list.into_vec());
    told.written.extend_from_slice(blob.as_slice())?;
    Ok(rest)
}

/// So many bytes of UTF-8, which are made a text, a string and a text again.
fn utf8<'a>(len: usize, bytes: &'a [u8], told: &mut Told) -> Left<'a> {
    let (front, rest) = read_utf8(bytes, len)?;
    let text = Text::from_str(told.alloc, front)?;
    told.size = Some(text.len() as u64);
    let text = Text::new(text.into_string());
    told.show(&text.as_str())?;
    told.written.extend_from_slice(text.as_str().as_bytes())?;
    Ok(rest)
}

/// A STRING, which is taken first and then read.
fn string<'a>(bytes: &'a [u8], told: &mut Told) -> Left<'a> {
    let (taken, len) = take_string(bytes)?;
    let (text, rest) = read_string(bytes)?;
    told.show(&text)?;
    told.is_taken = taken == text && bytes.get(len..) == Some(rest);
    if text.len() <= TEXT_LIMIT {
        put_string(&mut told.written, text)?;
    }
    Ok(rest)
}

/// A NULLABLE_STRING, likewise.
fn nullable_string<'a>(bytes: &'a [u8], told: &mut Told) -> Left<'a> {
    let (taken, len) = take_nullable(bytes)?;
    let (text, rest) = read_nullable(bytes)?;
    told.show(&text)?;
    told.is_taken = taken == text && bytes.get(len..) == Some(rest);
    match text {
        Some(text) if text.len() > TEXT_LIMIT => {}
        text => put_nullable(&mut told.written, text)?,
    }
    Ok(rest)
}

/// A STRING of its own memory.
fn text<'a>(bytes: &'a [u8], told: &mut Told) -> Left<'a> {
    let (text, rest) = read_text(told.alloc, bytes)?;
    told.show(&text.as_str())?;
    told.size = size_of_text(&text);
    if told.size.is_some() {
        put_text(&mut told.written, &text)?;
    }
    Ok(rest)
}

/// A NULLABLE_STRING of its own memory.
fn nullable_text<'a>(bytes: &'a [u8], told: &mut Told) -> Left<'a> {
    let (text, rest) = read_nullable_text(told.alloc, bytes)?;
    told.show(&text.as_ref().map(|text| text.as_str()))?;
    told.size = size_of_nullable_text(&text);
    if told.size.is_some() {
        put_nullable_text(&mut told.written, &text)?;
    }
    Ok(rest)
}

/// An ARRAY of INT32.
fn array<'a>(bytes: &'a [u8], told: &mut Told) -> Left<'a> {
    let (numbers, rest) = read_array::<i32>(told.alloc, bytes)?;
    told.show(&numbers.as_slice())?;
    told.size = size_of_array(&numbers);
    if told.size.is_some() {
        put_array(&mut told.written, &numbers)?;
    }
    Ok(rest)
}

/// An ARRAY of INT32 that may be null.
fn nullable_array<'a>(bytes: &'a [u8], told: &mut Told) -> Left<'a> {
    let (numbers, rest) = read_nullable_array::<i32>(told.alloc, bytes)?;
    told.show(&numbers.as_ref().map(|n| n.as_slice()))?;
    told.size = size_of_nullable_array(&numbers);
    if told.size.is_some() {
        put_nullable_array(&mut told.written, &numbers)?;
    }
    Ok(rest)
}

/// RECORDS.
fn records<'a>(bytes: &'a [u8], told: &mut Told) -> Left<'a> {
    let (records, rest) = read_records(told.alloc, bytes)?;
    put_hex(&mut told.text, records.as_slice())?;
    told.size = size_of_records(&records);
    if told.size.is_some() {
        put_records(&mut told.written, &records)?;
    }
    Ok(rest)
}

/// So many INT32.
fn many<'a>(count: usize, bytes: &'a [u8], told: &mut Told) -> Left<'a> {
    let count = u32::try_from(count).map_err(|_| StepFault::NotUnderstood)?;
    let (numbers, rest) = read_many::<i32>(told.alloc, count, bytes, 0)?;
    told.show(&numbers.as_slice())?;
    for n in numbers.as_slice() {
        put_i32(&mut told.written, *n)?;
    }
    Ok(rest)
}

/// Reads a field of so many bytes or numbers, or a number before so many bytes that belong to what stands behind it.
fn read_counted<'a>(kind: &str, bytes: &'a [u8], told: &mut Told) -> Left<'a> {
    let (kind, count) = kind.split_once(':').unwrap_or((kind, "0"));
    let count = count.parse().map_err(|_| StepFault::NotUnderstood)?;
    match kind {
        "varint" => varint(count, bytes, told),
        "varlong" => varlong(count, bytes, told),
        "bytes" => bytes_of(count, bytes, told),
        "utf8" => utf8(count, bytes, told),
        "many" => many(count, bytes, told),
        _ => Err(Fault::Step(StepFault::NotUnderstood)),
    }
}

/// Reads a field by the word for it.
pub(crate) fn read_field<'a>(kind: &str, bytes: &'a [u8], told: &mut Told) -> Left<'a> {
    match kind {
        "numbers" => numbers(bytes, told),
        "boolean" => boolean(bytes, told),
        "string" => string(bytes, told),
        "nullable_string" => nullable_string(bytes, told),
        "text" => text(bytes, told),
        "nullable_text" => nullable_text(bytes, told),
        "array" => array(bytes, told),
        "nullable_array" => nullable_array(bytes, told),
        "records" => records(bytes, told),
        _ => read_counted(kind, bytes, told),
    }
}
