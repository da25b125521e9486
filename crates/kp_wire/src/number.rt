//! Numbers of a fixed width, high byte first: read from the front of bytes, and appended to them.

ghost use Rattle.std.specs.Prelude.{◌≡◌, ◌++◌, length, OnOk, OnErr};
ghost use Rattle.std.specs.Int.{w8, w16, w32, w64};
ghost use Rattle.kp_wire.specs.Reading.{IsRead};
ghost use Rattle.kp_wire.specs.Codec.{number, int};
ghost use Rattle.kp_wire.specs.Fields.{int16, int32, int64};

use crate::codec::ReadField;
use crate::fault::{ReadError, WireFault};
use crate::measured::MeasuredField;
use std::alloc::{AllocError, Global};

/// The int8 at the front.
pub fn read_i8(bytes: &[u8]) -> Result<(i8, &[u8]), WireFault>
    ensures { IsRead (λ x. (x.0, x.1.now)) result ((int w8).read bytes.now) }
{
    if bytes.is_empty() {
        return Err(WireFault::Short);
    }
    let (front, rest) = bytes.split_at(1);
    Ok((i8::from_be_bytes([front[0]]), rest))
}

/// The int16 at the front.
pub fn read_i16(bytes: &[u8]) -> Result<(i16, &[u8]), WireFault>
    ensures { IsRead (λ x. (x.0, x.1.now)) result ((int w16).read bytes.now) }
{
    if bytes.len() < 2 {
        return Err(WireFault::Short);
    }
    let (front, rest) = bytes.split_at(2);
    Ok((i16::from_be_bytes([front[0], front[1]]), rest))
}

/// The int32 at the front.
pub fn read_i32(bytes: &[u8]) -> Result<(i32, &[u8]), WireFault>
    ensures { IsRead (λ x. (x.0, x.1.now)) result ((int w32).read bytes.now) }
{
    if bytes.len() < 4 {
        return Err(WireFault::Short);
    }
    let (front, rest) = bytes.split_at(4);
    let value = i32::from_be_bytes([front[0], front[1], front[2], front[3]]);
    Ok((value, rest))
}

/// The int64 at the front.
pub fn read_i64(bytes: &[u8]) -> Result<(i64, &[u8]), WireFault>
    ensures { IsRead (λ x. (x.0, x.1.now)) result ((int w64).read bytes.now) }
{
    if bytes.len() < 8 {
        return Err(WireFault::Short);
    }
    let (front, rest) = bytes.split_at(8);
    let value = i64::from_be_bytes([
        front[0], front[1], front[2], front[3], front[4], front[5], front[6], front[7],
    ]);
    Ok((value, rest))
}

/// The unsigned number of 32 bits at the front.
pub fn read_u32(bytes: &[u8]) -> Result<(u32, &[u8]), WireFault>
    ensures { IsRead (λ x. (x.0, x.1.now)) result ((number w32).read bytes.now) }
{
    if bytes.len() < 4 {
        return Err(WireFault::Short);
    }
    let (front, rest) = bytes.split_at(4);
    let value = u32::from_be_bytes([front[0], front[1], front[2], front[3]]);
    Ok((value, rest))
}

/// Appends the int8. An `Err` leaves `out` as it was.
pub fn put_i8(out: &mut Vec<u8>, n: i8) -> Result<(), AllocError>
    ensures ok { OnOk result (out.new.items ≡ out.old.items ++ (int w8).spell n) }
    ensures err { OnErr result (out.new.items ≡ out.old.items) }
{
    let int8 = n.to_be_bytes();
    out.extend_from_slice(&int8)
}

/// Appends the int16. An `Err` leaves `out` as it was.
pub fn put_i16(out: &mut Vec<u8>, n: i16) -> Result<(), AllocError>
    ensures ok { OnOk result (out.new.items ≡ out.old.items ++ (int w16).spell n) }
    ensures err { OnErr result (out.new.items ≡ out.old.items) }
{
    let int16 = n.to_be_bytes();
    out.extend_from_slice(&int16)
}

/// Appends the int32. An `Err` leaves `out` as it was.
pub fn put_i32(out: &mut Vec<u8>, n: i32) -> Result<(), AllocError>
    ensures ok { OnOk result (out.new.items ≡ out.old.items ++ (int w32).spell n) }
    ensures err { OnErr result (out.new.items ≡ out.old.items) }
{
    let int32 = n.to_be_bytes();
    out.extend_from_slice(&int32)
}

/// Appends the int64. An `Err` leaves `out` as it was.
pub fn put_i64(out: &mut Vec<u8>, n: i64) -> Result<(), AllocError>
    ensures ok { OnOk result (out.new.items ≡ out.old.items ++ (int w64).spell n) }
    ensures err { OnErr result (out.new.items ≡ out.old.items) }
{
    let int64 = n.to_be_bytes();
    out.extend_from_slice(&int64)
}

/// Appends the unsigned number of 32 bits. An `Err` leaves `out` as it was.
pub fn put_u32(out: &mut Vec<u8>, n: u32) -> Result<(), AllocError>
    ensures ok { OnOk result (out.new.items ≡ out.old.items ++ (number w32).spell n) }
    ensures err { OnErr result (out.new.items ≡ out.old.items) }
{
    let uint32 = n.to_be_bytes();
    out.extend_from_slice(&uint32)
}

/// How many bytes an int16 has.
#[inline]
pub fn size_of_i16(n: i16) -> u64
    ensures fits { int16.Fits n }
    ensures size { result ≡ length (int16.spell n) }
{
    n.to_be_bytes().len() as u64
}

/// How many bytes an int32 has.
#[inline]
pub fn size_of_i32(n: i32) -> u64
    ensures fits { int32.Fits n }
    ensures size { result ≡ length (int32.spell n) }
{
    n.to_be_bytes().len() as u64
}

/// How many bytes an int64 has.
#[inline]
pub fn size_of_i64(n: i64) -> u64
    ensures fits { int64.Fits n }
    ensures size { result ≡ length (int64.spell n) }
{
    n.to_be_bytes().len() as u64
}

impl ReadField for i32 {
    ghost use Rattle.kp_wire.specs.Fields.{int32};

    ghost reads = { λ after. int32.read };

    fn read(_alloc: Global, bytes: &[u8], _after: usize) -> Result<(Self, &[u8]), ReadError> {
        Ok(read_i32(bytes)?)
    }
}

impl MeasuredField for i32 {
    ghost use Rattle.kp_wire.specs.Fields.{int32};

    ghost spells = { int32.spell };

    ghost fits = { int32.Fits };

    fn size(&self) -> Option<u64> {
        Some(size_of_i32(*self))
    }

    fn put(&self, out: &mut Vec<u8>) -> Result<(), AllocError> {
        put_i32(out, *self)
    }
}
