//! ARRAY, values behind their count, or the count -1 for null (protocol guide, "Protocol Primitive Types").

ghost use Rattle.std.specs.Prelude.{◌≡◌, ◌++◌, OnOk};
ghost use Rattle.kp_wire.specs.Reading.{Gives};
ghost use Rattle.kp_wire.specs.Codec.{read_many, by_length, by_nullable_length};
ghost use Rattle.kp_wire.specs.Sizes.{IsSize};
ghost use Rattle.kp_wire.specs.Fields.{read_array, read_nullable_array, spell_array, spell_nullable_array, FitsArray, FitsNullableArray};

use crate::codec::{ReadField, read_many};
use crate::fault::{ReadError, WireFault};
use crate::measured::{MeasuredField, add_sizes, put_each, sizes_of};
use crate::number::{put_i32, read_i32};
use crate::seq::Seq;
use std::alloc::{AllocError, Global};

/// The most values that an array has.
const COUNT_LIMIT: usize = 2_147_483_647;

/// How many bytes a count takes.
const COUNT_SIZE: u64 = 4;

/// The count of null.
const NULL: i32 = -1;

#[tactic(auto, unfolding(crate::specs::Codec::by_length))]
fn read_counted<T: ReadField>(
    alloc: Global,
    bytes: &[u8],
    count: i32,
) -> Result<(Seq<T>, &[u8]), ReadError>
    ensures { Gives (λ x. (x.0, x.1.now)) result (by_length (read_many (T.reads 0)) count bytes.now) }
{
    if count < 0 {
        return Err(ReadError::Fault(WireFault::BadLength));
    }
    read_many::<T>(alloc, count as u32, bytes, 0)
}

#[tactic(auto, unfolding(crate::specs::Codec::by_nullable_length))]
fn read_counted_or_null<T: ReadField>(
    alloc: Global,
    bytes: &[u8],
    count: i32,
) -> Result<(Option<Seq<T>>, &[u8]), ReadError>
    ensures { Gives (λ x. (x.0, x.1.now)) result (by_nullable_length (read_many (T.reads 0)) count bytes.now) }
{
    if count < NULL {
        return Err(ReadError::Fault(WireFault::BadLength));
    }
    if count == NULL {
        return Ok((None, bytes));
    }
    let (items, rest) = read_many::<T>(alloc, count as u32, bytes, 0)?;
    Ok((Some(items), rest))
}

/// The ARRAY at the front, and the bytes behind it.
#[tactic(auto, unfolding(crate::specs::Fields::read_array))]
pub fn read_array<T: ReadField>(alloc: Global, bytes: &[u8]) -> Result<(Seq<T>, &[u8]), ReadError>
    ensures { Gives (λ x. (x.0, x.1.now)) result (read_array (T.reads 0) bytes.now) }
{
    let (count, rest) = read_i32(bytes)?;
    read_counted(alloc, rest, count)
}

/// The nullable ARRAY at the front, None where it is null, and the bytes behind it.
#[tactic(auto, unfolding(crate::specs::Fields::read_nullable_array))]
pub fn read_nullable_array<T: ReadField>(
    alloc: Global,
    bytes: &[u8],
) -> Result<(Option<Seq<T>>, &[u8]), ReadError>
    ensures { Gives (λ x. (x.0, x.1.now)) result (read_nullable_array (T.reads 0) bytes.now) }
{
    let (count, rest) = read_i32(bytes)?;
    read_counted_or_null(alloc, rest, count)
}

/// How many bytes the ARRAY has, or u64::MAX where they are more. None where it has more values than a count can
/// say, or one of them doesn't fit.
#[tactic(auto, unfolding(crate::specs::Fields::spell_array, crate::specs::Fields::FitsArray))]
pub fn size_of_array<T: MeasuredField>(items: &Seq<T>) -> Option<u64>
    ensures { IsSize (FitsArray T.fits items.now) (spell_array T.spells items.now) result }
{
    if items.len() > COUNT_LIMIT {
        return None;
    }
    Some(add_sizes(COUNT_SIZE, sizes_of(items.as_slice())?))
}

/// As `size_of_array`, of an ARRAY that may be null.
#[tactic(auto, unfolding(crate::specs::Fields::spell_nullable_array, crate::specs::Fields::FitsNullableArray))]
pub fn size_of_nullable_array<T: MeasuredField>(items: &Option<Seq<T>>) -> Option<u64>
    ensures { IsSize (FitsNullableArray T.fits items.now) (spell_nullable_array T.spells items.now) result }
{
    match items {
        None => Some(COUNT_SIZE),
        Some(items) => size_of_array(items),
    }
}

/// Appends the ARRAY. An `Err` may leave a part of it.
#[tactic(auto, unfolding(crate::specs::Fields::spell_array, crate::specs::Fields::FitsArray))]
pub fn put_array<T: MeasuredField>(out: &mut Vec<u8>, items: &Seq<T>) -> Result<(), AllocError>
    requires { FitsArray T.fits items.now }
    ensures { OnOk result (out.new.items ≡ out.old.items ++ spell_array T.spells items.now) }
{
    put_i32(out, items.len() as i32)?;
    put_each(out, items.as_slice())
}

/// Appends the ARRAY, null for None. An `Err` may leave a part of it.
#[tactic(auto, unfolding(crate::specs::Fields::spell_nullable_array, crate::specs::Fields::FitsNullableArray))]
pub fn put_nullable_array<T: MeasuredField>(
    out: &mut Vec<u8>,
    items: &Option<Seq<T>>,
) -> Result<(), AllocError>
    requires { FitsNullableArray T.fits items.now }
    ensures { OnOk result (out.new.items ≡ out.old.items ++ spell_nullable_array T.spells items.now) }
{
    match items {
        None => put_i32(out, NULL),
        Some(items) => put_array(out, items),
    }
}
