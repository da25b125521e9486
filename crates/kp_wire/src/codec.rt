//! Types with a format, and lists of them: each loop over a list of fields is written and proved once, here.

ghost use Rattle.std.specs.Prelude.{List, ℕ};
ghost use Rattle.kp_wire.specs.Reading.{Read, Gives};
ghost use Rattle.kp_wire.specs.Codec.{read_many, read_more};

use crate::fault::ReadError;
use crate::seq::Seq;
use std::alloc::Global;

/// A type that is read from the front of bytes.
pub trait ReadField: Drop + Sized {
    /// How a value is read where the last `after` bytes belong to what stands behind it.
    ghost reads: { ℕ → List ℕ → Read Self };

    /// The value at the front, and the bytes behind it. The last `after` bytes belong to what stands
    /// behind the value; a format that doesn't know its end takes no notice of them.
    fn read(alloc: Global, bytes: &[u8], after: usize) -> Result<(Self, &[u8]), ReadError>
        ensures { Gives (λ x. (x.0, x.1.now)) result (reads after bytes.now) };
}

/// Appends so many values, one after the other, and gives the bytes behind them. An `Err` may leave a part of the
/// values.
#[inline]
pub fn read_into<'a, T: ReadField>(
    alloc: Global,
    items: &mut Vec<T>,
    count: u32,
    bytes: &'a [u8],
    after: usize,
) -> Result<&'a [u8], ReadError>
    ensures { Gives (λ rest. (items.new.items, rest.now)) result (read_more (T.reads after) items.old.items count bytes.now) }
{
    let mut rest = bytes;
    for _ in 0..count {
        let (item, behind) = T::read(alloc, rest, after)?;
        items.push(item)?;
        rest = behind;
    }
    Ok(rest)
}

/// So many values, one after the other, and the bytes behind them.
pub fn read_many<T: ReadField>(
    alloc: Global,
    count: u32,
    bytes: &[u8],
    after: usize,
) -> Result<(Seq<T>, &[u8]), ReadError>
    ensures { Gives (λ x. (x.0, x.1.now)) result (read_many (T.reads after) count bytes.now) }
{
    let mut items = Vec::new(alloc);
    let rest = read_into(alloc, &mut items, count, bytes, after)?;
    Ok((Seq::new(items), rest))
}
