//! The fields of a record.

ghost use Rattle.std.specs.Prelude.{◌≡◌, []};
ghost use Rattle.kp_wire.specs.Reading.{Gives, IsRead};
ghost use Rattle.kp_wire.specs.Codec.{by_length, within, many};
ghost use Rattle.kp_batch.specs.Record.{attributes, header, headers};

use kp_batch::Header;
use kp_batch::fields::read_length;
use kp_wire::{ReadError, WireFault, read_into};
use std::alloc::Global;

/// A record's attributes, one byte 0, behind which `after` bytes stand or more.
#[tactic(auto, unfolding(kp_batch::specs::Record::read_zero, kp_batch::specs::Record::attributes))]
pub(crate) fn read_attributes(bytes: &[u8], after: usize) -> Result<&[u8], WireFault>
    ensures { IsRead (λ x. (tt, x.now)) result ((within after attributes).read bytes.now) }
{
    match bytes {
        [] => Err(WireFault::Short),
        [0, rest @ ..] => {
            if rest.len() < after {
                return Err(WireFault::BadLength);
            }
            Ok(rest)
        }
        [_, ..] => Err(WireFault::BadByte),
    }
}

/// Appends the headers of a record to none: those that stand behind their count.
#[inline]
#[tactic(auto, unfolding(kp_wire::specs::Codec::by_length))]
fn read_headers_by<'a>(
    alloc: Global,
    hs: &mut Vec<Header>,
    count: i32,
    bytes: &'a [u8],
    after: usize,
) -> Result<&'a [u8], ReadError>
    requires { hs.old.items ≡ [] }
    ensures { Gives (λ rest. (hs.new.items, rest.now)) result (by_length (λ n. (many (header after) n).read) count bytes.now) }
{
    if count < 0 {
        return Err(ReadError::Fault(WireFault::BadLength));
    }
    read_into::<Header>(alloc, hs, count as u32, bytes, after)
}

/// Appends the headers of a record to none, and gives the bytes behind them.
#[inline]
#[tactic(auto, unfolding(kp_batch::specs::Record::headers))]
pub(crate) fn read_headers<'a>(
    alloc: Global,
    hs: &mut Vec<Header>,
    bytes: &'a [u8],
    after: usize,
) -> Result<&'a [u8], ReadError>
    requires { hs.old.items ≡ [] }
    ensures { Gives (λ rest. (hs.new.items, rest.now)) result ((headers after).read bytes.now) }
{
    let (count, rest) = read_length(bytes, after)?;
    read_headers_by(alloc, hs, count, rest, after)
}
