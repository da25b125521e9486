//! RECORDS, bytes behind their length; a null is not read (protocol guide, "Protocol Primitive Types").

ghost use Rattle.std.specs.Prelude.{◌≡◌, ◌++◌, OnOk};
ghost use Rattle.kp_wire.specs.Reading.{Gives};
ghost use Rattle.kp_wire.specs.Codec.{by_length, plain};
ghost use Rattle.kp_wire.specs.Sizes.{IsSize};
ghost use Rattle.kp_wire.specs.Fields.{records};

use crate::blob::Blob;
use crate::fault::{ReadError, WireFault};
use crate::field::read_bytes;
use crate::number::{put_i32, read_i32};
use std::alloc::{AllocError, Global};

/// The most bytes that RECORDS has.
const LENGTH_LIMIT: usize = 2_147_483_647;

/// How many bytes the length takes.
const LENGTH_SIZE: u64 = 4;

#[tactic(auto, unfolding(crate::specs::Codec::by_length))]
fn read_blob_by(alloc: Global, bytes: &[u8], len: i32) -> Result<(Blob, &[u8]), ReadError>
    ensures { Gives (λ x. (x.0, x.1.now)) result (by_length (λ n. (plain n).read) len bytes.now) }
{
    if len < 0 {
        return Err(ReadError::Fault(WireFault::BadLength));
    }
    let (front, rest) = read_bytes(bytes, len as usize)?;
    Ok((Blob::from_slice(alloc, front)?, rest))
}

/// The RECORDS at the front, and the bytes behind it.
#[tactic(auto, unfolding(crate::specs::Fields::records))]
pub fn read_records(alloc: Global, bytes: &[u8]) -> Result<(Blob, &[u8]), ReadError>
    ensures { Gives (λ x. (x.0, x.1.now)) result (records.read bytes.now) }
{
    let (len, rest) = read_i32(bytes)?;
    read_blob_by(alloc, rest, len)
}

/// How many bytes the RECORDS has. None where it is longer than its length can say.
#[tactic(auto, unfolding(crate::specs::Fields::records))]
pub fn size_of_records(bytes: &Blob) -> Option<u64>
    ensures { IsSize (records.Fits bytes.now) (records.spell bytes.now) result }
{
    if bytes.len() > LENGTH_LIMIT {
        return None;
    }
    Some(LENGTH_SIZE + bytes.len() as u64)
}

/// Appends the RECORDS. An `Err` may leave a part of it.
#[tactic(auto, unfolding(crate::specs::Fields::records))]
pub fn put_records(out: &mut Vec<u8>, bytes: &Blob) -> Result<(), AllocError>
    requires { records.Fits bytes.now }
    ensures { OnOk result (out.new.items ≡ out.old.items ++ records.spell bytes.now) }
{
    put_i32(out, bytes.len() as i32)?;
    out.extend_from_slice(bytes.as_slice())
}
