//! The lines of an input, as records.

ghost use Rattle.std.specs.Prelude.{◌≡◌, IfOk};
ghost use Rattle.kp_program.specs.Lines.{lines};
ghost use Rattle.kp_packing.specs.Packed.{record_of, records_of};

use kp_batch::{Record, Timestamp};
use kp_program::cut;
use kp_wire::{Blob, Seq};
use std::alloc::{AllocError, Global};

/// A record that has a value alone.
fn value_alone(alloc: Global, value: &[u8]) -> Result<Record, AllocError>
    ensures { IfOk result (λ made. made ≡ record_of value.now) }
{
    Ok(Record {
        timestamp: Timestamp::from_millis(0).unwrap(),
        key: None,
        value: Some(Blob::from_slice(alloc, value)?),
        headers: Seq::new(Vec::new(alloc)),
    })
}

/// A record for each line.
pub fn lines_of(alloc: Global, bytes: &[u8]) -> Result<Vec<Record>, AllocError>
    ensures { IfOk result (λ v. v.items ≡ records_of (lines bytes.now)) }
{
    let mut records = Vec::new(alloc);
    let mut rest = bytes;
    while !rest.is_empty() {
        let (line, behind) = cut(rest);
        records.push(value_alone(alloc, line)?)?;
        rest = behind;
    }
    Ok(records)
}
