//! Lines packed into one batch, and what a log makes of it.

ghost use Rattle.std.specs.Prelude.{◌≡◌, ◌<◌, ◌≤◌, IfOk, OnOk, MatchResult, Err, []};
ghost use Rattle.kp_batch.specs.Spelling.{size_of_batch};
ghost use Rattle.kp_program.specs.Lines.{lines};
ghost use Rattle.kp_packing.specs.Packed.{packed_text, records_of};

use crate::fault::PackFault;
use crate::lines::lines_of;
use crate::offering::Offered;
use crate::reporting::report;
use kp_batch::{Record, SIZE_LIMIT, batch_size};
use kp_text::put_batch_line;
use std::alloc::{AllocError, Global};

// The greatest int32.
const _: () = prove!(SIZE_LIMIT == 2147483647);

/// A size that a batch may have.
pub fn within_limit(size: u64) -> Result<u64, PackFault>
    ensures { MatchResult result (λ same. (same ≡ size) × (size ≤ SIZE_LIMIT))
        (λ fault. (fault ≡ PackFault.TooLarge) × (SIZE_LIMIT < size)) }
{
    if size > SIZE_LIMIT {
        return Err(PackFault::TooLarge);
    }
    Ok(size)
}

/// The size of the records' batch.
fn size_of(records: &[Record]) -> Result<u64, PackFault>
    ensures { MatchResult result (λ size. (size ≡ size_of_batch records.now) × (size ≤ SIZE_LIMIT))
        (λ fault. (fault ≡ PackFault.TooLarge) × (SIZE_LIMIT < size_of_batch records.now)) }
{
    within_limit(batch_size(records))
}

/// The text where no line is there to be packed.
fn nothing_packed(alloc: Global) -> Result<Vec<u8>, AllocError>
    ensures { IfOk result (λ text. text.items ≡ packed_text []) }
{
    let mut text = Vec::new(alloc);
    put_batch_line(&mut text, 0, 0)?;
    Ok(text)
}

/// The text of the bytes' lines, packed.
pub fn pack(alloc: Global, bytes: &[u8]) -> Result<Vec<u8>, PackFault>
    ensures text { IfOk result (λ text. text.items ≡ packed_text (lines bytes.now)) }

    // A batch larger than a batch may be is refused as such, unless memory is refused first.
    ensures too_large { result ≡ Err PackFault.TooLarge
        → SIZE_LIMIT < size_of_batch (records_of (lines bytes.now)) }
    ensures fits { OnOk result (size_of_batch (records_of (lines bytes.now)) ≤ SIZE_LIMIT) }
{
    let records = lines_of(alloc, bytes)?;
    if records.is_empty() {
        return Ok(nothing_packed(alloc)?);
    }
    let size = size_of(records.as_slice())?;
    let offered = Offered::new(alloc, records.as_slice())?;
    Ok(report(alloc, size, records.len() as u64, &offered)?)
}
