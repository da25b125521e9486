//! The lines of each sender, and the records that they are.

ghost use Rattle.std.specs.Prelude.{◌≡◌, ◌≢◌, IfOk, map};
ghost use Rattle.std.specs.Option.{option_map};
ghost use Rattle.kp_dealing.specs.Dealing.{dealt_line, IsRecordOf, IsSplit, Splits};

use kp_batch::{Record, Timestamp};
use kp_wire::{Blob, Seq};
use memchr::memchr;
use std::alloc::{AllocError, Global};

/// Line `k` of this sender, where there is one: the lines are dealt out one by one.
pub fn dealt<'a>(lines: &[&'a [u8]], senders: u32, sender: u32, k: u64) -> Option<&'a [u8]>
    ensures { option_map (λ line. line.now) result ≡ dealt_line senders sender k (map (λ line. line.now) lines.now) }
{
    let place = k
        .checked_mul(u64::from(senders))?
        .checked_add(u64::from(sender))?;
    lines.get(place as usize).copied()
}

/// The key and the value of a line.
fn split(line: &[u8]) -> (Option<&[u8]>, &[u8])
    ensures { Splits line.now (option_map (λ key. key.now) result.0) result.1.now }
{
    match memchr(b'\t', line) {
        Some(tab) => (Some(&line[..tab]), &line[tab + 1..]),
        None => (None, line),
    }
}

/// The key, where lines have keys, and the value.
fn split_if(keyed: bool, line: &[u8]) -> (Option<&[u8]>, &[u8])
    ensures { IsSplit keyed line.now (option_map (λ key. key.now) result.0) result.1.now }
{
    if keyed { split(line) } else { (None, line) }
}

/// A copy of a key.
fn copy_of(alloc: Global, key: Option<&[u8]>) -> Result<Option<Blob>, AllocError>
    ensures { IfOk result (λ copy. copy ≡ option_map (λ k. k.now) key.entry) }
{
    match key {
        Some(key) => Ok(Some(Blob::from_slice(alloc, key)?)),
        None => Ok(None),
    }
}

/// A line's record.
pub fn record_of(
    alloc: Global,
    keyed: bool,
    timestamp: Timestamp,
    line: &[u8],
) -> Result<Record, AllocError>
    ensures { IfOk result (λ r. IsRecordOf keyed timestamp line.now r) }
{
    let (key, value) = split_if(keyed, line);
    Ok(Record {
        timestamp,
        key: copy_of(alloc, key)?,
        value: Some(Blob::from_slice(alloc, value)?),
        headers: Seq::new(Vec::new(alloc)),
    })
}
