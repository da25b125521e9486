//! A line, read.

ghost use Rattle.std.specs.Prelude.{◌≡◌, ◌↔◌, ◌∷◌, [], IsTrue, codes};
ghost use Rattle.kp_schedule.specs.Grammar.{IsSilent, MayBeSet, ReadsSaying, Says, Understands, WordsSay};
ghost use Rattle.kp_schedule.specs.Words.{texts};

use crate::event_words::event_of;
use crate::saying::Saying;
use crate::setting::{Setting, setting_of};
use crate::words::{Words, number_of, words_of};
use std::alloc::{AllocError, Global};
use std::str;

/// The most partitions.
const PARTITION_LIMIT: u64 = 1024;

/// The most senders.
const SENDER_LIMIT: u64 = 64;

/// Whether the line says nothing.
fn is_silent(line: &[u8]) -> bool
    ensures { IsTrue result ↔ IsSilent line.now }
{
    match line {
        [] => true,
        [first, ..] => *first == b'#',
    }
}

fn may_be_set(name: Setting, value: u64) -> bool
    ensures { IsTrue result ↔ MayBeSet name value }
{
    match name {
        Setting::Partitions => value >= 1 && value <= PARTITION_LIMIT,
        Setting::Senders => value >= 1 && value <= SENDER_LIMIT,
        _ => true,
    }
}

/// What is set by a line of a name and a number.
fn setting_line(name: &str, value: &str) -> Option<Saying>
    ensures { Understands (WordsSay (codes "set" ∷ name.now ∷ value.now ∷ [])) result }
{
    let name = setting_of(name)?;
    let value = number_of(value)?;
    if !may_be_set(name, value) {
        return None;
    }
    Some(Saying::Sets(name, value))
}

/// What words say.
fn saying_of(alloc: Global, words: Words<'_>) -> Result<Option<Saying>, AllocError>
    ensures { ReadsSaying (WordsSay (texts words.entry)) result }
{
    if let Words::Three("set", name, value) = words {
        return Ok(setting_line(name, value));
    }
    Ok(event_of(alloc, words)?.map(Saying::Happens))
}

/// What a line says, if it is understood.
pub fn read_line(alloc: Global, line: &[u8]) -> Result<Option<Saying>, AllocError>
    ensures { ReadsSaying (Says line.now) result }
{
    if is_silent(line) {
        return Ok(Some(Saying::Nothing));
    }
    let Ok(line) = str::from_utf8(line) else {
        return Ok(None);
    };
    match words_of(line) {
        None => Ok(None),
        Some(words) => saying_of(alloc, words),
    }
}
