//! What is computed of a step's words.

ghost use Rattle.std.specs.Prelude.{◌≤◌, length};

use crate::fault::{Done, Played};
use crate::told::put_hex;
use kp_batch::Timestamp;
use kp_cases::{Words, put, put_debug};
use kp_wire::{
    Text, add_sizes, crc32c, murmur2, partition_of_key, put_string, size_of_nullable_text,
    size_of_text, take_string,
};
use std::alloc::Global;

/// Tells the first three bytes of a text as a STRING.
fn tell_front(alloc: Global, text: &str, came: &mut String) -> Done
    requires { length text.now ≤ 32767 }
{
    let mut out = Vec::new(alloc);
    put_string(&mut out, text)?;
    came.push_str(" from ")?;
    put_hex(came, out.get(..3).unwrap_or(&[]))?;
    if take_string(&out) != Ok((text, out.len())) {
        came.push_str(", taken otherwise")?;
    }
    Ok(())
}

/// Tells how many bytes a text has as a STRING, and the first three of them.
fn tell_string(alloc: Global, word: &str, came: &mut String) -> Done {
    let text = Text::from_str(alloc, word)?;
    let size = size_of_text(&text);
    put_debug(came, &size)?;
    if size.is_some() {
        tell_front(alloc, text.as_str(), came)?;
    }
    if size_of_nullable_text(&Some(text)) != size {
        came.push_str(", of another size where it may be null")?;
    }
    Ok(())
}

fn tell_crc32c(words: &mut Words<'_>, came: &mut String) -> Done {
    Ok(write!(came, "{:08x}", crc32c(&words.bytes()?))?)
}

/// Tells which of so many partitions a key has.
fn tell_partition(words: &mut Words<'_>, came: &mut String) -> Done {
    let partitions = words.number()?;
    let key = words.bytes()?;
    if partitions == 0 {
        return Err("there is no partition".into());
    }
    put(came, &partition_of_key(&key, partitions))
}

/// Tells the milliseconds of a moment, where it is one.
fn tell_moment(words: &mut Words<'_>, came: &mut String) -> Done {
    let moment = Timestamp::from_millis(words.number()?);
    put_debug(came, &moment.map(|moment| moment.millis()))
}

/// Plays a step that computes; false where it is none.
pub(crate) fn compute(
    alloc: Global,
    step: &str,
    words: &mut Words<'_>,
    came: &mut String,
) -> Played {
    let done = match step {
        "crc32c" => tell_crc32c(words, came),
        "murmur2" => put(came, &murmur2(&words.bytes()?).cast_signed()),
        "partition" => tell_partition(words, came),
        "sum" => put(came, &add_sizes(words.number()?, words.number()?)),
        "moment" => tell_moment(words, came),
        "text_of" => tell_string(alloc, words.word()?, came),
        _ => return Ok(false),
    };
    done.map(|()| true)
}
