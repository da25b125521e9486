//! Numbers and texts that are written one behind the other.

ghost use Rattle.std.specs.Prelude.{◌≤◌, length, IfOk};

use crate::fault::{Done, Played};
use crate::told::put_hex;
use kp_cases::{StepFault, Words, refused, seen_of};
use kp_wire::{put_nullable, put_string, put_varint, put_varlong};
use std::alloc::Global;

/// The most bytes that a text has.
const TEXT_LIMIT: usize = 32767;

/// What was written.
#[derive(Drop)]
pub(crate) struct Putting {
    out: Vec<u8>,
}

/// All words that are left, as a text.
fn text_of<'a>(words: &mut Words<'a>) -> Result<&'a str, StepFault>
    ensures { IfOk result (λ text. length text.now ≤ TEXT_LIMIT) }
{
    let text = words.rest();
    if text.len() > TEXT_LIMIT {
        return Err("the text is too long".into());
    }
    Ok(text)
}

/// Writes what the words say: a `varint`, a `varlong`, a `string`, a `nullable` one, or `null`.
fn put(out: &mut Vec<u8>, words: &mut Words<'_>) -> Done {
    let put = match words.word()? {
        "varint" => put_varint(out, words.number()?),
        "varlong" => put_varlong(out, words.number()?),
        "string" => put_string(out, text_of(words)?),
        "nullable" => put_nullable(out, Some(text_of(words)?)),
        "null" => put_nullable(out, None),
        _ => return Err(StepFault::NotUnderstood),
    };
    Ok(put?)
}

impl Putting {
    pub(crate) fn new(alloc: Global) -> Putting {
        Putting {
            out: Vec::new(alloc),
        }
    }

    /// Writes what the words say. Where memory is refused, what stood there before stands there alone.
    fn put(&mut self, words: &mut Words<'_>) -> Done {
        let before = seen_of(&self.out);
        match put(&mut self.out, words) {
            Err(StepFault::OutOfMemory) => Err(refused(seen_of(&self.out) == before)),
            done => done,
        }
    }

    /// Plays a step about what is written; false where it is none.
    pub(crate) fn play(&mut self, step: &str, words: &mut Words<'_>, came: &mut String) -> Played {
        match step {
            "put" => self.put(words)?,
            "out" => put_hex(came, &self.out)?,
            _ => return Ok(false),
        }
        Ok(true)
    }
}
