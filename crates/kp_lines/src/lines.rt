//! A stream of bytes cut into lines at a delimiter.

ghost use Rattle.std.specs.Prelude.{◌≡◌, ◌<◌, ◌++◌, ◌∷◌, [], length, IfOk, IfErr, IfSome, OnErr};
ghost use Rattle.std.specs.Option.{option_map};
ghost use Rattle.kp_lines.specs.Lines.{beginning, Ends, Refuses, Takes, Tells};
ghost use Rattle.kp_lines.specs.Split.{Cuts, HasNone};

use crate::fault::LineFault;
use crate::line::Line;
use memchr::memchr;
use std::alloc::Global;
use std::marker::Model;
use std::mem;

/// What is to be known of a stream that is cut into lines: seen as the delimiter, what has begun of the line whose
/// delimiter has not come, and the number of that line.
///
/// A byte is looked at once, and copied once into its line where the line comes in one chunk.
#[derive(Debug, Drop)]
pub struct Lines {
    alloc: Global,
    delimiter: u8,
    begun: Vec<u8>,
    next: u64,
}

impl Model for Lines {
    ghost use Rattle.kp_lines.specs.Lines.{Cutting};
    ghost use Rattle.kp_lines.specs.Split.{HasNone};

    ghost Value = { Cutting };

    ghost view = { λ s. record { delimiter = s.delimiter; begun = s.begun.items; next = s.next } };

    ghost invariant = { λ s. HasNone s.delimiter s.begun.items };
}

impl Lines {
    /// The lines of a stream of which nothing has come. It takes no memory.
    pub fn new(alloc: Global, delimiter: u8) -> Lines
        ensures { result ≡ beginning delimiter }
    {
        Lines {
            alloc,
            delimiter,
            begun: Vec::new(alloc),
            next: 1,
        }
    }

    /// The next line, where its delimiter stands in the next chunk of the stream, and the chunk behind that. Where no
    /// delimiter stands there, the chunk is taken whole.
    pub fn next_line<'a>(&mut self, chunk: &'a [u8]) -> Result<Option<(Line, &'a [u8])>, LineFault>
        ensures told { IfOk result (λ told.
            Takes self.old chunk.now (option_map (λ x. (x.0, x.1.now)) told) self.new) }
        ensures shorter { IfOk result (λ told.
            IfSome told (λ x. length x.1.now < length chunk.now)) }

        // It may be asked again with the same chunk.
        ensures refused { IfErr result (Refuses self.old) }
        ensures unchanged { OnErr result (self.new ≡ self.old) }
    {
        let Some((last, behind)) = cut(self.delimiter, chunk) else {
            self.begun.extend_from_slice(chunk)?;
            return Ok(None);
        };
        let line = self.end_with(last)?;
        Ok(Some((line, behind)))
    }

    /// The next line is put into the memory of these bytes, which nobody wants any more, where none of it has come.
    pub fn reuse(&mut self, bytes: Vec<u8>)
        ensures { self.new ≡ self.old }
    {
        if self.begun.is_empty() {
            let mut room = bytes;
            room.clear();
            self.begun = room;
        }
    }

    /// The stream ends here: its last line, where no delimiter stands behind it.
    pub fn finish(self) -> Option<Line>
        ensures { Ends self result }
    {
        let Lines { begun, next, .. } = self;
        if begun.is_empty() {
            return None;
        }
        Some(Line {
            number: next,
            bytes: begun,
        })
    }

    /// The line that has begun ends with these bytes.
    fn end_with(&mut self, last: &[u8]) -> Result<Line, LineFault>
        requires { HasNone self.old.delimiter last.now }
        ensures told { IfOk result (λ line. Tells self.old
            (last.now ++ self.old.delimiter ∷ []) (line ∷ []) self.new) }
        ensures refused { IfErr result (Refuses self.old) }
        ensures unchanged { OnErr result (self.new ≡ self.old) }
    {
        let following = self.next.checked_add(1).ok_or(LineFault::Spent)?;
        self.begun.extend_from_slice(last)?;
        let bytes = mem::replace(&mut self.begun, Vec::new(self.alloc));
        let number = mem::replace(&mut self.next, following);
        Ok(Line { number, bytes })
    }
}

/// What stands before the first delimiter, and what behind it.
fn cut(delimiter: u8, bytes: &[u8]) -> Option<(&[u8], &[u8])>
    ensures { Cuts delimiter bytes.now (option_map (λ x. (x.0.now, x.1.now)) result) }
{
    let end = memchr(delimiter, bytes)?;
    Some((&bytes[..end], &bytes[end + 1..]))
}
