//! An input read whole, and an output written in large pieces.

ghost use Rattle.std.specs.Prelude.{◌≡◌, IfOk, IfSome, OnOk, codes};
ghost use Rattle.std.specs.Io.KnownBytes.{Appends};

use std::alloc::Global;
use std::fs;
use std::io::{self, ErrorKind, Read, Write};
use std::rt::Files;

/// The most that one write takes.
const PIECE: usize = 64 * 1024;

/// Why a file was not read.
#[derive(Clone, Copy, Debug, PartialEq, Eq)]
pub enum ReadFault<'a> {
    /// The file as the words named it.
    CannotRead(&'a str),
    OutOfMemory,
}

/// What a reader has left.
fn read_whole<I: Read>(alloc: Global, input: &mut I) -> io::Result<Vec<u8>>
    ensures { IfOk result (λ v. IfSome (I.remaining input.old) (λ bytes. v.items ≡ bytes)) }
{
    let mut bytes = Vec::new(alloc);
    input.read_to_end(&mut bytes)?;
    Ok(bytes)
}

/// The bytes of the file; `-` is the input.
pub fn read_file<'a, R: Files + AllocGlobal, I: Read>(
    rt: &R,
    file: &'a str,
    input: &mut I,
) -> Result<Vec<u8>, ReadFault<'a>>
    ensures input { file.entry.now ≡ codes "-"
        → IfOk result (λ v. IfSome (I.remaining input.old) (λ bytes. v.items ≡ bytes)) }
{
    let read = if file == "-" {
        read_whole(rt.alloc(), input)
    } else {
        fs::read(rt, file)
    };
    match read {
        Ok(bytes) => Ok(bytes),
        Err(error) => Err(match error.kind() {
            ErrorKind::OutOfMemory => ReadFault::OutOfMemory,
            _ => ReadFault::CannotRead(file),
        }),
    }
}

/// The bytes, in pieces, and none of them left in a buffer.
pub fn write_whole<O: Write>(out: &mut O, bytes: &[u8]) -> io::Result<()>
    ensures { OnOk result (Appends (O.contents out.old) (O.contents out.new) bytes.now) }
{
    let mut rest = bytes;
    while !rest.is_empty() {
        let (piece, behind) = rest.split_at(rest.len().min(PIECE));
        out.write_all(piece)?;
        rest = behind;
    }
    out.flush()
}
