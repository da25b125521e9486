//! Lines that tell a fault. Nothing is allocated.

ghost use Rattle.std.specs.Prelude.{OnOk};
ghost use Rattle.std.specs.Io.KnownBytes.{Appends};
ghost use Rattle.kp_program.specs.Told.{cannot_read_line, numbered_line};

use itoa::Buffer;
use std::io::{self, Write};

/// Memory was refused.
pub const OUT_OF_MEMORY: &[u8] = b"kprod: out of memory\n";

/// A file that could not be read.
pub fn put_cannot_read<W: Write>(err: &mut W, file: &str) -> io::Result<()>
    ensures { OnOk result (Appends (W.contents err.old) (W.contents err.new) (cannot_read_line file.now)) }
{
    err.write_all(b"kprod: cannot read ")?;
    err.write_all(file.as_bytes())?;
    err.write_all(b"\n")
}

/// A line that ends in a number below 256.
pub fn put_numbered<W: Write>(err: &mut W, text: &[u8], number: u8) -> io::Result<()>
    ensures { OnOk result (Appends (W.contents err.old) (W.contents err.new) (numbered_line text.now number)) }
{
    let mut buffer = Buffer::new();
    err.write_all(text)?;
    err.write_all(buffer.format(number).as_bytes())?;
    err.write_all(b"\n")
}
