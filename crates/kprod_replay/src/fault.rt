//! Why a call ended without its output.

ghost use Rattle.std.specs.Prelude.{◌≡◌, ◌++◌, OnOk, codes, decimal};
ghost use Rattle.std.specs.Io.KnownBytes.{Appends};
ghost use Rattle.kp_text.specs.Lines.{newline};
ghost use Rattle.kprod_replay.specs.Faults.{fault_line, of_read, of_replay};

use itoa::Buffer;
use kp_program::{OUT_OF_MEMORY, ReadFault, put_cannot_read, put_numbered};
use kp_schedule::ReplayFault;
use std::io::{self, Write};

/// Why a call ended without its output.
#[derive(Clone, Copy, Debug, PartialEq, Eq)]
pub enum Fault<'a> {
    /// The file as the words named it.
    CannotRead(&'a str),
    OutOfMemory,
    /// A fault of the configuration, by its number.
    Config(u8),
    /// This line of a schedule, from 1, is not understood.
    BadLine(u64),
    /// The event of this line of a schedule names what isn't there.
    NoSuch(u64),
    /// A schedule has more lines than a schedule may have.
    TooLong,
    /// The command is that of another program.
    Elsewhere,
    /// The output took no more. Nobody is told.
    CannotWrite,
}

impl<'a> From<ReadFault<'a>> for Fault<'a> {
    ghost from_gives = { λ fault e. e ≡ of_read fault };

    fn from(fault: ReadFault<'a>) -> Fault<'a> {
        match fault {
            ReadFault::CannotRead(file) => Fault::CannotRead(file),
            ReadFault::OutOfMemory => Fault::OutOfMemory,
        }
    }
}

impl<'a> From<ReplayFault> for Fault<'a> {
    ghost from_gives = { λ fault e. e ≡ of_replay fault };

    fn from(fault: ReplayFault) -> Fault<'a> {
        match fault {
            ReplayFault::BadLine(line) => Fault::BadLine(line),
            ReplayFault::NoSuch(line) => Fault::NoSuch(line),
            ReplayFault::Config(fault) => Fault::Config(fault.number()),
            ReplayFault::TooLong => Fault::TooLong,
            ReplayFault::OutOfMemory => Fault::OutOfMemory,
        }
    }
}

/// A line that tells what is wrong with a line of a schedule.
fn put_line_fault<W: Write>(err: &mut W, line: u64, wrong: &[u8]) -> io::Result<()>
    ensures { OnOk result (Appends (W.contents err.old) (W.contents err.new)
        (codes "kprod: line " ++ decimal line ++ wrong.now ++ newline)) }
{
    let mut buffer = Buffer::new();
    err.write_all(b"kprod: line ")?;
    err.write_all(buffer.format(line).as_bytes())?;
    err.write_all(wrong)?;
    err.write_all(b"\n")
}

/// The fault's line, if it is told at all. Nothing is allocated.
pub fn put_fault<W: Write>(err: &mut W, fault: Fault<'_>) -> io::Result<()>
    ensures { OnOk result (Appends (W.contents err.old) (W.contents err.new) (fault_line fault.entry)) }
{
    match fault {
        Fault::CannotRead(file) => put_cannot_read(err, file),
        Fault::OutOfMemory => err.write_all(OUT_OF_MEMORY),
        Fault::Config(number) => put_numbered(err, b"kprod: config fault ", number),
        Fault::BadLine(line) => put_line_fault(err, line, b": not understood"),
        Fault::NoSuch(line) => put_line_fault(err, line, b": no such thing"),
        Fault::TooLong => err.write_all(b"kprod: schedule too long\n"),
        Fault::Elsewhere => err.write_all(
            b"kprod: this command is another program's, which ./kprod runs\n",
        ),
        Fault::CannotWrite => Ok(()),
    }
}
