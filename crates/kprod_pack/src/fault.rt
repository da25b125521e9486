//! Why a call ended without its output.

ghost use Rattle.std.specs.Prelude.{◌≡◌, OnOk};
ghost use Rattle.std.specs.Io.KnownBytes.{Appends};
ghost use Rattle.kprod_pack.specs.Faults.{fault_line, of_pack, of_read};

use kp_packing::PackFault;
use kp_program::{OUT_OF_MEMORY, ReadFault, put_cannot_read};
use std::io::{self, Write};

/// Why a call ended without its output.
#[derive(Clone, Copy, Debug, PartialEq, Eq)]
pub enum Fault<'a> {
    /// The file as the words named it.
    CannotRead(&'a str),
    OutOfMemory,
    TooLarge,
    /// The command is that of another program.
    Elsewhere,
    /// The output took no more. Nobody is told.
    CannotWrite,
}

impl<'a> From<ReadFault<'a>> for Fault<'a> {
    ghost from_gives = { λ fault e. e ≡ of_read fault };

    fn from(fault: ReadFault<'a>) -> Fault<'a> {
        match fault {
            ReadFault::CannotRead(file) => Fault::CannotRead(file),
            ReadFault::OutOfMemory => Fault::OutOfMemory,
        }
    }
}

impl<'a> From<PackFault> for Fault<'a> {
    ghost from_gives = { λ fault e. e ≡ of_pack fault };

    fn from(fault: PackFault) -> Fault<'a> {
        match fault {
            PackFault::OutOfMemory => Fault::OutOfMemory,
            PackFault::TooLarge => Fault::TooLarge,
        }
    }
}

/// The fault's line, if it is told at all. Nothing is allocated.
pub fn put_fault<W: Write>(err: &mut W, fault: Fault<'_>) -> io::Result<()>
    ensures { OnOk result (Appends (W.contents err.old) (W.contents err.new) (fault_line fault.entry)) }
{
    match fault {
        Fault::CannotRead(file) => put_cannot_read(err, file),
        Fault::OutOfMemory => err.write_all(OUT_OF_MEMORY),
        Fault::TooLarge => err.write_all(b"kprod: input too large\n"),
        Fault::Elsewhere => err.write_all(
            b"kprod: this command is another program's, which ./kprod runs\n",
        ),
        Fault::CannotWrite => Ok(()),
    }
}
