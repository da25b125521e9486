//! Why a call ended without its output.

ghost use Rattle.std.specs.Prelude.{◌≡◌, OnOk};
ghost use Rattle.std.specs.Io.KnownBytes.{Appends};
ghost use Rattle.kprod.specs.Faults.{fault_line, of_read, of_run};

use kp_program::{OUT_OF_MEMORY, ReadFault, put_cannot_read, put_numbered};
use kp_run::RunFault;
use std::alloc::AllocError;
use std::io::{self, Write};

/// Why a call ended without its output.
#[derive(Clone, Copy, Debug, PartialEq, Eq)]
pub enum Fault<'a> {
    /// The file as the words named it.
    CannotRead(&'a str),
    OutOfMemory,
    /// The topic's name is none that Kafka takes.
    Topic,
    /// The plan of the broker's faults can't be read.
    Plan,
    /// A fault of the configuration, by its number.
    Config(u8),
    /// The broker can't be reached, or the event loop has failed.
    Network,
    /// A fault of the handshake, by its number.
    Handshake(u8),
    /// The command is that of another program.
    Elsewhere,
    /// The output took no more. Nobody is told.
    CannotWrite,
}

impl<'a> From<ReadFault<'a>> for Fault<'a> {
    ghost from_gives = { λ fault e. e ≡ of_read fault };

    fn from(fault: ReadFault<'a>) -> Fault<'a> {
        match fault {
            ReadFault::CannotRead(file) => Fault::CannotRead(file),
            ReadFault::OutOfMemory => Fault::OutOfMemory,
        }
    }
}

impl<'a> From<RunFault> for Fault<'a> {
    ghost from_gives = { λ fault e. e ≡ of_run fault };

    fn from(fault: RunFault) -> Fault<'a> {
        match fault {
            RunFault::Topic => Fault::Topic,
            RunFault::Plan => Fault::Plan,
            RunFault::Config(fault) => Fault::Config(fault.number()),
            RunFault::Network => Fault::Network,
            RunFault::Handshake(fault) => Fault::Handshake(fault.number()),
            RunFault::OutOfMemory => Fault::OutOfMemory,
        }
    }
}

impl<'a> From<AllocError> for Fault<'a> {
    fn from(_refused: AllocError) -> Fault<'a> {
        Fault::OutOfMemory
    }
}

/// The fault's line, if it is told at all. Nothing is allocated.
pub fn put_fault<W: Write>(err: &mut W, fault: Fault<'_>) -> io::Result<()>
    ensures { OnOk result (Appends (W.contents err.old) (W.contents err.new) (fault_line fault.entry)) }
{
    match fault {
        Fault::CannotRead(file) => put_cannot_read(err, file),
        Fault::OutOfMemory => err.write_all(OUT_OF_MEMORY),
        Fault::Topic => err.write_all(b"kprod: topic fault\n"),
        Fault::Plan => err.write_all(b"kprod: plan fault\n"),
        Fault::Config(number) => put_numbered(err, b"kprod: config fault ", number),
        Fault::Network => err.write_all(b"kprod: network fault\n"),
        Fault::Handshake(number) => put_numbered(err, b"kprod: handshake fault ", number),
        Fault::Elsewhere => err.write_all(
            b"kprod: this command is another program's, which ./kprod runs\n",
        ),
        Fault::CannotWrite => Ok(()),
    }
}
