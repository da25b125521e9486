//! The words of a call, and how it ends where they are no command.

ghost use Rattle.std.specs.Prelude.{◌≡◌, ◌≢◌};
ghost use Rattle.clap.specs.Words.{kind_of};

use crate::telling::OUT_OF_MEMORY;
use clap::Error;
use clap::error::ErrorKind;
use std::env;
use std::io::{self, Write};
use std::rt::Env;

/// The output is written.
pub const DONE: u8 = 0;

/// A fault, told by its line.
pub const FAULT: u8 = 1;

/// The words are no command.
pub const USAGE: u8 = 2;

/// The words of the call, of which the first is the program's name.
pub fn words_of<R: Env + AllocGlobal>(rt: &R) -> io::Result<Vec<String>> {
    Ok(env::args(rt)?.collect(rt.alloc())?)
}

fn put_help<O: Write>(error: &Error, out: &mut O) -> io::Result<()> {
    write!(out, "{error}")?;
    out.flush()
}

/// Ends a call whose words are no command, or ask for help: its status.
pub fn refuse<O: Write, E: Write>(error: &Error, out: &mut O, err: &mut E) -> u8
    ensures { kind_of error.now ≡ ErrorKind.OutOfMemory → result ≢ DONE }
{
    if matches!(error.kind(), ErrorKind::OutOfMemory) {
        let _ = err.write_all(OUT_OF_MEMORY);
        return FAULT;
    }
    if error.use_stderr() {
        let _ = write!(err, "{error}");
        return USAGE;
    }
    match put_help(error, out) {
        Ok(()) => DONE,
        Err(_) => FAULT,
    }
}

/// Ends a call whose words could not be had: its status.
pub fn refuse_words<E: Write>(error: &io::Error, err: &mut E) -> u8
    ensures { result ≢ DONE }
{
    match error.kind() {
        io::ErrorKind::OutOfMemory => {
            let _ = err.write_all(OUT_OF_MEMORY);
            FAULT
        }
        _ => {
            let _ = err.write_all(b"kprod: a word is not UTF-8\n");
            USAGE
        }
    }
}
