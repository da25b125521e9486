//! The program, over any streams.

ghost use Rattle.std.specs.Prelude.{◌≡◌, ◌≢◌, IfSome, List, OnOk, codes, map};
ghost use Rattle.clap.specs.Words.{Row};
ghost use Rattle.kp_command_line.specs.CommandLine.{AskToPackInput, AskToReplayInput, AskToSend};
ghost use Rattle.kprod.specs.Runs.{Looks, LooksFirst, PrintsLines, PrintsRun};

use crate::fault::{Fault, put_fault};
use crate::running::send_and_print;
use kp_command_line::{Command, Wanted, command_of};
use kp_program::{DONE, FAULT, USAGE, read_file, refuse, slices_of};
use kp_run::Checked;
use std::convert::AsStr;
use std::io::{Read, Write};
use std::net::{Net, TcpListener, TcpStream};
use std::random::RandomSource;
use std::rt::Files;
use std::sync::Wait;
use std::thread::Threads;
use std::time::Clock;

/// Tells a fault. Nothing is made of an `err` that fails.
fn fail<E: Write>(fault: Fault<'_>, err: &mut E) -> u8
    ensures { result ≢ DONE }
{
    let _ = put_fault(err, fault);
    match fault {
        Fault::Elsewhere => USAGE,
        _ => FAULT,
    }
}

/// Sends the lines of these bytes.
fn run_bytes<'a, R, O: Write, E: Write>(
    rt: &R,
    checked: &Checked<'_>,
    bytes: &[u8],
    out: &mut O,
    err: &mut E,
) -> Result<(), Fault<'a>>
where
    R: Wait + Threads + Clock + RandomSource + AllocGlobal + Sync,
    R: Net<Listener = TcpListener, Stream = TcpStream>,
    ensures { OnOk result (PrintsLines checked.now bytes.now (O.contents out.old) (O.contents out.new)) }
{
    let lines = slices_of(rt.alloc(), bytes)?;
    send_and_print(rt, checked, lines.as_slice(), out, err)
}

/// Sends a file's lines.
fn run_file<'a, R, I: Read, O: Write, E: Write>(
    rt: &R,
    wanted: Wanted<'a>,
    input: &mut I,
    out: &mut O,
    err: &mut E,
) -> Result<(), Fault<'a>>
where
    R: Files + Wait + Threads + Clock + RandomSource + AllocGlobal + Sync,
    R: Net<Listener = TcpListener, Stream = TcpStream>,
    ensures looks { LooksFirst wanted.entry.options result }
    ensures input { wanted.entry.file.now ≡ codes "-"
        → OnOk result (IfSome (I.remaining input.old) (λ bytes.
        PrintsRun wanted.entry.options bytes (O.contents out.old) (O.contents out.new))) }
{
    let checked = Checked::of(rt.alloc(), wanted.options)?;
    let bytes = read_file(rt, wanted.file, input)?;
    run_bytes(rt, &checked, bytes.as_slice(), out, err)
}

/// Does what the command says, where that is a run.
fn run<'a, R, I: Read, O: Write, E: Write>(
    rt: &R,
    command: Command<'a>,
    input: &mut I,
    out: &mut O,
    err: &mut E,
) -> Result<(), Fault<'a>>
where
    R: Files + Wait + Threads + Clock + RandomSource + AllocGlobal + Sync,
    R: Net<Listener = TcpListener, Stream = TcpStream>,
    ensures { Looks command.entry result }
{
    match command {
        Command::Run(wanted) => run_file(rt, wanted, input, out, err),
        Command::Pack(_) | Command::Replay(_) | Command::Send => Err(Fault::Elsewhere),
    }
}

/// The program at these words, of which the first is its name; the result is its status. What is the command of another program does
/// not end well.
pub fn kprod_with<R, S: AsStr, I: Read, O: Write, E: Write>(
    rt: &R,
    words: &[S],
    input: &mut I,
    out: &mut O,
    err: &mut E,
) -> u8
where
    R: Files + Wait + Threads + Clock + RandomSource + AllocGlobal + Sync,
    R: Net<Listener = TcpListener, Stream = TcpStream>,
    ensures packs_nothing { AskToPackInput (map S.text words.now) → result ≢ DONE }
    ensures replays_nothing { AskToReplayInput (map S.text words.now) → result ≢ DONE }
    ensures sends_nothing { (rows : List Row) → AskToSend (map S.text words.now) rows → result ≢ DONE }
{
    match command_of(rt.alloc(), words) {
        Err(error) => refuse(&error, out, err),
        Ok(command) => match run(rt, command, input, out, err) {
            Ok(()) => DONE,
            Err(fault) => fail(fault, err),
        },
    }
}
