//! The program, over any streams.

ghost use Rattle.std.specs.Prelude.{◌≡◌, ◌≢◌, IfSome, List, OnOk, codes, map};
ghost use Rattle.std.specs.Io.KnownBytes.{Appends};
ghost use Rattle.clap.specs.Words.{Row};
ghost use Rattle.kp_command_line.specs.CommandLine.{AskToPackInput, AskToReplayInput, AskToSend, Packs};
ghost use Rattle.kp_packing.specs.Packed.{packed_text};
ghost use Rattle.kp_program.specs.Lines.{lines};
ghost use Rattle.kprod_pack.specs.Others.{LeavesOthers};

use crate::fault::{Fault, put_fault};
use kp_command_line::{Command, command_of};
use kp_packing::pack;
use kp_program::{DONE, FAULT, USAGE, read_file, refuse, write_whole};
use std::convert::AsStr;
use std::io::{Read, Write};
use std::rt::Files;

/// Tells a fault. Nothing is made of an `err` that fails.
fn fail<E: Write>(fault: Fault<'_>, err: &mut E) -> u8
    ensures { result ≢ DONE }
{
    let _ = put_fault(err, fault);
    match fault {
        Fault::Elsewhere => USAGE,
        _ => FAULT,
    }
}

/// Packs a file's lines.
fn pack_file<'a, R: Files + AllocGlobal, I: Read, O: Write>(
    rt: &R,
    file: &'a str,
    input: &mut I,
    out: &mut O,
) -> Result<(), Fault<'a>>
    ensures input { file.entry.now ≡ codes "-"
        → OnOk result (IfSome (I.remaining input.old) (λ bytes.
        Appends (O.contents out.old) (O.contents out.new) (packed_text (lines bytes)))) }
{
    let bytes = read_file(rt, file, input)?;
    let text = pack(rt.alloc(), bytes.as_slice())?;
    match write_whole(out, text.as_slice()) {
        Ok(()) => Ok(()),
        Err(_) => Err(Fault::CannotWrite),
    }
}

/// Does what the command says, where that is to pack.
fn run<'a, R: Files + AllocGlobal, I: Read, O: Write>(
    rt: &R,
    command: Command<'a>,
    input: &mut I,
    out: &mut O,
) -> Result<(), Fault<'a>>
    ensures input { Packs (codes "-") command.entry
        → OnOk result (IfSome (I.remaining input.old) (λ bytes.
        Appends (O.contents out.old) (O.contents out.new) (packed_text (lines bytes)))) }
    ensures others { LeavesOthers command.entry result }
{
    match command {
        Command::Pack(file) => pack_file(rt, file, input, out),
        Command::Replay(_) | Command::Run(_) | Command::Send => Err(Fault::Elsewhere),
    }
}

/// The program at these words, of which the first is its name; the result is its status. What is the command of another program does
/// not end well.
pub fn pack_with<R: Files + AllocGlobal, S: AsStr, I: Read, O: Write, E: Write>(
    rt: &R,
    words: &[S],
    input: &mut I,
    out: &mut O,
    err: &mut E,
) -> u8
    ensures packs_input { AskToPackInput (map S.text words.now) → result ≡ DONE
        → IfSome (I.remaining input.old) (λ bytes.
        Appends (O.contents out.old) (O.contents out.new) (packed_text (lines bytes))) }
    ensures replays_nothing { AskToReplayInput (map S.text words.now) → result ≢ DONE }
    ensures sends_nothing { (rows : List Row) → AskToSend (map S.text words.now) rows → result ≢ DONE }
{
    match command_of(rt.alloc(), words) {
        Err(error) => refuse(&error, out, err),
        Ok(command) => match run(rt, command, input, out) {
            Ok(()) => DONE,
            Err(fault) => fail(fault, err),
        },
    }
}
