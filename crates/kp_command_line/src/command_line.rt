//! The words of a call, by clap.

ghost use Rattle.std.specs.Prelude.{◌≡◌, Some, List, IfSome, MatchResult, codes, map, option_map};
ghost use Rattle.clap.specs.Words.{Row, first_of, kind_of, subcommand_name_of, subcommand_rows_of};
ghost use Rattle.kp_command_line.specs.CommandLine.{AskToPackInput, AskToReplayInput, AskToSend, Packs, Replays, Sends};

use crate::commands::kprod;
use crate::run_words::{Wanted, wanted_of};
use clap::error::ErrorKind;
use clap::{ArgMatches, Error};
use std::alloc::{AllocError, Global};
use std::convert::AsStr;

/// What the program is asked to do.
#[derive(Debug, Drop)]
pub enum Command<'a> {
    /// To pack the lines of this file; `-` is the standard input.
    Pack(&'a str),
    /// To replay the schedule of this file; `-` is the standard input.
    Replay(&'a str),
    /// To send the lines of a file, and to print what became of each.
    Run(Wanted<'a>),
    /// To send lines as they come, which is the work of a program of its own.
    Send,
}

/// The file of this command, where it is the one that the matches have.
fn file_of<'a>(matches: &ArgMatches<'a>, command: &str) -> Option<&'a str>
    ensures file { (rows : List Row) → subcommand_rows_of matches.now ≡ Some (command.now, rows)
        → option_map (λ s. s.now) result ≡ first_of (codes "file") rows }
    ensures its { IfSome result (λ _. subcommand_name_of matches.now ≡ Some command.now) }
{
    matches.subcommand_matches(command)?.get_str("file")
}

/// What tells why words are refused.
fn refusal(alloc: Global, kind: ErrorKind, message: &str) -> Result<Error, AllocError> {
    kprod(alloc)?.error(kind, message)
}

/// The run that the matches ask for, where they ask for one.
fn run_of<'a>(alloc: Global, matches: &ArgMatches<'a>) -> Result<Command<'a>, Error> {
    match wanted_of(matches) {
        Some(Ok(wanted)) => Ok(Command::Run(wanted)),
        Some(Err(message)) => Err(refusal(alloc, ErrorKind::ValueValidation, message)?),
        None => Err(refusal(alloc, ErrorKind::MissingSubcommand, "a FILE is missing")?),
    }
}

/// To send, where the matches are those of `send`, and else the run that they ask for.
fn sent_or_run<'a>(alloc: Global, matches: &ArgMatches<'a>) -> Result<Command<'a>, Error>
    ensures { (rows : List Row) → subcommand_rows_of matches.now ≡ Some (codes "send", rows)
        → MatchResult result Sends (λ e. kind_of e ≡ ErrorKind.OutOfMemory) }
{
    match matches.subcommand_matches("send") {
        Some(_) => Ok(Command::Send),
        None => run_of(alloc, matches),
    }
}

/// What the words ask for; the first is the program's name.
pub fn command_of<'a, S: AsStr>(alloc: Global, words: &'a [S]) -> Result<Command<'a>, Error>
    ensures input { AskToPackInput (map S.text words.entry.now)
        → MatchResult result (Packs (codes "-")) (λ e. kind_of e ≡ ErrorKind.OutOfMemory) }
    ensures schedule { AskToReplayInput (map S.text words.entry.now)
        → MatchResult result (Replays (codes "-")) (λ e. kind_of e ≡ ErrorKind.OutOfMemory) }
    ensures send { (rows : List Row) → AskToSend (map S.text words.entry.now) rows
        → MatchResult result Sends (λ e. kind_of e ≡ ErrorKind.OutOfMemory) }
{
    let program = kprod(alloc)?;
    let matches = program.try_get_matches_from(words)?;
    if let Some(file) = file_of(&matches, "pack") {
        return Ok(Command::Pack(file));
    }
    match file_of(&matches, "replay") {
        Some(file) => Ok(Command::Replay(file)),
        None => sent_or_run(alloc, &matches),
    }
}
