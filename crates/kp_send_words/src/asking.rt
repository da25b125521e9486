//! What a call asks to be sent.

ghost use Rattle.std.specs.Prelude.{◌≡◌, Some, List, IfOk, MatchResult, codes, map};
ghost use Rattle.clap.specs.Words.{Row, app_of, subcommand_rows_of};
ghost use Rattle.kp_command_line.specs.OptionWords.{rows_in};
ghost use Rattle.kp_send_words.specs.Asking.{AskToSend, RefusesSend, sending_app};
ghost use Rattle.kp_send_words.specs.SendWords.{AsksForSend};

use crate::send_command::send_command;
use crate::send_words::{headers_of, sending_of};
use crate::sending::Sending;
use clap::error::ErrorKind;
use clap::{ArgMatches, Command, Error};
use kp_command_line::bare_program;
use std::alloc::{AllocError, Global};
use std::convert::AsStr;

/// The program, as far as it sends.
fn program<'a>(alloc: Global) -> Result<Command<'a>, AllocError>
    ensures { IfOk result (λ command. app_of command ≡ sending_app) }
{
    let send = send_command(alloc)?;
    bare_program(alloc).subcommand(send)
}

/// What `send` is asked for by its matches.
fn sending_in<'a>(alloc: Global, matches: &ArgMatches<'a>) -> Result<Sending<'a>, Error>
    ensures { MatchResult result (AsksForSend (rows_in matches.now)) (RefusesSend (rows_in matches.now)) }
{
    let headers = headers_of(alloc, matches)?;
    match sending_of(matches, headers) {
        Ok(sending) => Ok(sending),
        Err(message) => Err(program(alloc)?.error(ErrorKind::ValueValidation, message)?),
    }
}

/// What `send` is asked for, where the matches are its own.
fn sending_of_its<'a>(alloc: Global, matches: &ArgMatches<'a>) -> Result<Sending<'a>, Error>
    ensures { (rows : List Row) → subcommand_rows_of matches.now ≡ Some (codes "send", rows)
        → MatchResult result (AsksForSend rows) (RefusesSend rows) }
{
    match matches.subcommand_matches("send") {
        Some(matches) => sending_in(alloc, matches),
        None => Err(program(alloc)?.error(ErrorKind::MissingSubcommand, "`send` is missing")?),
    }
}

/// What the words ask to be sent; the first is the program's name, and the second `send`.
pub fn sending_asked<'a, S: AsStr>(alloc: Global, words: &'a [S]) -> Result<Sending<'a>, Error>
    ensures { (rows : List Row) → AskToSend (map S.text words.entry.now) rows
        → MatchResult result (AsksForSend rows) (RefusesSend rows) }
{
    let program = program(alloc)?;
    let matches = program.try_get_matches_from(words)?;
    sending_of_its(alloc, &matches)
}
