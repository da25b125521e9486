//! The program's commands, as clap sees them.

ghost use Rattle.std.specs.Prelude.{◌≡◌, IfOk};
ghost use Rattle.clap.specs.Words.{app_of};
ghost use Rattle.kp_command_line.specs.Commands.{HasAlso, bare_app, file_rule, kprod_app, pack_app, replay_app, send_app};
ghost use Rattle.kp_command_line.specs.OptionRules.{Adds, IsLocal};
ghost use Rattle.kp_command_line.specs.RunCommand.{run_app};

use crate::run_command::run_command;
use clap::{Arg, Command};
use std::alloc::{AllocError, Global};

/// Adds the file, which has to be said.
fn with_file<'a>(
    alloc: Global,
    command: Command<'a>,
    help: &'a str,
) -> Result<Command<'a>, AllocError>
    ensures { IfOk result (Adds file_rule command.entry) }
{
    let file = Arg::new(alloc, "file").value_name("FILE").help(help);
    command.arg(file.required(true))
}

/// Adds what packs.
fn with_pack<'a>(alloc: Global, program: Command<'a>) -> Result<Command<'a>, AllocError>
    ensures { IfOk result (HasAlso pack_app program.entry) }
{
    let pack = Command::new(alloc, "pack").about(
        "Packs lines into one record batch and offers it twice to a partition log",
    );
    let help = "The file whose lines are packed; - is the standard input";
    let pack = with_file(alloc, pack, help)?;
    program.subcommand(pack)
}

/// Adds what replays.
fn with_replay<'a>(alloc: Global, program: Command<'a>) -> Result<Command<'a>, AllocError>
    ensures { IfOk result (HasAlso replay_app program.entry) }
{
    let replay = Command::new(alloc, "replay").about(
        "Replays a schedule of sends, losses, repeats and replies, and prints what comes of it",
    );
    let help = "The file with the schedule; - is the standard input";
    let replay = with_file(alloc, replay, help)?;
    program.subcommand(replay)
}

/// Adds what runs senders.
fn with_run<'a>(alloc: Global, program: Command<'a>) -> Result<Command<'a>, AllocError>
    ensures { IfOk result (HasAlso run_app program.entry) }
{
    let run = run_command(alloc)?;
    program.subcommand(run)
}

/// What sends, which is a program of its own that knows its options.
fn send_command<'a>(alloc: Global) -> Command<'a>
    ensures app { app_of result ≡ send_app }
    ensures local { IsLocal result }
{
    Command::new(alloc, "send").about(
        "Sends lines to a topic of a Kafka cluster, each once and in order, as they come",
    )
}

/// The program with no command.
pub fn bare_program<'a>(alloc: Global) -> Command<'a>
    ensures { app_of result ≡ bare_app }
{
    Command::new(alloc, "kprod")
        .about("Publishes lines to a Kafka broker, each once and in order")
        .subcommand_required(true)
        .disable_help_subcommand(true)
}

/// The program's commands and what they take.
pub(crate) fn kprod<'a>(alloc: Global) -> Result<Command<'a>, AllocError>
    ensures { IfOk result (λ command. app_of command ≡ kprod_app) }
{
    let program = with_pack(alloc, bare_program(alloc))?;
    let program = with_replay(alloc, program)?;
    let program = with_run(alloc, program)?;
    let send = send_command(alloc);
    program.subcommand(send)
}
