//! What `run` takes, as clap sees it.

ghost use Rattle.std.specs.Prelude.{◌≡◌, IfOk};
ghost use Rattle.clap.specs.Words.{app_of};
ghost use Rattle.kp_command_line.specs.OptionRules.{Adds, IsLocal, TakesAlso};
ghost use Rattle.kp_command_line.specs.RunCommand.{broker_rule, run_app, with_batching, with_broker, with_flags, with_topic};

use crate::option_rules::{text, with_flag, with_number, with_required_text, with_text};
use clap::Command;
use std::alloc::{AllocError, Global};

/// The topic, its partitions and the threads.
fn with_topic<'a>(alloc: Global, command: Command<'a>) -> Result<Command<'a>, AllocError>
    ensures { IfOk result (TakesAlso with_topic command.entry) }
{
    let file = "The file whose lines are sent; - is the standard input";
    let command = with_required_text(alloc, command, "file", "FILE", file)?;
    let topic = "The topic; t where none is said";
    let command = with_text(alloc, command, "topic", "TOPIC", topic)?;
    let partitions = "How many partitions the topic has";
    let command = with_number(alloc, command, "partitions", 1, 1024, partitions)?;
    let senders = "How many threads send: line K is of sender K mod N";
    with_number(alloc, command, "senders", 1, 64, senders)
}

/// How records are batched and sent.
fn with_batching<'a>(alloc: Global, command: Command<'a>) -> Result<Command<'a>, AllocError>
    ensures { IfOk result (TakesAlso with_batching command.entry) }
{
    let command = with_number(alloc, command, "batch-size", 0, u64::MAX, "batch.size")?;
    let command = with_number(alloc, command, "linger", 0, u64::MAX, "linger.ms")?;
    let timeout = "request.timeout.ms";
    let command = with_number(alloc, command, "request-timeout", 0, u64::MAX, timeout)?;
    let window = "max.in.flight.requests.per.connection";
    let command = with_number(alloc, command, "max-in-flight", 0, u64::MAX, window)?;
    let limit = "How many records an id is used for";
    with_number(alloc, command, "sequence-limit", 0, u64::MAX, limit)
}

/// Adds the broker, where it is none of the process's own.
fn with_address<'a>(alloc: Global, command: Command<'a>) -> Result<Command<'a>, AllocError>
    ensures { IfOk result (Adds broker_rule command.entry) }
{
    let address = text(alloc, "broker", "IP:PORT", "A broker that listens there");
    let address = address.conflicts_with("fault")?;
    command.arg(address)
}

/// Which broker, and what it does.
fn with_broker<'a>(alloc: Global, command: Command<'a>) -> Result<Command<'a>, AllocError>
    ensures { IfOk result (TakesAlso with_broker command.entry) }
{
    let flush = "A flush after so many records of a sender";
    let command = with_number(alloc, command, "flush-every", 1, 1_000_000, flush)?;
    let plan = "What the process's broker does in place of an answer: N=ACTION, ..";
    let command = with_text(alloc, command, "fault", "PLAN", plan)?;
    with_address(alloc, command)
}

/// What the lines are, and what is printed.
fn with_flags<'a>(alloc: Global, command: Command<'a>) -> Result<Command<'a>, AllocError>
    ensures { IfOk result (TakesAlso with_flags command.entry) }
{
    let keyed = "A line's text before its first tab is its key";
    let command = with_flag(alloc, command, "keyed", keyed)?;
    let audit = "Prints which records were handed over, in order";
    let command = with_flag(alloc, command, "audit", audit)?;
    with_flag(alloc, command, "totals", "Prints the last line alone")
}

/// What sends.
pub(crate) fn run_command<'a>(alloc: Global) -> Result<Command<'a>, AllocError>
    ensures app { IfOk result (λ command. app_of command ≡ run_app) }
    ensures local { IfOk result IsLocal }
{
    let command = Command::new(alloc, "run").about(
        "Sends lines to a broker, and prints what became of each. Where ten new connections were made, and the last is lost too, \
         it is given up, and so are the lines that have no answer",
    );
    let command = with_topic(alloc, command)?;
    let command = with_batching(alloc, command)?;
    let command = with_broker(alloc, command)?;
    with_flags(alloc, command)
}
