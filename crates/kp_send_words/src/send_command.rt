//! What `send` takes, as clap sees it.

ghost use Rattle.std.specs.Prelude.{◌≡◌, false, IfOk};
ghost use Rattle.clap.specs.Words.{app_of, rule_of};
ghost use Rattle.kp_command_line.specs.OptionRules.{IsLocal, TakesAlso};
ghost use Rattle.kp_send_words.specs.SendCommand.{lines_rule, send_app, with_batches, with_connections, with_files, with_lines, with_place, with_progress, with_requests};

use clap::{Arg, Command};
use kp_command_line::option_rules::{
    with_flag, with_number, with_repeated_text, with_required_text, with_setting, with_text,
};
use std::alloc::{AllocError, Global};

/// The most seconds that an option takes: ten years.
const LONGEST: u64 = 315_360_000;

/// The file, which is no option.
fn lines<'a>(alloc: Global) -> Arg<'a>
    ensures rule { rule_of result ≡ lines_rule }
    ensures local { result.global ≡ false }
{
    Arg::new(alloc, "file").value_name("FILE").help(
        "The file whose lines are sent; - is the standard input, which is also taken where no file is said",
    )
}

/// Which lines go where.
fn with_place<'a>(alloc: Global, command: Command<'a>) -> Result<Command<'a>, AllocError>
    ensures { IfOk result (TakesAlso with_place command.entry) }
{
    let command = command.arg(lines(alloc))?;
    let brokers =
        "One broker of the cluster or more, of which the first that answers names the others";
    let command = with_required_text(alloc, command, "broker", "HOST:PORT[,HOST:PORT..]", brokers)?;
    let topic = "The topic";
    let command = with_required_text(alloc, command, "topic", "TOPIC", topic)?;
    let config =
        "Settings by Kafka's names, a line NAME=VALUE each, which count where no word says another";
    with_text(alloc, command, "config", "FILE", config)
}

/// How a line is made into a record.
fn with_lines<'a>(alloc: Global, command: Command<'a>) -> Result<Command<'a>, AllocError>
    ensures { IfOk result (TakesAlso with_lines command.entry) }
{
    let partition = "The one partition of all lines";
    let command = with_number(alloc, command, "partition", 0, 2_147_483_647, partition)?;
    let delimiter =
        "What ends a line: one ASCII character, or \\n, \\r, \\t, \\0, or \\x and two hexadecimal digits; \\n where none is said";
    let command = with_text(alloc, command, "delimiter", "BYTE", delimiter)?;
    let between = "A line's text before the first such text is its key; a line without it has none";
    let command = with_text(alloc, command, "key-delimiter", "TEXT", between)?;
    let nulls = "A value without a byte is Kafka's null";
    let command = with_flag(alloc, command, "null-values", nulls)?;
    let header = "A header of each record; may be said again";
    with_repeated_text(alloc, command, "header", "NAME=VALUE", header)
}

/// Where it is told what became of lines.
fn with_files<'a>(alloc: Global, command: Command<'a>) -> Result<Command<'a>, AllocError>
    ensures { IfOk result (TakesAlso with_files command.entry) }
{
    let undelivered = "Gets the lines that were not delivered, to be sent again";
    let command = with_text(alloc, command, "undelivered", "FILE", undelivered)?;
    let unknown = "Gets the lines of which it is not known whether they were delivered";
    let command = with_text(alloc, command, "unknown", "FILE", unknown)?;
    let offsets = "Gets the partition and the offset of each line that was delivered";
    with_text(alloc, command, "offsets", "FILE", offsets)
}

/// What is told of its progress, and how long it may take.
fn with_progress<'a>(alloc: Global, command: Command<'a>) -> Result<Command<'a>, AllocError>
    ensures { IfOk result (TakesAlso with_progress command.entry) }
{
    let quiet = "Tells a terminal nothing of how far it has come";
    let command = with_flag(alloc, command, "quiet", quiet)?;
    let statistics =
        "Each so many seconds a line of JSON on standard output tells how far it has come";
    let command = with_number(alloc, command, "statistics", 1, LONGEST, statistics)?;
    let longest =
        "After so many seconds it is given up; lines that were sent and have no answer are unknown then";
    with_number(alloc, command, "give-up-after", 1, LONGEST, longest)
}

/// How records are batched.
fn with_batches<'a>(alloc: Global, command: Command<'a>) -> Result<Command<'a>, AllocError>
    ensures { IfOk result (TakesAlso with_batches command.entry) }
{
    let batch = "With how many bytes a batch is full; 16384 where none is said";
    let command = with_setting(alloc, command, "batch.size", "batch-size", batch)?;
    let linger = "How long a batch that is not full waits for more lines; 0 where none is said";
    let command = with_setting(alloc, command, "linger.ms", "linger", linger)?;
    let memory =
        "How many bytes the records may have of which nothing was told; 33554432 where none is said";
    let command = with_number(alloc, command, "buffer.memory", 0, u64::MAX, memory)?;
    let most = "How many bytes the batches of a request may have; 1048576 where none is said";
    with_number(alloc, command, "max.request.size", 0, u64::MAX, most)
}

/// How requests are sent, and sent again.
fn with_requests<'a>(alloc: Global, command: Command<'a>) -> Result<Command<'a>, AllocError>
    ensures { IfOk result (TakesAlso with_requests command.entry) }
{
    let window = "How many requests wait for their responses at once; 5 where none is said";
    let command = with_setting(
        alloc,
        command,
        "max.in.flight.requests.per.connection",
        "max-in-flight",
        window,
    )?;
    let timeout = "How long a request waits for its response; 30000 where none is said";
    let command = with_setting(
        alloc,
        command,
        "request.timeout.ms",
        "request-timeout",
        timeout,
    )?;
    let delivery = "How long a batch has until it is delivered; 120000 where none is said";
    let command = with_number(alloc, command, "delivery.timeout.ms", 0, u64::MAX, delivery)?;
    let backoff = "How long a batch waits before it is sent again; 100 where none is said";
    with_number(alloc, command, "retry.backoff.ms", 0, u64::MAX, backoff)
}

/// How brokers are met.
fn with_connections<'a>(alloc: Global, command: Command<'a>) -> Result<Command<'a>, AllocError>
    ensures { IfOk result (TakesAlso with_connections command.entry) }
{
    let client = "What brokers know this client by; kprod where none is said";
    let command = with_text(alloc, command, "client.id", "NAME", client)?;
    let backoff = "How long a broker that was lost is left alone; 50 where none is said";
    let command = with_number(alloc, command, "reconnect.backoff.ms", 0, u64::MAX, backoff)?;
    let most = "How long at most, where it is lost again and again; 1000 where none is said";
    let command = with_number(
        alloc,
        command,
        "reconnect.backoff.max.ms",
        0,
        u64::MAX,
        most,
    )?;
    let age = "After how long the brokers are asked again who leads; 300000 where none is said";
    let command = with_number(alloc, command, "metadata.max.age.ms", 0, u64::MAX, age)?;
    let setup = "How long a connection may take until it stands; 10000 where none is said";
    with_number(
        alloc,
        command,
        "socket.connection.setup.timeout.ms",
        0,
        u64::MAX,
        setup,
    )
}

/// What sends to a cluster.
pub(crate) fn send_command<'a>(alloc: Global) -> Result<Command<'a>, AllocError>
    ensures app { IfOk result (λ command. app_of command ≡ send_app) }
    ensures local { IfOk result IsLocal }
{
    let command = Command::new(alloc, "send")
        .about(
            "Sends lines to a topic of a Kafka cluster, each once and in order, as they come. \
             Times are in milliseconds",
        )
        .after_help(
            "Examples:\n  \
             kprod send --broker localhost:9092 --topic events events.txt\n  \
             tail -f app.log | kprod send --broker a:9092,b:9092 --topic logs\n  \
             kprod send --broker localhost:9092 --topic orders --key-delimiter : --undelivered rest.txt orders.txt",
        );
    let command = with_place(alloc, command)?;
    let command = with_lines(alloc, command)?;
    let command = with_files(alloc, command)?;
    let command = with_progress(alloc, command)?;
    let command = with_batches(alloc, command)?;
    let command = with_requests(alloc, command)?;
    with_connections(alloc, command)
}
