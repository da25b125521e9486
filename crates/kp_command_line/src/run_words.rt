//! The words of `run`, by clap.

ghost use Rattle.std.specs.Prelude.{◌≡◌, ◌≤◌, List, Some, None, codes, unwrap_or, IfOk, IfSome, MatchOption, MatchResult};
ghost use Rattle.clap.specs.Words.{Row, first_of, one_of, subcommand_name_of, subcommand_rows_of};
ghost use Rattle.kp_command_line.specs.OptionWords.{IsSaid, IsSaidOr, rows_in};
ghost use Rattle.kp_command_line.specs.RunWords.{AsksFor, AsksForConfig, AsksForPlace, AsksForRun, IsRefused};

use crate::broker_words::address_of;
use crate::option_words::{flag_of, number_of, number_or, small_number_of};
use clap::ArgMatches;
use kp_accum::Config;
use kp_options::{Options, PARTITION_LIMIT, Place, SENDER_LIMIT};

/// What `run` is asked to do.
#[derive(Clone, Copy, Debug)]
pub struct Wanted<'a> {
    /// `-` is the standard input.
    pub file: &'a str,
    pub options: Options<'a>,
}

/// The configuration that the words ask for.
fn config_of(matches: &ArgMatches<'_>) -> Config
    ensures { AsksForConfig (rows_in matches.now) result }
{
    let usual = Config::default();
    Config {
        batch_size: number_or(matches, "batch-size", usual.batch_size),
        linger_ms: number_or(matches, "linger", usual.linger_ms),
        request_timeout_ms: number_or(matches, "request-timeout", usual.request_timeout_ms),
        max_in_flight_requests_per_connection: number_or(
            matches,
            "max-in-flight",
            usual.max_in_flight_requests_per_connection,
        ),
        sequence_limit: number_or(matches, "sequence-limit", usual.sequence_limit),
        ..usual
    }
}

/// Where the words say that the broker is.
fn place_of<'a>(matches: &ArgMatches<'a>) -> Result<Place<'a>, &'static str>
    ensures { MatchResult result (AsksForPlace (rows_in matches.now)) (λ _. IsRefused (rows_in matches.now)) }
{
    match matches.get_str("broker") {
        None => Ok(Place::Here(matches.get_str("fault"))),
        Some(word) => {
            match address_of(word) {
                Some(address) => Ok(Place::At(address)),
                None => Err("a broker is named by IP:PORT, as 127.0.0.1:9092 or [::1]:9092"),
            }
        }
    }
}

/// How many partitions the words ask for. Clap has refused numbers out of range.
fn partitions_of(matches: &ArgMatches<'_>) -> Result<Option<u32>, &'static str>
    ensures limits { IfOk result (λ said. (1 ≤ unwrap_or said 1) × (unwrap_or said 1 ≤ PARTITION_LIMIT)) }
    ensures said { MatchResult result (λ said. IsSaid 32 (one_of (codes "partitions") (rows_in matches.now)) said) (λ _. IsRefused (rows_in matches.now)) }
{
    match small_number_of(matches, "partitions") {
        Some(partitions) if partitions < 1 || partitions > PARTITION_LIMIT => Err(
            "a topic has 1 to 1024 partitions",
        ),
        said => Ok(said),
    }
}

/// How many senders the words ask for. Clap has refused numbers out of range.
fn senders_of(matches: &ArgMatches<'_>) -> Result<u32, &'static str>
    ensures limits { IfOk result (λ senders. (1 ≤ senders) × (senders ≤ SENDER_LIMIT)) }
    ensures said { MatchResult result (λ senders. IsSaidOr 32 (one_of (codes "senders") (rows_in matches.now)) 1 senders) (λ _. IsRefused (rows_in matches.now)) }
{
    match small_number_of(matches, "senders") {
        None => Ok(1),
        Some(senders) if senders >= 1 && senders <= SENDER_LIMIT => Ok(senders),
        Some(_) => Err("there are 1 to 64 senders"),
    }
}

/// After how many records the words ask for a flush. Clap has refused numbers out of range.
fn flush_of(matches: &ArgMatches<'_>) -> Result<Option<u64>, &'static str>
    ensures limits { IfOk result (λ said. 1 ≤ unwrap_or said 1) }
    ensures said { MatchResult result (λ said. IsSaid 64 (one_of (codes "flush-every") (rows_in matches.now)) said) (λ _. IsRefused (rows_in matches.now)) }
{
    match number_of(matches, "flush-every") {
        Some(0) => Err("a flush comes after a record at least"),
        said => Ok(said),
    }
}

/// What the words ask for, or why they can't be meant.
fn options_of<'a>(matches: &ArgMatches<'a>) -> Result<Options<'a>, &'static str>
    ensures { MatchResult result (AsksFor (rows_in matches.now)) (λ _. IsRefused (rows_in matches.now)) }
{
    Ok(Options {
        topic: matches.get_str("topic").unwrap_or("t"),
        partitions: partitions_of(matches)?,
        senders: senders_of(matches)?,
        config: config_of(matches),
        place: place_of(matches)?,
        keyed: flag_of(matches, "keyed"),
        audits: flag_of(matches, "audit"),
        flush_every: flush_of(matches)?,
        totals: flag_of(matches, "totals"),
    })
}

/// What the words ask for, where they ask for a run; or why they can't be meant.
pub(crate) fn wanted_of<'a>(matches: &ArgMatches<'a>) -> Option<Result<Wanted<'a>, &'static str>>
    ensures run { (rows : List Row) → subcommand_rows_of matches.now ≡ Some (codes "run", rows)
        → MatchOption result (first_of (codes "file") rows ≡ None) (λ answer. MatchResult answer (AsksForRun rows) (λ _. IsRefused rows)) }
    ensures its { IfSome result (λ _. subcommand_name_of matches.now ≡ Some (codes "run")) }
{
    let matches = matches.subcommand_matches("run")?;
    let file = matches.get_str("file")?;
    match options_of(matches) {
        Ok(options) => Some(Ok(Wanted { file, options })),
        Err(message) => Some(Err(message)),
    }
}
