//! The words of `send`, by clap.

ghost use Rattle.std.specs.Prelude.{◌≡◌, ◌<◌, ◌≤◌, Some, None, [], codes, length, map, unwrap_or, false, true, IfOk, MatchBool, MatchResult};
ghost use Rattle.std.specs.List.{list_all};
ghost use Rattle.std.specs.Option.{ForSome};
ghost use Rattle.clap.specs.Words.{first_of, one_of};
ghost use Rattle.kp_send_words.specs.DelimiterWords.{is_header};
ghost use Rattle.kp_command_line.specs.OptionWords.{IsSaid, rows_in, text_said};
ghost use Rattle.kp_send_words.specs.SendWords.{AsksForSend, AsksForSettings, IsDelimiter, IsPastPartitions, IsRefusedSend, NamesNoByte, headers_said};

use crate::delimiter_words::{byte_named, is_header};
use crate::sending::{LAST_PARTITION, Sending};
use clap::ArgMatches;
use kp_accum::Config;
use kp_command_line::option_words::{flag_of, number_of, number_or, small_number_of};
use std::alloc::{AllocError, Global};

/// The text of an option that has to be there, or this message. Clap has refused words without it.
fn text_of<'a>(
    matches: &ArgMatches<'a>,
    name: &str,
    message: &'static str,
) -> Result<&'a str, &'static str>
    ensures { MatchResult result (λ text. first_of name.now (rows_in matches.now) ≡ Some text.now) (λ _. first_of name.now (rows_in matches.now) ≡ None) }
{
    match matches.get_str(name) {
        Some(text) => Ok(text),
        None => Err(message),
    }
}

/// The configuration that the words ask for.
fn settings_of(matches: &ArgMatches<'_>) -> Config
    ensures { AsksForSettings (rows_in matches.now) result }
{
    let usual = Config::default();
    Config {
        batch_size: number_or(matches, "batch.size", usual.batch_size),
        linger_ms: number_or(matches, "linger.ms", usual.linger_ms),
        buffer_memory: number_or(matches, "buffer.memory", usual.buffer_memory),
        max_request_size: number_or(matches, "max.request.size", usual.max_request_size),
        request_timeout_ms: number_or(matches, "request.timeout.ms", usual.request_timeout_ms),
        delivery_timeout_ms: number_or(matches, "delivery.timeout.ms", usual.delivery_timeout_ms),
        retry_backoff_ms: number_or(matches, "retry.backoff.ms", usual.retry_backoff_ms),
        max_in_flight_requests_per_connection: number_or(
            matches,
            "max.in.flight.requests.per.connection",
            usual.max_in_flight_requests_per_connection,
        ),
        sequence_limit: usual.sequence_limit,
    }
}

/// The partition that the words say. Clap has refused numbers out of range.
fn partition_of(matches: &ArgMatches<'_>) -> Result<Option<u32>, &'static str>
    ensures limit { IfOk result (λ said. unwrap_or said 0 ≤ LAST_PARTITION) }
    ensures said { MatchResult result (λ said. IsSaid 32 (one_of (codes "partition") (rows_in matches.now)) said) (λ _. IsPastPartitions (rows_in matches.now)) }
{
    match small_number_of(matches, "partition") {
        Some(partition) if partition > LAST_PARTITION => Err(
            "a partition is a number from 0 to 2147483647",
        ),
        said => Ok(said),
    }
}

/// The byte that ends a line.
fn delimiter_of(matches: &ArgMatches<'_>) -> Result<u8, &'static str>
    ensures { MatchResult result (IsDelimiter (first_of (codes "delimiter") (rows_in matches.now))) (λ _. NamesNoByte (rows_in matches.now)) }
{
    match matches.get_str("delimiter") {
        None => Ok(b'\n'),
        Some(word) => {
            match byte_named(word) {
                Some(byte) => Ok(byte),
                None => Err(
                    "a delimiter is one ASCII character, or \\n, \\r, \\t, \\0, or \\x and two hexadecimal digits, as \\x1f",
                ),
            }
        }
    }
}

/// What stands between a key and a value, where it is said.
fn key_delimiter_of<'a>(matches: &ArgMatches<'a>) -> Result<Option<&'a str>, &'static str>
    ensures some { IfOk result (λ said. ForSome said (λ text. 0 < length text.now)) }
    ensures said { MatchResult result (λ said. text_said said ≡ first_of (codes "key-delimiter") (rows_in matches.now)) (λ _. first_of (codes "key-delimiter") (rows_in matches.now) ≡ Some []) }
{
    match matches.get_str("key-delimiter") {
        None => Ok(None),
        Some(text) => {
            if text.is_empty() {
                Err("a key's delimiter has a character or more")
            } else {
                Ok(Some(text))
            }
        }
    }
}

/// The words for headers, in their order.
pub(crate) fn headers_of<'a>(
    alloc: Global,
    matches: &ArgMatches<'a>,
) -> Result<Vec<&'a str>, AllocError>
    ensures { IfOk result (λ headers. map (λ header. header.now) headers.items ≡ headers_said (rows_in matches.now)) }
{
    match matches.get_strs("header") {
        Some(words) => Vec::from_slice(alloc, words),
        None => Ok(Vec::new(alloc)),
    }
}

/// Whether each word is that of a header.
fn are_headers(words: &[&str]) -> bool
    ensures { result ≡ list_all (λ word. is_header word.now) words.now }
{
    words.iter().all(|word| is_header(*word))
}

/// What the words ask for, with these headers, or why they can't be meant.
pub(crate) fn sending_of<'a>(
    matches: &ArgMatches<'a>,
    headers: Vec<&'a str>,
) -> Result<Sending<'a>, &'static str>
    requires { map (λ header. header.now) headers.items ≡ headers_said (rows_in matches.now) }
    ensures { MatchResult result (AsksForSend (rows_in matches.now)) (λ _. IsRefusedSend (rows_in matches.now)) }
{
    let brokers = text_of(matches, "broker", "a broker is missing")?;
    let topic = text_of(matches, "topic", "a topic is missing")?;
    let partition = partition_of(matches)?;
    let delimiter = delimiter_of(matches)?;
    let key_delimiter = key_delimiter_of(matches)?;
    if !are_headers(headers.as_slice()) {
        return Err("a header is NAME=VALUE, with a name that is not empty");
    }
    Ok(Sending {
        file: matches.get_str("file").unwrap_or("-"),
        brokers,
        topic,
        client: matches.get_str("client.id").unwrap_or("kprod"),
        config: settings_of(matches),
        reconnect_backoff_ms: number_or(matches, "reconnect.backoff.ms", 50),
        reconnect_backoff_max_ms: number_or(matches, "reconnect.backoff.max.ms", 1000),
        metadata_max_age_ms: number_or(matches, "metadata.max.age.ms", 300_000),
        setup_timeout_ms: number_or(matches, "socket.connection.setup.timeout.ms", 10_000),
        partition,
        delimiter,
        key_delimiter,
        null_values: flag_of(matches, "null-values"),
        headers,
        undelivered: matches.get_str("undelivered"),
        unknown: matches.get_str("unknown"),
        offsets: matches.get_str("offsets"),
        quiet: flag_of(matches, "quiet"),
        statistics: number_of(matches, "statistics"),
        give_up_after: number_of(matches, "give-up-after"),
    })
}
