//! What `send` is asked to do.

ghost use Rattle.std.specs.Prelude.{◌<◌, ◌≤◌, length, unwrap_or};
ghost use Rattle.std.specs.Option.{ForSome};
ghost use Rattle.kp_send_words.specs.declared.sending.TheConstants.{LAST_PARTITION};

use kp_accum::Config;

/// The last partition that Kafka numbers: an int32 has it.
pub const LAST_PARTITION: u32 = 2_147_483_647;

/// What `send` is asked to do. Times are in milliseconds.
#[derive(Debug, Drop)]
pub struct Sending<'a> {
    /// `-` is the standard input, which is also taken where no file is said.
    pub file: &'a str,
    /// `HOST:PORT[,HOST:PORT..]`, as it was said.
    pub brokers: &'a str,
    pub topic: &'a str,
    /// `client.id`.
    pub client: &'a str,
    pub config: Config,
    /// `reconnect.backoff.ms`.
    pub reconnect_backoff_ms: u64,
    /// `reconnect.backoff.max.ms`.
    pub reconnect_backoff_max_ms: u64,
    /// `metadata.max.age.ms`.
    pub metadata_max_age_ms: u64,
    /// `socket.connection.setup.timeout.ms`.
    pub setup_timeout_ms: u64,
    /// The one partition of all lines, where one is said.
    pub partition: Option<u32>,
    /// What ends a line.
    pub delimiter: u8,
    /// What stands between a line's key and its value, where lines have keys. It is not empty.
    pub key_delimiter: Option<&'a str>,
    /// Whether a value without a byte is Kafka's null.
    pub null_values: bool,
    /// `NAME=VALUE`, each, with a name that is not empty.
    pub headers: Vec<&'a str>,
    /// The file for the lines that were not delivered, where one is said.
    pub undelivered: Option<&'a str>,
    /// The file for the lines of which it is not known, where one is said.
    pub unknown: Option<&'a str>,
    /// The file for the places of the lines that were delivered, where one is said.
    pub offsets: Option<&'a str>,
    /// Whether a terminal is told nothing of how far it has come.
    pub quiet: bool,
    /// Each so many seconds it is told how far it has come, where it is said.
    pub statistics: Option<u64>,
    /// After so many seconds it is given up, where it is said.
    pub give_up_after: Option<u64>,
    ghost some_partition: { unwrap_or partition 0 ≤ LAST_PARTITION },
    ghost some_key_delimiter: { ForSome key_delimiter (λ text. 0 < length text.now) },
}
