//! What a run is to be.

ghost use Rattle.std.specs.Prelude.{◌≡◌, ◌≤◌, unwrap_or};
ghost use Rattle.kp_options.specs.declared.options.TheConstants.{PARTITION_LIMIT, SENDER_LIMIT};

use crate::place::Place;
use kp_accum::Config;

/// The most partitions of a topic.
pub const PARTITION_LIMIT: u32 = 1024;

/// The most senders.
pub const SENDER_LIMIT: u32 = 64;

/// What a run is to be.
#[derive(Clone, Copy, Debug)]
pub struct Options<'a> {
    pub topic: &'a str,
    /// How many partitions the topic is to have, 1 to 1024. A broker of this process has one where none is said.
    pub partitions: Option<u32>,
    /// How many senders there are, 1 to 64.
    pub senders: u32,
    pub config: Config,
    pub place: Place<'a>,
    /// Whether the text before a line's first tab is its record's key.
    pub keyed: bool,
    /// Whether a list of the records that were handed over is kept.
    pub audits: bool,
    /// After how many accepted records a sender asks for a flush, at least 1.
    pub flush_every: Option<u64>,
    /// Whether the last line is printed alone.
    pub totals: bool,
    ghost some_senders: { (1 ≤ senders) × (senders ≤ SENDER_LIMIT) },
    ghost some_partitions: { (1 ≤ unwrap_or partitions 1) × (unwrap_or partitions 1 ≤ PARTITION_LIMIT) },
    ghost some_records: { 1 ≤ unwrap_or flush_every 1 },
}

impl Options<'_> {
    ghost use Rattle.kp_options.specs.Places.{expected_partitions};

    /// How many partitions a broker of this process has.
    pub fn own_partitions(&self) -> u32
        ensures { result ≡ unwrap_or self.now.partitions 1 }
    {
        self.partitions.unwrap_or(1)
    }

    /// How many partitions the topic is to have, where it is said or the broker is one of this process.
    pub fn expected_partitions(&self) -> Option<u32>
        ensures { result ≡ expected_partitions self.now.place self.now.partitions }
    {
        match self.place {
            Place::Here(_) => Some(self.own_partitions()),
            Place::At(_) => self.partitions,
        }
    }
}
