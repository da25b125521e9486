//! What is to be played.

ghost use Rattle.std.specs.Prelude.{◌≤◌, length};
ghost use Rattle.kp_cluster.specs.declared.learning.TheConstants.{SLOT_LIMIT};

use kp_bootstrap::read_addresses;
use kp_client::{Address, Policy, Settings};
use std::alloc::Global;
use std::net::SocketAddr;

/// Addresses of a cluster's brokers.
#[derive(Drop)]
pub(crate) struct Bootstrap {
    pub(crate) addresses: Vec<Address>,
    ghost some: { 1 ≤ length addresses.items },
    ghost few: { length addresses.items ≤ SLOT_LIMIT },
}

/// What a producer is opened over.
#[derive(Drop)]
pub(crate) enum Over {
    /// The broker at this address.
    One(SocketAddr),
    Cluster(Bootstrap),
}

impl Over {
    fn read(alloc: Global, word: &str) -> Option<Over> {
        match word.strip_prefix("cluster:") {
            Some(list) => {
                let addresses = read_addresses(alloc, list.as_bytes()).ok()?;
                Some(Over::Cluster(Bootstrap { addresses }))
            }
            None => Some(Over::One(word.parse().ok()?)),
        }
    }
}

/// What is to be played.
#[derive(Drop)]
pub(crate) struct Script<'a> {
    pub(crate) over: Over,
    pub(crate) settings: Settings,
    /// After how many milliseconds the service runs.
    pub(crate) late: u64,
    /// The lines of all senders.
    pub(crate) steps: &'a str,
}

impl<'a> Script<'a> {
    pub(crate) fn read(alloc: Global, block: &'a str) -> Option<Script<'a>> {
        let (head, steps) = block.split_once('\n').unwrap_or((block, ""));
        let mut words = head.split(' ');
        let over = Over::read(alloc, words.next()?)?;
        let mut script = Script {
            over,
            settings: Settings::new(alloc, "t", "kp").ok()?,
            late: 0,
            steps,
        };
        for word in words {
            script.set(word)?;
        }
        Some(script)
    }

    /// Takes a setting.
    fn set(&mut self, word: &str) -> Option<()> {
        let (name, value) = word.split_once('=')?;
        let settings = &mut self.settings;
        match name {
            "senders" => settings.senders = value.parse().ok()?,
            "capacity" => settings.capacity = value.parse().ok()?,
            "partitions" => settings.partitions = Some(value.parse().ok()?),
            "linger.ms" => settings.config.linger_ms = value.parse().ok()?,
            "request.timeout.ms" => settings.config.request_timeout_ms = value.parse().ok()?,
            "delivery.timeout.ms" => settings.config.delivery_timeout_ms = value.parse().ok()?,
            "retry.backoff.ms" => settings.config.retry_backoff_ms = value.parse().ok()?,
            "open.timeout.ms" => settings.open_timeout_ms = value.parse().ok()?,
            "in.a.row" => settings.policy = Policy::InARow(value.parse().ok()?),
            "in.all" => settings.policy = Policy::InAll(value.parse().ok()?),
            "late.ms" => self.late = value.parse().ok()?,
            _ => return None,
        }
        Some(())
    }
}
