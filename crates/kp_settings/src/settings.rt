//! What a producer is opened with.

ghost use Rattle.std.specs.Prelude.{◌≡◌, ◌*◌, IfOk};
ghost use Rattle.std.specs.Duration.{as_nanos};
ghost use Rattle.kp_settings.specs.Settings.{checked_for_cluster, checked_settings, default_settings, record_limit};

use crate::fault::OpenFault;
use crate::policy::Policy;
use kp_accum::Config;
use kp_core::Names;
use kp_wire::Text;
use std::alloc::{AllocError, Global};
use std::time::Duration;

/// The longest name, of a topic or a client (Kafka's limit on topics).
const NAME_LIMIT: usize = 249;

/// What a producer is opened with.
#[derive(Debug, Drop)]
pub struct Settings {
    /// The topic and the name by which the broker's logs know the client, of at most 249 bytes each.
    pub names: Names,
    /// How many senders there are, 1 to 64: each has a lane of its own, and is used by one thread at a time.
    pub senders: u32,
    /// How many records a lane holds that the service has not taken, and how many reports that its sender has not
    /// received: 1 to 65536.
    pub capacity: usize,
    /// How records are batched, sent and retried.
    pub config: Config,
    /// How many partitions the topic is to have, where its number is known.
    pub partitions: Option<u32>,
    /// For how long `open` tries again while the broker can't be reached, or says that it is not ready, in milliseconds. 0 is
    /// once.
    pub open_timeout_ms: u64,
    /// How often a connection that was lost is made anew. Those to a cluster are, as often as it takes.
    pub policy: Policy,
    /// Whether a list of the records that were handed over is kept. It grows as long as the producer lives.
    pub audits: bool,
}

impl Settings {
    /// The defaults: one sender with 1024 places, Kafka's configuration, as many partitions as the broker names, tries to open
    /// for as long as a record is tried, as many new connections as it takes, and no audit.
    pub fn new(alloc: Global, topic: &str, client: &str) -> Result<Settings, AllocError>
        ensures { IfOk result (λ settings. settings ≡ default_settings topic.now client.now) }
    {
        let config = Config::default();
        Ok(Settings {
            names: Names {
                topic: Text::from_str(alloc, topic)?,
                client: Text::from_str(alloc, client)?,
            },
            senders: 1,
            capacity: 1024,
            config,
            partitions: None,
            open_timeout_ms: config.delivery_timeout_ms,
            policy: Policy::Unlimited,
            audits: false,
        })
    }

    /// The first fault of the names and of the configuration, if there is one. The senders' and the lanes' numbers are
    /// looked at when the lanes are opened.
    pub fn check(&self) -> Result<(), OpenFault>
        ensures { result ≡ checked_settings self.now }
    {
        if self.names.topic.len() > NAME_LIMIT {
            return Err(OpenFault::Topic);
        }
        if self.names.client.len() > NAME_LIMIT {
            return Err(OpenFault::Client);
        }
        match self.config.check() {
            Ok(()) => Ok(()),
            Err(fault) => Err(OpenFault::Config(fault)),
        }
    }

    /// The same of settings for the brokers of a cluster: their policy may have no limit.
    pub fn check_for_cluster(&self) -> Result<(), OpenFault>
        ensures { result ≡ checked_for_cluster self.now }
    {
        self.check()?;
        match self.policy {
            Policy::Unlimited => Ok(()),
            Policy::InAll(_) | Policy::InARow(_) => Err(OpenFault::Policy),
        }
    }

    /// The most that a record may take, as the size in bytes of the batch that holds it alone.
    pub fn max_record(&self) -> u64
        ensures { result ≡ record_limit self.now }
    {
        let config = self.config;
        config.max_request_size.min(config.buffer_memory)
    }

    /// How long a connection may take to be made, and how long until it is known to a broker.
    pub fn patience(&self) -> Duration
        ensures { as_nanos result ≡ self.now.config.request_timeout_ms * 1_000_000 }
    {
        Duration::from_millis(self.config.request_timeout_ms)
    }

    /// A copy of the names.
    pub fn copy_names(&self, alloc: Global) -> Result<Names, AllocError>
        ensures { IfOk result (λ names. names ≡ self.now.names) }
    {
        Ok(Names {
            topic: Text::from_str(alloc, self.names.topic.as_str())?,
            client: Text::from_str(alloc, self.names.client.as_str())?,
        })
    }
}
