//! What the producer of a run is opened with.

ghost use Rattle.std.specs.Prelude.{IfOk};
ghost use Rattle.kp_run.specs.Settings.{AreSettingsOf};

use kp_client::{Policy, Settings};
use kp_options::Options;
use std::alloc::{AllocError, Global};

/// How many records a sender's lane holds, and how many reports.
const CAPACITY: usize = 256;

/// The name by which the broker's logs know the client.
const CLIENT: &str = "kprod";

/// How many new connections there may be in all.
const NEW_CONNECTIONS: u32 = 10;

/// What the producer is opened with.
pub(crate) fn settings_of(alloc: Global, options: &Options<'_>) -> Result<Settings, AllocError>
    ensures { IfOk result (AreSettingsOf options.now) }
{
    Ok(Settings {
        senders: options.senders,
        capacity: CAPACITY,
        config: options.config,
        partitions: options.expected_partitions(),
        open_timeout_ms: 0,
        policy: Policy::InAll(NEW_CONNECTIONS),
        audits: options.audits,
        ..Settings::new(alloc, options.topic, CLIENT)?
    })
}
