//! How long a slot is left alone after failures.

ghost use Rattle.std.specs.Prelude.{◌≡◌};
ghost use Rattle.kp_cluster.specs.Backoff.{wait_after, IsJittered};

use crate::config::ClusterConfig;
use rand::rngs::SmallRng;
use rand::{RngExt, SeedableRng};

/// What spreads waits: random numbers, from a seed.
#[derive(Debug, Drop)]
pub(crate) struct Spread {
    numbers: SmallRng,
}

impl Spread {
    pub(crate) fn new(seed: u64) -> Spread {
        Spread {
            numbers: SmallRng::seed_from_u64(seed),
        }
    }

    /// The wait after so many failures in a row, less a jitter, so that not all come back at once.
    pub(crate) fn wait(&mut self, config: &ClusterConfig, failures: u32) -> u64
        ensures { IsJittered (wait_after config.now failures) result }
    {
        let whole = wait_after(config, failures);
        whole - self.numbers.random_range(0..=whole / 5)
    }
}

/// The wait after so many failures in a row.
fn wait_after(config: &ClusterConfig, failures: u32) -> u64
    ensures { result ≡ wait_after config.now failures }
{
    let doublings = failures.saturating_sub(1);
    let most = config.reconnect_backoff_max_ms;
    match 2u64.checked_pow(doublings) {
        Some(times) => config.reconnect_backoff_ms.saturating_mul(times).min(most),
        None if config.reconnect_backoff_ms == 0 => 0,
        None => most,
    }
}
