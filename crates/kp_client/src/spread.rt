//! What spreads the waits of producers that begin at the same time.

ghost use Rattle.kp_cluster.specs.Backoff.{IsJittered};

use rand::RngExt;
use rand::rngs::SmallRng;
use std::random::RandomSource;

/// A number that differs from producer to producer; 0 where there is nothing random.
pub(crate) fn seed<R: RandomSource>(rt: &R) -> u64 {
    let mut seed = [0; 8];
    match rt.fill_bytes(&mut seed) {
        Ok(()) => u64::from_be_bytes(seed),
        Err(_) => 0,
    }
}

/// The wait less a jitter of a fifth of it at most, so that not all come back at once.
pub(crate) fn jittered(numbers: &mut SmallRng, wait: u64) -> u64
    ensures { IsJittered wait result }
{
    wait - numbers.random_range(0..=wait / 5)
}
