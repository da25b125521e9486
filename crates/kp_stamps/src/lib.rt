//! Timestamps of records: milliseconds since the beginning of 1970.
#![tactic(auto)]

ghost use Rattle.std.specs.Prelude.{◌≡◌, ◌-◌, ◌/◌, ◌^◌, min};
ghost use Rattle.std.specs.Time.{system_time_nanos};

use kp_batch::Timestamp;
use std::time::{Clock, SystemTime, UNIX_EPOCH};

/// So many milliseconds as a timestamp, or the last that there is.
pub fn stamp(millis: u64) -> Timestamp
    ensures { result ≡ min millis (2 ^ 63 - 1) }
{
    let within = millis.min(i64::MAX as u64);
    Timestamp::from_millis(within as i64).unwrap()
}

/// What the clock on the wall shows, or 0, where it can't be read.
pub fn wall_stamp<R: Clock>(rt: &R) -> Timestamp {
    match SystemTime::now(rt) {
        Ok(now) => stamp(millis_of(now)),
        Err(_) => stamp(0),
    }
}

/// The milliseconds from the beginning of 1970 to this time; 0 for an earlier one.
pub fn millis_of(time: SystemTime) -> u64
    ensures { result ≡ min (system_time_nanos time / 1_000_000) (2 ^ 64 - 1) }
{
    match time.duration_since(UNIX_EPOCH) {
        Ok(passed) => u64::try_from(passed.as_millis()).unwrap_or(u64::MAX),
        Err(_) => 0,
    }
}
