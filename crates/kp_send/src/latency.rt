//! How long it took until lines were told of, in a table of a size that does not grow.

ghost use Rattle.std.specs.Prelude.{◌≡◌, ◌+◌, ◌<◌, ◌≤◌, ◌-◌, ◌^◌, ◌/◌, [], length, min, true, All, slice_get, IfOk, IfSome, MatchOption};
ghost use Rattle.kp_send.specs.Latency.{Adds, Adjoin, is_in, IsRanked, IsTableOf, rank_of, width};

use std::alloc::{AllocError, Global};
use std::marker::Model;

/// A latency is counted together with those that are greater by less than this part of it.
const PART: u64 = 32;

/// The latencies that are counted together.
#[derive(Clone, Copy, Debug)]
struct Place {
    /// The least of them.
    least: u64,
    count: u64,
}

/// Latencies, in a unit of the caller's: how many there were in each place, how many in all, their sum, which stops at
/// u64::MAX, and the greatest.
///
/// A percentile is told to a 32nd of it. It takes at most 32 kilobytes, whatever is added.
#[derive(Debug, Drop)]
pub struct Latencies {
    places: Vec<Place>,
    count: u64,
    sum: u64,
    greatest: u64,
}

impl Model for Latencies {
    ghost use Rattle.kp_send.specs.Latency.{IsWhole, Table};

    ghost Value = { Table };

    ghost view = { λ l. record {
      places = l.places.items;
      count = l.count;
      sum = l.sum;
      greatest = l.greatest;
    } };

    ghost invariant = { λ l. IsWhole l.places.items l.count };
}

impl Latencies {
    /// No latency.
    pub fn new(alloc: Global) -> Result<Latencies, AllocError>
        ensures { IfOk result (IsTableOf []) }
    {
        Ok(Latencies {
            places: all_places(alloc)?,
            count: 0,
            sum: 0,
            greatest: 0,
        })
    }

    /// One latency more. None is added once there are u64::MAX.
    pub fn add(&mut self, latency: u64)
        ensures added { self.old.count + 1 < 2 ^ 64 → Adds self.old latency self.new }
        ensures full { 2 ^ 64 ≤ self.old.count + 1 → self.new ≡ self.old }
    {
        let Some(count) = self.count.checked_add(1) else {
            return;
        };
        let place = place_of(&self.places, latency);
        self.places[place].count += 1;
        self.count = count;
        self.sum = self.sum.saturating_add(latency);
        self.greatest = self.greatest.max(latency);
    }

    /// How many there were.
    pub fn count(&self) -> u64
        ensures { result ≡ self.now.count }
    {
        self.count
    }

    /// Their mean, where there were some.
    pub fn mean(&self) -> Option<u64>
        ensures { MatchOption result (self.now.count ≡ 0)
            (λ mean. mean ≡ self.now.sum / self.now.count) }
    {
        self.sum.checked_div(self.count)
    }

    /// The greatest, or 0.
    pub fn greatest(&self) -> u64
        ensures { result ≡ self.now.greatest }
    {
        self.greatest
    }

    /// At most a 32nd above the least of them that is not below so many hundredths of them, and never below it, where there
    /// were some.
    pub fn percentile(&self, percent: u8) -> Option<u64>
        ensures { MatchOption result (self.now.count ≡ 0)
            (IsRanked self.now (rank_of self.now.count percent)) }
    {
        if self.count == 0 {
            return None;
        }
        let rank = rank_of(self.count, percent);
        let mut counted = 0;
        for place in &self.places {
            counted += place.count;
            if rank <= counted {
                return Some(greatest_of(place.least).min(self.greatest));
            }
        }
        None
    }
}

/// How many latencies are counted together with the least of them.
fn width(least: u64) -> u64
    ensures { result ≡ width least }
{
    (least / PART).max(1)
}

/// The greatest latency of the place with this least one.
fn greatest_of(least: u64) -> u64
    ensures { result ≡ min (least + width least - 1) (2 ^ 64 - 1) }
{
    least.saturating_add(width(least) - 1)
}

/// The places of all latencies.
fn all_places(alloc: Global) -> Result<Vec<Place>, AllocError>
    ensures covers { IfOk result (λ places. Adjoin 0 places.items) }
    ensures none { IfOk result (λ places. All (λ place. place.count ≡ 0) places.items) }
{
    let mut places = Vec::new(alloc);
    let mut next = Some(0u64);
    while let Some(least) = next {
        places.push(Place { least, count: 0 })?;
        next = least.checked_add(width(least));
    }
    Ok(places)
}

/// Where a latency belongs.
fn place_of(places: &[Place], latency: u64) -> usize
    requires { Adjoin 0 places.now }
    ensures within { result < length places.now }
    ensures there { IfSome (slice_get places.now result) (λ place. is_in latency place ≡ true) }
{
    places.partition_point(|place| place.least <= latency) - 1
}

/// The least rank, of so many, that is not below so many hundredths of them.
fn rank_of(count: u64, percent: u8) -> u64
    requires { 0 < count }
    ensures rank { result ≡ rank_of count percent }
    ensures within { result ≤ count }
{
    let above = u64::from(100 - percent.min(100));
    let not_below = count / 100 * above + count % 100 * above / 100;
    (count - not_below).max(1)
}
