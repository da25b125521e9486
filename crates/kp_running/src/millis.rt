//! The runtime's clock as an engine's.

ghost use Rattle.std.specs.Duration.{as_nanos};
ghost use Rattle.std.specs.Prelude.{◌≡◌, ◌≤◌, ◌-◌, ◌/◌, ◌^◌, [], map, min, Some, IfOk};
ghost use Rattle.std.specs.List.{last_or};

use http_server::Log;
use std::io;
use std::time::{Clock, Duration, Instant};

/// What has passed since a moment, in milliseconds. It never goes back; where the clock cannot be read, it shows what it
/// showed last.
#[derive(Clone, Copy, Debug)]
pub struct Passed {
    start: Instant,
    shown: u64,
}

impl Passed {
    /// Since that moment. It shows 0.
    pub fn since(start: Instant) -> Passed
        ensures { result ≡ record { start = start; shown = 0 } }
    {
        Passed { start, shown: 0 }
    }

    /// Reads the clock.
    pub fn read<R: Clock>(&mut self, rt: &R) -> u64
        ensures shown { result ≡ self.new.shown }
        ensures since { self.new.start ≡ self.old.start }
        ensures never_back { self.old.shown ≤ self.new.shown }
    {
        if let Ok(passed) = self.start.elapsed(rt) {
            self.shown = self.shown.max(millis_of(passed));
        }
        self.shown
    }
}

/// So much time in milliseconds.
fn millis_of(passed: Duration) -> u64
    ensures { result ≡ min (as_nanos passed / 1_000_000) (2 ^ 64 - 1) }
{
    u64::try_from(passed.as_millis()).unwrap_or(u64::MAX)
}

/// The runtime's clock as an engine's: milliseconds since a moment.
#[derive(Drop)]
pub struct Millis<'a, R> {
    rt: &'a R,
    passed: Passed,
    told: Log<u64, ()>,

    // What it told last is what it shows.
    ghost last: { last_or (Some passed.shown) (map (λ x. x.0) told.items) ≡ Some passed.shown },
}

impl<'a, R: Clock> Millis<'a, R> {
    /// Since now. It shows 0, and has told nothing.
    pub fn new(rt: &'a R) -> io::Result<Millis<'a, R>>
        ensures shows { IfOk result (λ clock. clock.passed.shown ≡ 0) }
        ensures told { IfOk result (λ clock. clock.told.items ≡ []) }
    {
        Ok(Millis::since(rt, Instant::now(rt)?))
    }

    /// Since that moment. It shows 0, and has told nothing.
    pub fn since(rt: &'a R, start: Instant) -> Millis<'a, R>
        ensures shows { result.passed ≡ record { start = start; shown = 0 } }
        ensures told { result.told.items ≡ [] }
    {
        Millis {
            rt,
            passed: Passed::since(start),
            told: Log::new(),
        }
    }
}

impl<R: Clock> kp_engine::Clock for Millis<'_, R> {
    ghost moments = { λ clock. map (λ x. x.0) clock.told.items };

    fn now(&mut self) -> u64 {
        let now = self.passed.read(self.rt);
        self.told = self.told.and(&now, &());
        now
    }
}
