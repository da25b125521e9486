//! How long an engine that moves nothing waits for a bell or its stream.

ghost use Rattle.std.specs.Prelude.{◌≡◌, ◌≤◌, ◌*◌, min};
ghost use Rattle.kp_running.specs.Pace.{wait_within};

/// The first wait, in milliseconds.
const SHORTEST: u64 = 1;

/// The longest wait, in milliseconds.
const LONGEST: u64 = 40;

/// How long the next wait is at most, in milliseconds: 1, and twice as long each time, up to 40.
#[derive(Debug, Drop)]
pub(crate) struct Pace {
    millis: u64,
    ghost some: { 1 ≤ millis },
    ghost few: { millis ≤ 40 },
}

impl Pace {
    pub(crate) fn new() -> Pace
        ensures { result.millis ≡ 1 }
    {
        Pace { millis: SHORTEST }
    }

    /// The next wait is longer.
    pub(crate) fn grow(&mut self)
        ensures { self.new.millis ≡ min (2 * self.old.millis) 40 }
    {
        self.millis = (2 * self.millis).min(LONGEST);
    }

    /// How long to wait, in milliseconds, where something is due in so many.
    pub(crate) fn wait(&self, due: Option<u64>) -> u64
        ensures { result ≡ wait_within self.now.millis due }
    {
        match due {
            None => self.millis,
            Some(due) => self.millis.min(due),
        }
    }
}
