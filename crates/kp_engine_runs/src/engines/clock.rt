//! A clock that goes on by as much each time it is asked.

ghost use Rattle.std.specs.Prelude.{map};

use http_server::Log;
use kp_engine::Clock;

/// A clock whose first moment is 0. Each further one is so many milliseconds later.
#[derive(Drop)]
pub(crate) struct Ticking {
    now: u64,
    step: u64,
    told: Log<u64, ()>,
}

impl Ticking {
    pub(crate) fn new(step: u64) -> Ticking {
        Ticking {
            now: 0,
            step,
            told: Log::new(),
        }
    }
}

impl Clock for Ticking {
    ghost moments = { λ clock. map (λ x. x.0) clock.told.items };

    fn now(&mut self) -> u64 {
        let now = self.now;
        self.now = now.saturating_add(self.step);
        self.told = self.told.and(&now, &());
        now
    }
}
