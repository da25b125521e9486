//! Time goes on.

ghost use Rattle.std.specs.Prelude.{◌≡◌, ◌∷◌, [], ◌<◌, None};
ghost use Rattle.kp_embed.specs.Going.{Acts, if_core};
ghost use Rattle.kp_embed.specs.Producer.{with_cluster};
ghost use Rattle.kp_embed.specs.Ticking.{GivesUpIfSpent, MayEnd, Ticks, TicksOne};

use crate::calling;
use crate::embed::Embed;

impl Embed {
    /// The time is this: what is late is given up, and connections over which an answer is late; and, once every correlation id was
    /// used and nothing is open any more, what is queued. It is called at `next_due`, and whenever the owner comes by.
    pub fn tick(&mut self, now: u64)
        ensures ticks { Ticks now self.old self.new }
        ensures still { self.new.is_closed ≡ self.old.is_closed }
    {
        self.cluster.heed(now);
        self.heed_opening(now);
        let count = (self.lines.len() as u32).max(1);
        for node in 0..count {
            self.tick_node(node, now);
        }
        self.give_up_if_spent();
    }

    /// The core looks at the clock for this node.
    #[tactic(auto, using(crate::proofs::ActLemmas::still_none))]
    fn tick_node(&mut self, node: u32, now: u64)
        ensures ticks { TicksOne node now self.old self.new }
        ensures unopened { self.old.core ≡ None → self.new.core ≡ None }
        ensures still { self.new.is_closed ≡ self.old.is_closed }
    {
        let ticked = calling::tick(&mut self.core, node, now);
        if ticked.reconnect {
            self.give_up(node, now);
        }
    }

    /// What is queued is given up, where nothing can go out any more.
    #[tactic(auto, using(crate::proofs::ActLemmas::still_none))]
    fn give_up_if_spent(&mut self)
        ensures gives_up { GivesUpIfSpent self.old self.new }
        ensures still { self.new.is_closed ≡ self.old.is_closed }
    {
        if calling::can_only_end(&self.core) {
            calling::end(&mut self.core);
        }
    }

    /// Where there is no core yet: an answer with an id may be late, or all of it.
    fn heed_opening(&mut self, now: u64)
        ensures acts { Acts self.old [] self.new }
        ensures lines { MayEnd self.old self.new }
        ensures unopened { self.old.core ≡ None → self.new.core ≡ None }
        ensures still { self.new.is_closed ≡ self.old.is_closed }
    {
        if self.core.is_some() {
            return;
        }
        if now >= self.open_until {
            self.is_failed = true;
        }
        let timeout = self.config.producer.request_timeout_ms;
        if let Some(node) = self.identity.over {
            if now.saturating_sub(self.identity.asked_at) >= timeout {
                self.give_up(node, now);
            }
        }
    }
}
