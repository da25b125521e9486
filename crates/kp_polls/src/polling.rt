//! The calls of any polls, with whatever is done around them, are such moves as the laws of runs speak of.

ghost use Rattle.std.specs.Prelude.{◌≡◌, List};
ghost use Rattle.kp_accum.specs.declared.item.Item.{Item};
ghost use Rattle.kp_engine.specs.declared.exchange.Exchange.{Exchange};
ghost use Rattle.kp_headline.specs.Assumptions.{IsInTurn};
ghost use Rattle.kp_headline.specs.Matching.{IsMatched};
ghost use Rattle.kp_headline.specs.Moves.{Move, Throughout, led};
ghost use Rattle.kp_headline.specs.Offering.{having_accepted};
ghost use Rattle.kp_headline.specs.Around.{Around};
ghost use Rattle.kp_polls.specs.Around.{AfterAnyPolls, AroundAnyPolls};
ghost use Rattle.kp_polls.specs.Polling.{HaveAccepted, Polling};
ghost use Rattle.kp_rules.specs.Calls.{Call};
ghost use Rattle.kp_world.specs.World.{Opening};

use kp_connection::Stream;

/// Each item that is appended in a poll, or whose append is refused there, is its sender's oldest that was accepted and not
/// yet appended: of what is assumed of moves, who feeds the core is assumed no more.
pub fn polls_feed_the_core_in_turn<S: Stream>()
    ensures { (o : Opening) (calls : List Call) (x : Exchange) (accepted : List (List Item)) (ms : List Move)
        → Polling S.answers o calls x → HaveAccepted o x accepted → Around o accepted calls ms
        → Throughout IsInTurn (having_accepted o accepted) ms }
{}

/// Whatever is done around the calls of any polls, they lead to the engine's core; and they are a run: events lead to a
/// world that matches.
pub fn polls_are_runs<S: Stream>()
    ensures core { (o : Opening) → AroundAnyPolls S.answers o (λ a ms x. (led a ms).core ≡ x.core) }
    ensures run { (o : Opening) → AfterAnyPolls S.answers o (IsMatched o) }
{}

/// Any polls' calls may stand alone, with nothing around them: so there are moves around them.
pub fn polls_may_stand_alone<S: Stream>()
    ensures { (o : Opening) (calls : List Call) (x : Exchange) (accepted : List (List Item))
        → Polling S.answers o calls x → (ms : List Move) × Around o accepted calls ms }
{}
