//! Any moves are a run.

ghost use Rattle.std.specs.Prelude.{◌≡◌, Contains, List, length};
ghost use Rattle.kp_accum.specs.declared.item.Item.{Item};
ghost use Rattle.kp_rules.specs.Calls.{Life, Lives};
ghost use Rattle.kp_rules.specs.Records.{Core};
ghost use Rattle.kp_world.specs.Run.{MayBegin};
ghost use Rattle.kp_world.specs.World.{World, Opening};
ghost use Rattle.kp_headline.specs.Assumptions.{Assumed};
ghost use Rattle.kp_headline.specs.Laws.{IsLife, LeadTo, calls_in};
ghost use Rattle.kp_headline.specs.Matching.{Matches, CanFollow, IsMatched, IsPartOf};
ghost use Rattle.kp_headline.specs.Moves.{Move, AreMoves, led};
ghost use Rattle.kp_headline.specs.Offering.{AllOffered, MayComeFirst};
ghost use Rattle.kp_headline.specs.Outside.{Said, State, new_state};

/// Whatever is accepted and called from a new core on, and whatever the network does, events lead to a world that
/// matches.
pub fn moves_are_runs()
    ensures { (o : Opening) (ms : List Move)
        → MayBegin o → AreMoves (new_state o) ms → Assumed (new_state o) ms
        → IsMatched o (led (new_state o) ms) }
{}

/// From any state on, events lead from a world that matches it to one that matches it once these moves were made.
pub fn worlds_follow_moves()
    ensures { (a : State) (w : World) (ms : List Move)
        → Matches a w → AreMoves a ms → Assumed a ms → CanFollow w (led a ms) }
{}

/// Each answer that was said to a part of a packet is a part of a reply of the world that matches.
pub fn what_was_said_is_part_of_a_reply()
    ensures { (a : State) (w : World) (x : Said)
        → Matches a w → Contains a.outside.said x → IsPartOf a.outside.packets w.replies x }
{}

/// The calls among the moves are a life of the core.
pub fn the_calls_are_a_life()
    ensures { (a : State) (ms : List Move) → AreMoves a ms → IsLife a ms }
{}

/// Calls with their answers lead to one core: wherever the calls among the moves lead, there the moves lead, and what was
/// told and went out is what the calls told and sent.
pub fn moves_lead_where_their_calls_lead()
    ensures { (a : State) (ms : List Move) (life : Life) (t : Core)
        → AreMoves a ms → Lives a.core (calls_in ms) life t → LeadTo a ms life t }
{}

/// What senders had accepted, each item numbered by its place and within the limits, may be accepted before any other
/// move; nothing else is changed then.
pub fn what_was_accepted_may_come_first()
    ensures { (o : Opening) (lists : List (List Item)) → length lists ≡ o.senders → AllOffered o 0 lists → MayComeFirst o lists }
{}
