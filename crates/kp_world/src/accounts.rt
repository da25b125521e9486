//! Laws of every run, for any honest broker: what was accepted is accounted for.

ghost use Rattle.std.specs.Prelude.{◌≡◌, ◌<◌, ◌∷◌, ℕ, true, List};
ghost use Rattle.kp_rules.specs.Flush.{is_flushed};
ghost use Rattle.kp_world.specs.Events.{WorldEvent};
ghost use Rattle.kp_world.specs.Events as event;
ghost use Rattle.kp_world.specs.Accounts.{AreAccountedFor, AreInOrder, ArePlaced, IsNeverSent, IsToldBy, IsToldOnce, IsUsedByUntold};
ghost use Rattle.kp_world.specs.Causes.{TellsByRule};
ghost use Rattle.kp_world.specs.Facts.{facts};
ghost use Rattle.kp_world.specs.Run.{Steps, Run, IsReached};
ghost use Rattle.kp_world.specs.World.{World, Opening};

/// Of each sender and partition the items that were handed over are, in order and once, those that were accepted and
/// neither told Unsent nor still wait.
pub fn what_was_accepted_is_accounted_for()
    ensures { (o : Opening) (es : List WorldEvent) (w : World) (s p : ℕ)
        → IsReached o es w → p < o.partitions → AreAccountedFor s p (facts w) }
{}

/// They are handed over in the order of their numbers, each once.
pub fn items_are_handed_over_in_order_and_once()
    ensures { (o : Opening) (es : List WorldEvent) (w : World) (s p : ℕ)
        → IsReached o es w → p < o.partitions → AreInOrder s p (facts w) }
{}

/// An item's number is its place among those that its sender had accepted for its partition; so numbers tell them
/// apart.
pub fn items_are_numbered_by_place()
    ensures { (o : Opening) (es : List WorldEvent) (w : World) (s p : ℕ)
        → IsReached o es w → ArePlaced s p (facts w) }
{}

/// No item that was told Unsent was ever handed over.
pub fn unsent_is_never_sent()
    ensures { (o : Opening) (es : List WorldEvent) (w : World) (p : ℕ)
        → IsReached o es w → p < o.partitions → IsNeverSent p (facts w) }
{}

/// No event after a close accepts.
pub fn nothing_is_accepted_after_close()
    ensures { (w : World) (es : List WorldEvent) (v : World)
        → Run w (event.Close ∷ es) v → v.accepted ≡ w.accepted }
{}

/// Each item is told of at most once.
pub fn each_item_is_told_once()
    ensures { (o : Opening) (es : List WorldEvent) (w : World)
        → IsReached o es w → IsToldOnce (facts w) }
{}

/// Where the flush is complete, each item that was taken before it is told.
pub fn a_complete_flush_told_all_before_it()
    ensures { (o : Opening) (es : List WorldEvent) (w : World) (later : List WorldEvent) (v : World)
        → IsReached o es w → Run w (event.Flush ∷ later) v → is_flushed v.core ≡ true
        → IsToldBy (facts v) (facts w) }
{}

/// The memory that is used is what the items take that were taken and are not told; those that were turned away were
/// told at once.
pub fn memory_is_of_what_is_not_told()
    ensures { (o : Opening) (es : List WorldEvent) (w : World)
        → IsReached o es w → IsUsedByUntold (facts w) }
{}

/// An event tells what the one call on the core that it makes tells, and each of it is a case of the outcome rule.
pub fn each_outcome_has_its_cause()
    ensures { (w : World) (e : WorldEvent) (v : World) → Steps w e v → TellsByRule e w v }
{}
