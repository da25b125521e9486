//! Laws of every run, whatever the network does and for any honest broker: a partition's producer ids.

ghost use Rattle.std.specs.Prelude.{ℕ, ◌<◌, List};
ghost use Rattle.kp_world.specs.Events.{WorldEvent};
ghost use Rattle.kp_world.specs.Facts.{facts};
ghost use Rattle.kp_world.specs.FreshIds.{AreDrawn, GivesId, GoesOnUnder, KeepsIds};
ghost use Rattle.kp_world.specs.Run.{Steps, IsReached};
ghost use Rattle.kp_world.specs.World.{World, Opening};

/// A partition's ids are distinct, and each was drawn for this producer; what is read of its log by them is what is read
/// by all that were drawn.
pub fn ids_are_distinct_and_drawn()
    ensures { (o : Opening) (es : List WorldEvent) (w : World)
        → IsReached o es w → (p : ℕ) → p < o.partitions → AreDrawn p (facts w) }
{}

/// A known reply with code 0 to the request for an id that is in flight for a partition gives it that id, from sequence
/// number 0, where it wants one then; every other event leaves its ids.
pub fn an_id_is_given_by_a_known_reply_where_one_is_wanted()
    ensures given { (o : Opening) (es : List WorldEvent) (w : World) (e : WorldEvent) (v : World)
        → IsReached o es w → Steps w e v
        → (p id : ℕ) → p < o.partitions → GivesId w e p id → GoesOnUnder p id (facts w) (facts v) }
    ensures kept { (o : Opening) (es : List WorldEvent) (w : World) (e : WorldEvent) (v : World)
        → IsReached o es w → Steps w e v
        → (p : ℕ) → p < o.partitions → KeepsIds p e w v }
{}
