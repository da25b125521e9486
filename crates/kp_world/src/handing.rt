//! Laws of every run, whatever the network does and for any honest broker: what was handed over for a partition.

ghost use Rattle.std.specs.Prelude.{ℕ, ◌<◌, List};
ghost use Rattle.kp_world.specs.Events.{WorldEvent};
ghost use Rattle.kp_world.specs.Facts.{facts};
ghost use Rattle.kp_world.specs.Handed.{GrowsByFront, GrowsAtEnd, AreHandedOver, GoesOutTheSame, AreItems, IsAudited, FirstWasDelivered};
ghost use Rattle.kp_world.specs.Run.{Steps, Run, IsReached};
ghost use Rattle.kp_world.specs.World.{World, Opening};

/// What was handed over for a partition grows in a request alone, at its end, by the whole front batch of its queue; so
/// what was handed over once stands first for good.
pub fn what_was_handed_over_grows_by_the_front_batch()
    ensures event { (o : Opening) (es : List WorldEvent) (w : World) (e : WorldEvent) (v : World)
        → IsReached o es w → Steps w e v
        → (p : ℕ) → p < o.partitions → GrowsByFront p e (facts w) (facts v) }
    ensures run { (o : Opening) (es : List WorldEvent) (w : World) (later : List WorldEvent) (v : World)
        → IsReached o es w → Run w later v
        → (p : ℕ) → p < o.partitions → GrowsAtEnd p (facts w) (facts v) }
{}

/// Each batch of each packet is among what was handed over, under its number, and goes out with the same records,
/// producer id and base sequence each time.
pub fn packets_have_what_was_handed_over()
    ensures handed { (o : Opening) (es : List WorldEvent) (w : World)
        → IsReached o es w → AreHandedOver (facts w) }
    ensures same { (o : Opening) (es : List WorldEvent) (w : World)
        → IsReached o es w → GoesOutTheSame (facts w) }
{}

/// The k-th own record of a partition's log is item k of what was handed over for it, whose sender was not told Unsent:
/// so each record is there once, also where two are alike.
pub fn own_records_are_the_items_handed_over()
    ensures { (o : Opening) (es : List WorldEvent) (w : World)
        → IsReached o es w → (p : ℕ) → p < o.partitions → AreItems p (facts w) }
{}

/// A partition's audit is what was handed over for it, told in runs; where audits are not kept, it has none.
pub fn an_audit_is_the_runs_of_what_was_handed_over()
    ensures { (o : Opening) (es : List WorldEvent) (w : World)
        → IsReached o es w → (p : ℕ) → p < o.partitions → IsAudited o.audits p (facts w) }
{}

/// A second batch is handed over under a producer id only once each item of the first was told Delivered.
pub fn the_first_batch_under_an_id_was_delivered_before_a_second()
    ensures { (o : Opening) (es : List WorldEvent) (w : World)
        → IsReached o es w → (p : ℕ) → p < o.partitions → FirstWasDelivered p (facts w) }
{}
