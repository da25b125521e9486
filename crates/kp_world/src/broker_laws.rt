//! Laws of every run, whatever the network does and for any honest broker.

ghost use Rattle.std.specs.Prelude.{ℕ, ◌<◌, List};
ghost use Rattle.kp_world.specs.Facts.{facts};
ghost use Rattle.kp_world.specs.FreshIds.{BeginsAnew, GoesOnAlone};
ghost use Rattle.kp_world.specs.LogLaws.{IsPrefix, ToldOffsetsStand, NoDuplicateIsAwaited, EachDeliveryHasItsOffset, EarlierIdsAreSilent};
ghost use Rattle.kp_world.specs.Run.{IsReached};
ghost use Rattle.kp_world.specs.World.{World, Opening};
ghost use Rattle.kp_world.specs.Events.{WorldEvent};

/// A partition's log, read for this producer alone, is a prefix of what was handed over for the partition: nothing
/// is stored twice, out of order or with a gap.
pub fn the_log_is_a_prefix()
    ensures { (o : Opening) (es : List WorldEvent) (w : World)
        → IsReached o es w
        → (p : ℕ) → p < o.partitions → IsPrefix p (facts w) }
{}

/// What a sender was told of an item's offset is true, then and ever after: its record stands there, behind as many own
/// records as items were handed over before it.
pub fn told_offsets_stand()
    ensures { (o : Opening) (es : List WorldEvent) (w : World)
        → IsReached o es w → ToldOffsetsStand (facts w) }
{}

/// At most five batches of a partition are on their way, and a broker knows a producer's last five: so no batch in
/// flight is ever called a duplicate.
pub fn no_duplicate_is_awaited()
    ensures { (o : Opening) (es : List WorldEvent) (w : World)
        → IsReached o es w → NoDuplicateIsAwaited w }
{}

/// So a sender that is told that its item was delivered is told the offset too.
pub fn each_delivery_has_its_offset()
    ensures { (o : Opening) (es : List WorldEvent) (w : World)
        → IsReached o es w → EachDeliveryHasItsOffset (facts w) }
{}

/// Under each producer id a partition begins with base sequence 0.
pub fn each_id_begins_anew()
    ensures { (o : Opening) (es : List WorldEvent) (w : World)
        → IsReached o es w
        → (p : ℕ) → p < o.partitions → BeginsAnew p (facts w) }
{}

/// The first batch under a producer id goes out alone: no second one is handed over before it is stored.
pub fn the_first_batch_under_an_id_is_alone()
    ensures { (o : Opening) (es : List WorldEvent) (w : World)
        → IsReached o es w
        → (p : ℕ) → p < o.partitions → GoesOnAlone p (facts w) }
{}

/// Once a partition goes on under a fresh producer id, no packet with an earlier one changes its log any more.
pub fn earlier_ids_are_silent()
    ensures { (o : Opening) (es : List WorldEvent) (w : World)
        → IsReached o es w → EarlierIdsAreSilent (facts w) }
{}
