//! Laws of every run, of any calls on a core: of what is known once any moves were made.

ghost use Rattle.std.specs.Prelude.{◌≡◌, ℕ, ◌<◌, ◌∷◌, List};
ghost use Rattle.kp_rules.specs.Calls.{Close};
ghost use Rattle.kp_rules.specs.Records.{Core};
ghost use Rattle.kp_world.specs.Accounts.{AreAccountedFor, AreInOrder, ArePlaced, IsNeverSent, IsToldOnce, IsUsedByUntold};
ghost use Rattle.kp_world.specs.FreshIds.{AreDrawn, BeginsAnew, GoesOnAlone};
ghost use Rattle.kp_world.specs.Handed.{AreHandedOver, AreItems, FirstWasDelivered, GoesOutTheSame, IsAudited};
ghost use Rattle.kp_world.specs.LogLaws.{EachDeliveryHasItsOffset, EarlierIdsAreSilent, IsPrefix, ToldOffsetsStand};
ghost use Rattle.kp_world.specs.World.{Opening};
ghost use Rattle.kp_headline.specs.Laws.{AfterAnyMoves, AreReported, AreToldByFlush, GrowsWith, NoDuplicateIsAwaited};
ghost use Rattle.kp_headline.specs.Moves.{AreMoves, Calling, Move, led};
ghost use Rattle.kp_headline.specs.Outside.{State, known};

/// A partition's log, read for this producer alone, is a prefix of what was handed over for the partition.
pub fn the_log_is_a_prefix()
    ensures { (o : Opening) (p : ℕ) → p < o.partitions → AfterAnyMoves o (λ b. IsPrefix p (known b)) }
{}

/// An item that was told an offset has its record there, behind as many own records as items were handed over before it.
pub fn told_offsets_stand()
    ensures { (o : Opening) → AfterAnyMoves o (λ b. ToldOffsetsStand (known b)) }
{}

/// No item is told delivered without its offset.
pub fn each_delivery_has_its_offset()
    ensures { (o : Opening) → AfterAnyMoves o (λ b. EachDeliveryHasItsOffset (known b)) }
{}

/// No attempt in flight was answered that its batch is a duplicate of one that is no longer known.
pub fn no_duplicate_is_awaited()
    ensures { (o : Opening) → AfterAnyMoves o NoDuplicateIsAwaited }
{}

/// Under each producer id a partition begins with base sequence 0.
pub fn each_id_begins_anew()
    ensures { (o : Opening) (p : ℕ) → p < o.partitions → AfterAnyMoves o (λ b. BeginsAnew p (known b)) }
{}

/// The first batch under a producer id goes out alone.
pub fn the_first_batch_under_an_id_is_alone()
    ensures { (o : Opening) (p : ℕ) → p < o.partitions → AfterAnyMoves o (λ b. GoesOnAlone p (known b)) }
{}

/// No packet under an earlier producer id of a partition changes its log any more.
pub fn earlier_ids_are_silent()
    ensures { (o : Opening) → AfterAnyMoves o (λ b. EarlierIdsAreSilent (known b)) }
{}

/// The k-th own record of a log is that of item k of what was handed over.
pub fn own_records_are_the_items_handed_over()
    ensures { (o : Opening) (p : ℕ) → p < o.partitions → AfterAnyMoves o (λ b. AreItems p (known b)) }
{}

/// What was handed over stands first for good.
pub fn what_was_handed_over_grows_at_its_end()
    ensures { (o : Opening) (p : ℕ) → p < o.partitions → AfterAnyMoves o (GrowsWith p) }
{}

/// Each batch of each packet is the one that was handed over under its number, and goes out the same each time.
pub fn packets_have_what_was_handed_over()
    ensures handed { (o : Opening) → AfterAnyMoves o (λ b. AreHandedOver (known b)) }
    ensures same { (o : Opening) → AfterAnyMoves o (λ b. GoesOutTheSame (known b)) }
{}

/// A partition's audit is the runs of what was handed over for it.
pub fn an_audit_is_the_runs_of_what_was_handed_over()
    ensures { (o : Opening) (p : ℕ) → p < o.partitions → AfterAnyMoves o (λ b. IsAudited o.audits p (known b)) }
{}

/// Where a second batch was handed over under a producer id, each item of the first was told Delivered.
pub fn the_first_batch_under_an_id_was_delivered_before_a_second()
    ensures { (o : Opening) (p : ℕ) → p < o.partitions → AfterAnyMoves o (λ b. FirstWasDelivered p (known b)) }
{}

/// A partition's ids are distinct, each was drawn, and its log is read the same by them as by all that were drawn.
pub fn ids_are_distinct_and_drawn()
    ensures { (o : Opening) (p : ℕ) → p < o.partitions → AfterAnyMoves o (λ b. AreDrawn p (known b)) }
{}

/// Of each sender and partition the items that were handed over are, in order and once, those that were accepted and
/// neither told Unsent nor still wait.
pub fn what_was_accepted_is_accounted_for()
    ensures { (o : Opening) (s p : ℕ) → p < o.partitions → AfterAnyMoves o (λ b. AreAccountedFor s p (known b)) }
{}

/// They are handed over in the order of their numbers.
pub fn items_are_handed_over_in_order_and_once()
    ensures { (o : Opening) (s p : ℕ) → p < o.partitions → AfterAnyMoves o (λ b. AreInOrder s p (known b)) }
{}

/// An item's number is its place among those that its sender had accepted for its partition.
pub fn items_are_numbered_by_place()
    ensures { (o : Opening) (s p : ℕ) → AfterAnyMoves o (λ b. ArePlaced s p (known b)) }
{}

/// No item that was told Unsent was handed over.
pub fn unsent_is_never_sent()
    ensures { (o : Opening) (p : ℕ) → p < o.partitions → AfterAnyMoves o (λ b. IsNeverSent p (known b)) }
{}

/// No item is told twice.
pub fn each_item_is_told_once()
    ensures { (o : Opening) → AfterAnyMoves o (λ b. IsToldOnce (known b)) }
{}

/// Where a flush is complete, each item that was taken before it is told.
pub fn a_complete_flush_told_all_before_it()
    ensures { (o : Opening) → AfterAnyMoves o AreToldByFlush }
{}

/// The memory that is used is what the items take that were taken and are not told.
pub fn memory_is_of_what_is_not_told()
    ensures { (o : Opening) → AfterAnyMoves o (λ b. IsUsedByUntold (known b)) }
{}

/// The reports of each sender, those that were fetched and then those that were not, are of all that it was told, in
/// order.
pub fn reports_are_of_all_that_was_told()
    ensures { (o : Opening) → AfterAnyMoves o (AreReported o.senders) }
{}

/// No move after a close accepts.
pub fn nothing_is_accepted_after_close()
    ensures { (a : State) (t : Core) (ms : List Move)
        → AreMoves a (Calling Close t ∷ ms)
        → (led a (Calling Close t ∷ ms)).outside.accepted ≡ a.outside.accepted }
{}
