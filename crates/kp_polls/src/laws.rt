//! Laws of every run, of any polls: of what is known after them, with any brokers and any network around them.

ghost use Rattle.std.specs.Prelude.{◌≡◌, ℕ, ◌<◌, true, List};
ghost use Rattle.atomic_table.specs.Table.{Step};
ghost use Rattle.kp_engine.specs.Closing.{ClosesOnce};
ghost use Rattle.kp_engine.specs.declared.exchange.Exchange.{Exchange};
ghost use Rattle.kp_headline.specs.Laws.{NoDuplicateIsAwaited};
ghost use Rattle.kp_headline.specs.Outside.{known};
ghost use Rattle.kp_polls.specs.Around.{AfterAnyPolls, AroundAnyPolls};
ghost use Rattle.kp_lanes.specs.Gate.{Sat};
ghost use Rattle.kp_polls.specs.Laws.{AreToldByAnyFlush, ClosedToAll, GrowsAllAlong, KnowsForGood, ReportsAreOfTold};
ghost use Rattle.kp_polls.specs.Polling.{Polling};
ghost use Rattle.kp_rules.specs.Calls.{Call};
ghost use Rattle.kp_world.specs.Accounts.{AreAccountedFor, AreInOrder, IsNeverSent, IsToldOnce, IsUsedByUntold};
ghost use Rattle.kp_world.specs.FreshIds.{AreDrawn, BeginsAnew, GoesOnAlone};
ghost use Rattle.kp_world.specs.Handed.{AreHandedOver, AreItems, FirstWasDelivered, GoesOutTheSame, IsAudited};
ghost use Rattle.kp_world.specs.LogLaws.{EachDeliveryHasItsOffset, EarlierIdsAreSilent, IsPrefix, ToldOffsetsStand};
ghost use Rattle.kp_world.specs.World.{Opening};

use kp_connection::Stream;

/// A partition's log, read for this producer alone, is a prefix of what was handed over for the partition.
pub fn the_log_is_a_prefix<S: Stream>()
    ensures { (o : Opening) (p : ℕ) → p < o.partitions → AfterAnyPolls S.answers o (λ b. IsPrefix p (known b)) }
{}

/// The k-th own record of a log is that of item k of what was handed over.
pub fn own_records_are_the_items_handed_over<S: Stream>()
    ensures { (o : Opening) (p : ℕ) → p < o.partitions → AfterAnyPolls S.answers o (λ b. AreItems p (known b)) }
{}

/// An item that was told an offset has its record there, behind as many own records as items were handed over before
/// it.
pub fn told_offsets_stand<S: Stream>()
    ensures { (o : Opening) → AfterAnyPolls S.answers o (λ b. ToldOffsetsStand (known b)) }
{}

/// No item is told delivered without its offset.
pub fn each_delivery_has_its_offset<S: Stream>()
    ensures { (o : Opening) → AfterAnyPolls S.answers o (λ b. EachDeliveryHasItsOffset (known b)) }
{}

/// No attempt in flight was answered that its batch is a duplicate of one that is no longer known.
pub fn no_duplicate_is_awaited<S: Stream>()
    ensures { (o : Opening) → AfterAnyPolls S.answers o NoDuplicateIsAwaited }
{}

/// Under each producer id a partition begins with base sequence 0.
pub fn each_id_begins_anew<S: Stream>()
    ensures { (o : Opening) (p : ℕ) → p < o.partitions → AfterAnyPolls S.answers o (λ b. BeginsAnew p (known b)) }
{}

/// The first batch under a producer id goes out alone.
pub fn the_first_batch_under_an_id_is_alone<S: Stream>()
    ensures { (o : Opening) (p : ℕ) → p < o.partitions → AfterAnyPolls S.answers o (λ b. GoesOnAlone p (known b)) }
{}

/// Where a second batch was handed over under a producer id, each item of the first was told Delivered.
pub fn the_first_batch_under_an_id_was_delivered_before_a_second<S: Stream>()
    ensures { (o : Opening) (p : ℕ) → p < o.partitions → AfterAnyPolls S.answers o (λ b. FirstWasDelivered p (known b)) }
{}

/// No packet under an earlier producer id of a partition changes its log any more.
pub fn earlier_ids_are_silent<S: Stream>()
    ensures { (o : Opening) → AfterAnyPolls S.answers o (λ b. EarlierIdsAreSilent (known b)) }
{}

/// A partition's ids are distinct, each was drawn, and its log is read the same by them as by all that were drawn.
pub fn ids_are_distinct_and_drawn<S: Stream>()
    ensures { (o : Opening) (p : ℕ) → p < o.partitions → AfterAnyPolls S.answers o (λ b. AreDrawn p (known b)) }
{}

/// Of each sender and partition the items that were handed over are, in order and once, those that were accepted and
/// neither told Unsent nor still wait: in a queue, held by the engine, in the lane, or not yet sent.
pub fn what_was_accepted_is_accounted_for<S: Stream>()
    ensures { (o : Opening) (s p : ℕ) → p < o.partitions → AfterAnyPolls S.answers o (λ b. AreAccountedFor s p (known b)) }
{}

/// They are handed over in the order of their numbers.
pub fn items_are_handed_over_in_order_and_once<S: Stream>()
    ensures { (o : Opening) (s p : ℕ) → p < o.partitions → AfterAnyPolls S.answers o (λ b. AreInOrder s p (known b)) }
{}

/// No item that was told Unsent was handed over.
pub fn unsent_is_never_sent<S: Stream>()
    ensures { (o : Opening) (p : ℕ) → p < o.partitions → AfterAnyPolls S.answers o (λ b. IsNeverSent p (known b)) }
{}

/// No item is told twice.
pub fn each_item_is_told_once<S: Stream>()
    ensures { (o : Opening) → AfterAnyPolls S.answers o (λ b. IsToldOnce (known b)) }
{}

/// The memory that is used is what the items take that were appended and are not told.
pub fn memory_is_of_what_is_not_told<S: Stream>()
    ensures { (o : Opening) → AfterAnyPolls S.answers o (λ b. IsUsedByUntold (known b)) }
{}

/// A partition's audit is the runs of what was handed over for it.
pub fn an_audit_is_the_runs_of_what_was_handed_over<S: Stream>()
    ensures { (o : Opening) (p : ℕ) → p < o.partitions → AfterAnyPolls S.answers o (λ b. IsAudited o.audits p (known b)) }
{}

/// Each batch of each packet is the one that was handed over under its number, and goes out the same each time.
pub fn packets_have_what_was_handed_over<S: Stream>()
    ensures handed { (o : Opening) → AfterAnyPolls S.answers o (λ b. AreHandedOver (known b)) }
    ensures same { (o : Opening) → AfterAnyPolls S.answers o (λ b. GoesOutTheSame (known b)) }
{}

/// What was handed over before any of the calls stands first for good.
pub fn what_was_handed_over_grows_at_its_end<S: Stream>()
    ensures { (o : Opening) (p : ℕ) → p < o.partitions → AroundAnyPolls S.answers o (λ a ms x. GrowsAllAlong p a ms) }
{}

/// Where a flush is complete, each item that was appended before it is told.
pub fn a_complete_flush_told_all_before_it<S: Stream>()
    ensures { (o : Opening) → AroundAnyPolls S.answers o (λ a ms x. AreToldByAnyFlush a ms) }
{}

/// Each sender's reports, those that were handed to its ring, the one that is held and those that wait in the core, are of
/// all that it was told, in order.
pub fn reports_are_of_all_that_was_told<S: Stream>()
    ensures { (o : Opening) → AroundAnyPolls S.answers o (ReportsAreOfTold o) }
{}

/// The core is closed once at most, by a poll that knew that no sender could send any more before it found each lane empty,
/// and held nothing.
pub fn the_core_is_closed_where_nobody_can_send<S: Stream>()
    ensures { (o : Opening) (calls : List Call) (x : Exchange) → (polling : Polling S.answers o calls x)
        → ClosesOnce polling.first calls x }
{}

/// Once the core is closed nobody is within `send` or `flush`, and none gets in any more: in each state of the gate in which
/// the engine's seat knows what it then knew, and a seat knows it for good. Since a push into a lane
/// (`kp_lanes::laws::Lane::push`) asks for a seat that is inside, nothing is accepted any more.
pub fn nothing_is_accepted_after_close<S: Stream>()
    ensures closed { (o : Opening) (calls : List Call) (x : Exchange) → (polling : Polling S.answers o calls x)
        → x.closed ≡ true → ClosedToAll polling.first calls x }
    ensures for_good { (step : Step (Unit {0})) (m : Sat) (word : ℕ) (m1 : Sat) → m.0.knows_quiet ≡ true → KnowsForGood step m word m1 }
{}
