//! Laws of every run, of any calls on an embedded producer: of what is known after them, with any brokers and any network
//! around it.

ghost use Rattle.std.specs.Prelude.{◌≡◌, ℕ, ◌<◌, List, Some};
ghost use Rattle.kp_accum.specs.declared.config.Config.{Config};
ghost use Rattle.kp_embed.specs.Going.{Begins};
ghost use Rattle.kp_embed.specs.Producer.{Producer};
ghost use Rattle.kp_embed_laws.specs.Connection.{Carries, Over};
ghost use Rattle.kp_embed_laws.specs.Running.{AfterAnyCalls, Runs, accepted_by, opening_of};
ghost use Rattle.kp_headline.specs.Around.{Around};
ghost use Rattle.kp_headline.specs.Laws.{AreReported, AreToldByFlush, GrowsWith};
ghost use Rattle.kp_headline.specs.Moves.{Move};
ghost use Rattle.kp_headline.specs.Outside.{known};
ghost use Rattle.kp_rules.specs.declared.names.Names.{Names};
ghost use Rattle.kp_rules.specs.Calls.{Call};
ghost use Rattle.kp_rules.specs.Records.{Core};
ghost use Rattle.kp_world.specs.Accounts.{AreAccountedFor, AreInOrder, ArePlaced, IsNeverSent, IsToldOnce, IsUsedByUntold};
ghost use Rattle.kp_world.specs.Handed.{AreItems};
ghost use Rattle.kp_world.specs.LogLaws.{EachDeliveryHasItsOffset, IsPrefix, ToldOffsetsStand};

/// A producer that has a core has opened it by what brokers have said, and it is what all calls since have made of it.
pub fn a_producer_s_core_has_begun()
    ensures { (config : Config) (names : Names) (calls : List Call) (p : Producer) (t : Core) → Runs config names calls p → p.core ≡ Some t
        → Begins config names calls t }
{}

/// The calls on its core may stand alone, with nothing around them: so there are moves around them.
pub fn calls_may_stand_alone()
    ensures { (config : Config) (names : Names) (calls : List Call) (t : Core) → (b : Begins config names calls t)
        → (ms : List Move) × Around (opening_of config names b.partitions b.id) (accepted_by calls) calls ms }
{}

/// A partition's log, read for this producer alone, is a prefix of what was handed over for the partition.
pub fn the_log_is_a_prefix()
    ensures { (p : ℕ) → AfterAnyCalls (λ o b. p < o.partitions → IsPrefix p (known b)) }
{}

/// The k-th own record of a log is that of item k of what was handed over: each is there once.
pub fn own_records_are_the_items_handed_over()
    ensures { (p : ℕ) → AfterAnyCalls (λ o b. p < o.partitions → AreItems p (known b)) }
{}

/// An item that was told an offset has its record there, behind as many own records as items were handed over before it.
pub fn told_offsets_stand()
    ensures { AfterAnyCalls (λ o b. ToldOffsetsStand (known b)) }
{}

/// No item is told delivered without its offset.
pub fn each_delivery_has_its_offset()
    ensures { AfterAnyCalls (λ o b. EachDeliveryHasItsOffset (known b)) }
{}

/// Of each partition the items that were handed over are, in order and once, those that were accepted and neither told
/// Unsent nor still wait.
pub fn what_was_accepted_is_accounted_for()
    ensures { (p : ℕ) → AfterAnyCalls (λ o b. p < o.partitions → AreAccountedFor 0 p (known b)) }
{}

/// They are handed over in the order of their numbers.
pub fn items_are_handed_over_in_order_and_once()
    ensures { (p : ℕ) → AfterAnyCalls (λ o b. p < o.partitions → AreInOrder 0 p (known b)) }
{}

/// An item's number is its place among those that were accepted for its partition.
pub fn items_are_numbered_by_place()
    ensures { (p : ℕ) → AfterAnyCalls (λ o b. ArePlaced 0 p (known b)) }
{}

/// No item that was told Unsent was handed over.
pub fn unsent_is_never_sent()
    ensures { (p : ℕ) → AfterAnyCalls (λ o b. p < o.partitions → IsNeverSent p (known b)) }
{}

/// No item is told twice.
pub fn each_item_is_told_once()
    ensures { AfterAnyCalls (λ o b. IsToldOnce (known b)) }
{}

/// The reports, those that were fetched and then those that were not, are of all that was told, in order.
pub fn reports_are_of_all_that_was_told()
    ensures { AfterAnyCalls (λ o b. AreReported 1 b) }
{}

/// Where a flush is complete, each item that was accepted before it is told.
pub fn a_complete_flush_told_all_before_it()
    ensures { AfterAnyCalls (λ o b. AreToldByFlush b) }
{}

/// The memory that is used is what the items take that were accepted and are not told.
pub fn memory_is_of_what_is_not_told()
    ensures { AfterAnyCalls (λ o b. IsUsedByUntold (known b)) }
{}

/// What was handed over stands first for good.
pub fn what_was_handed_over_grows_at_its_end()
    ensures { (p : ℕ) → AfterAnyCalls (λ o b. p < o.partitions → GrowsWith p b) }
{}

/// Over one connection: the bytes that were taken, and behind them those that wait, are the frames of all that was asked over
/// it, in order: Metadata's, that for a producer id, and the core's requests to this node; the frames that were heard, and behind
/// them the bytes that are held, are all that were fed, however cut.
pub fn a_connection_carries_frames_in_order()
    ensures { (node : ℕ) (taken fed : List ℕ) (heard : List (List ℕ)) (mine : List Call) (q : Producer) → Over node taken fed heard mine q
        → Carries node taken fed heard mine q }
{}
