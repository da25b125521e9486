//! Laws of every run, of any service: of what is known once it has ended and was settled, with any brokers and any network
//! around it.

ghost use Rattle.std.specs.Prelude.{ℕ, ◌<◌, List};
ghost use Rattle.kp_client.specs.declared.left.Left.{Left};
ghost use Rattle.kp_client.specs.declared.service.Service.{Service};
ghost use Rattle.kp_client_laws.specs.Accounts.{AreAccountedFor, WereSent};
ghost use Rattle.kp_client_laws.specs.Over.{AfterAnyService, IsOver, accepted_in, opening_of};
ghost use Rattle.kp_client_laws.specs.Told.{AreReported, DeliveredStand};
ghost use Rattle.kp_headline.specs.Moves.{Move};
ghost use Rattle.kp_headline.specs.Outside.{known};
ghost use Rattle.kp_lanes.specs.declared.sender.Finished.{Finished};
ghost use Rattle.kp_headline.specs.Around.{Around};
ghost use Rattle.kp_world.specs.Accounts.{AreInOrder, IsToldOnce};
ghost use Rattle.kp_world.specs.Handed.{AreItems};
ghost use Rattle.kp_world.specs.LogLaws.{IsPrefix};

/// A partition's log, read for this producer alone, is a prefix of what was handed over for the partition.
pub fn the_log_is_a_prefix()
    ensures { (p : ℕ) → AfterAnyService (λ o b left finished. p < o.partitions → IsPrefix p (known b)) }
{}

/// The k-th own record of a log is that of item k of what was handed over: each is there once.
pub fn own_records_are_the_items_handed_over()
    ensures { (p : ℕ) → AfterAnyService (λ o b left finished. p < o.partitions → AreItems p (known b)) }
{}

/// The reports that a sender received, and behind them those that come back, are of all that was told of its records, in
/// order, each with what became of it.
pub fn reports_are_of_all_that_was_told()
    ensures { AfterAnyService AreReported }
{}

/// A record that a sender is told to be delivered at an offset, by a report that it received or that comes back, stands there
/// in its partition's log; and it is the one that the sender had accepted under this ticket.
pub fn told_offsets_stand()
    ensures { AfterAnyService DeliveredStand }
{}

/// Of each partition, what was handed over of a sender's records is, in order and once, what the sender had accepted, but for
/// what it was told Unsent of, by a report that it received or that comes back, and what comes back itself.
pub fn what_was_accepted_is_accounted_for()
    ensures { AfterAnyService AreAccountedFor }
{}

/// Each record of this producer in a log is one that a sender had accepted for the partition, of which the sender was not told
/// Unsent, and which does not come back.
pub fn unsent_is_never_sent()
    ensures { AfterAnyService WereSent }
{}

/// The calls on the core of any service may stand alone, with nothing around them: so there are moves around them.
pub fn calls_may_stand_alone()
    ensures { (service : Service) (finished : List Finished) (left : Left) → (over : IsOver service finished left)
        → (ms : List Move) × Around (opening_of service) (accepted_in service finished) over.has_ended.calls ms }
{}

/// Of each sender and partition, items are handed over in the order of their numbers, and each once.
pub fn items_are_handed_over_in_order_and_once()
    ensures { (s p : ℕ) → AfterAnyService (λ o b left finished. p < o.partitions → AreInOrder s p (known b)) }
{}

/// No item is told twice.
pub fn each_item_is_told_once()
    ensures { AfterAnyService (λ o b left finished. IsToldOnce (known b)) }
{}
