//! That each rule is needed: a producer that goes by all rules but one breaks a law of every run.

ghost use Rattle.std.specs.Prelude.{◌≡◌, ℕ};
ghost use Rattle.kp_accum.specs.Queue.{Pending};
ghost use Rattle.kp_accum.specs.declared.config.Config.{Config};
ghost use Rattle.kp_accum.specs.declared.flags.Flags.{Flags};
ghost use Rattle.kp_rules.specs.MaySend.{is_in_span, may_hand_over};
ghost use Rattle.kp_rules.specs.Records.{Partition};
ghost use Rattle.kp_rules.specs.Settling.{settle_batch};
ghost use Rattle.kp_rules.specs.Tick.{heed_deadlines};
ghost use Rattle.kp_world.specs.Accounts.{IsNeverSent};
ghost use Rattle.kp_world.specs.Client.{client};
ghost use Rattle.kp_world.specs.LogLaws.{EachDeliveryHasItsOffset, IsPrefix, ToldOffsetsStand};
ghost use Rattle.kp_world.specs.OtherRules.{Breaks, TellsAgainstRule, settling_dropped, stored_and_dropped, sending_by, with_window, counts_open, one_wider, without_waiting, changing_first, recut, second_goes_again, settling_by, without_fence, second_is_refused, hearing_as, at_sequences, to_oldest, ticking_by, open_expires, keeping_ids, one_each, two_an_id, six_on_their_way, second_comes_first, stored_behind_another, answered_again, stored_and_late, goes_on_under_an_id};
ghost use Rattle.kp_world.specs.World.{World};
ghost use Rattle.kp_world.specs.Events.{WorldEvent, Reply};

/// Where the rule for handing over, the partitions before a request, the replies as they are heard, the rule for an answer,
/// or the rule for a tick are as they are, these producers are the producer.
#[tactic(auto, unfolding(crate::specs::Client::client, kp_rules::specs::Requesting::request_step, kp_rules::specs::Next::next_demand, kp_rules::specs::Next::next_batches, kp_rules::specs::MaySend::sends, kp_rules::specs::Tick::tick_step))]
pub fn only_one_rule_is_changed()
    ensures handing_over { (e : WorldEvent) (w : World) → sending_by may_hand_over e w ≡ client e w }
    ensures window { (c : Config) (flags : Flags) (now : ℕ) (t : Partition) (front : Pending)
        → with_window (λ c t. is_in_span c t.next_number t.open_batches) c flags now t front ≡ may_hand_over c flags now t front }
    ensures hearing { (e : WorldEvent) (w : World) → hearing_as (λ w x. x) e w ≡ client e w }
    ensures going_again { (e : WorldEvent) (w : World) → changing_first (λ c now t. t) e w ≡ client e w }
    ensures settling { (e : WorldEvent) (w : World) → settling_by settle_batch e w ≡ client e w }
    ensures ticking { (e : WorldEvent) (w : World) → ticking_by heed_deadlines e w ≡ client e w }
{}

/// Each of these producers goes by all rules but one, and through a schedule with an honest broker after which a law does
/// not hold: one whose window counts the open batches, or is of one batch more; one whose second batch does not wait for
/// the first; one that recuts a batch that goes out again; one that takes sequence numbers for offsets; one in which a stale
/// reply settles the oldest request in flight, or the batch of its own dropped attempt; one that goes on where a batch was
/// refused for good; one whose open batches expire; one that goes on under its old producer id with its sequence begun
/// again.
pub fn each_rule_is_needed()
    ensures window_of_open_batches { Breaks (sending_by (with_window counts_open)) one_each six_on_their_way EachDeliveryHasItsOffset }
    ensures window_of_six { Breaks (sending_by (with_window one_wider)) one_each six_on_their_way EachDeliveryHasItsOffset }
    ensures second_before_first { Breaks (sending_by without_waiting) one_each second_comes_first (IsPrefix 0) }
    ensures retry_is_recut { Breaks (changing_first recut) one_each second_goes_again (IsPrefix 0) }
    ensures sequence_told { Breaks (hearing_as at_sequences) one_each stored_behind_another ToldOffsetsStand }
    ensures stale_settles { Breaks (hearing_as to_oldest) one_each answered_again ToldOffsetsStand }
    ensures dropped_settles { TellsAgainstRule settling_dropped one_each stored_and_dropped (Reply 0) }
    ensures rejection_fences_not { Breaks (settling_by without_fence) two_an_id second_is_refused (IsPrefix 0) }
    ensures open_expires { Breaks (ticking_by open_expires) one_each stored_and_late (IsNeverSent 0) }
    ensures old_id_kept { Breaks keeping_ids two_an_id goes_on_under_an_id ToldOffsetsStand }
{}
