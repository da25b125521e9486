//! Laws on what the calls on the sender core tell, and on what they fence.

ghost use Rattle.std.specs.Prelude.{◌≡◌, ◌↔◌, ℕ, false, true, List, []};
ghost use Rattle.std.specs.List.{AllByRecursion};
ghost use Rattle.kp_accum.specs.declared.item.Item.{Item};
ghost use Rattle.kp_frames.specs.declared.api.Api.{Api};
ghost use Rattle.kp_frames.specs.declared.response.Response.{Response};
ghost use Rattle.kp_frames.specs.Response.{Spells};
ghost use Rattle.kp_rules.specs.declared.outcome.Report.{Report};
ghost use Rattle.kp_rules.specs.Appending.{append_step};
ghost use Rattle.kp_rules.specs.Calls.{Call, Step, told_by};
ghost use Rattle.kp_rules.specs.Closing.{close_step, end_step};
ghost use Rattle.kp_rules.specs.Dropping.{disconnect_step};
ghost use Rattle.kp_rules.specs.Fetched.{with_fetched, after_fetched};
ghost use Rattle.kp_rules.specs.Flush.{flush_step};
ghost use Rattle.kp_rules.specs.InOrder.{IsHeld};
ghost use Rattle.kp_rules.specs.Leading.{lead_step};
ghost use Rattle.kp_rules.specs.OutcomeRule.{MayBeToldBy, IsFencedBy};
ghost use Rattle.kp_rules.specs.Partitions.{partition_at, all_untold, used};
ghost use Rattle.kp_rules.specs.Records.{Core};
ghost use Rattle.kp_rules.specs.Replies.{awaited, reply_step, response_step, IsReadAs};
ghost use Rattle.kp_rules.specs.Requesting.{request_step};
ghost use Rattle.kp_rules.specs.Tick.{tick_step};

/// Reports that are not fetched yet change nothing of what a call does, tells and answers; a call only adds new ones
/// behind them.
pub fn reports_are_only_added_to()
    ensures append { (earlier : List (List Report)) (i : Item) (s : Core) →
        append_step i (with_fetched earlier s) ≡ after_fetched earlier (append_step i s) }
    ensures request { (earlier : List (List Report)) (node now : ℕ) (s : Core) →
        request_step node now (with_fetched earlier s) ≡ after_fetched earlier (request_step node now s) }
    ensures response { (earlier : List (List Report)) (now : ℕ) (response : Response) (s : Core) →
        response_step now response (with_fetched earlier s) ≡ after_fetched earlier (response_step now response s) }
    ensures reply { (earlier : List (List Report)) (now : ℕ) (content : List ℕ) (s : Core) →
        reply_step now content (with_fetched earlier s) ≡ after_fetched earlier (reply_step now content s) }
    ensures tick { (earlier : List (List Report)) (node now : ℕ) (s : Core) →
        tick_step node now (with_fetched earlier s) ≡ after_fetched earlier (tick_step node now s) }
    ensures disconnect { (earlier : List (List Report)) (node now : ℕ) (s : Core) →
        disconnect_step node now (with_fetched earlier s) ≡ with_fetched earlier (disconnect_step node now s) }
    ensures lead { (earlier : List (List Report)) (partition leader now : ℕ) (s : Core) →
        lead_step partition leader now (with_fetched earlier s) ≡ with_fetched earlier (lead_step partition leader now s) }
    ensures close { (earlier : List (List Report)) (s : Core) →
        close_step (with_fetched earlier s) ≡ with_fetched earlier (close_step s) }
    ensures flush { (earlier : List (List Report)) (s : Core) →
        flush_step (with_fetched earlier s) ≡ with_fetched earlier (flush_step s) }
    ensures end { (earlier : List (List Report)) (s : Core) →
        end_step (with_fetched earlier s) ≡ after_fetched earlier (end_step s) }
{}

/// To hear the bytes of a response of the api that was asked is to hear the response.
pub fn bytes_are_heard_as_their_response()
    ensures { (api : Api) (now : ℕ) (content : List ℕ) (s : Core) (response : Response) →
        Spells api content response → IsReadAs api (awaited response.correlation s) →
        reply_step now content s ≡ response_step now response s }
{}

/// Whatever a call tells of an item is a case of the outcome rule for this call.
pub fn each_call_tells_by_the_rule()
    ensures { (s t : Core) (call : Call) → IsHeld call → Step s call t → AllByRecursion (MayBeToldBy s call) (told_by s call) }
{}

/// A partition becomes fenced only in a tick at which the delivery timeout of one of its open batches is over, or by a
/// reply that refuses one of its batches for good.
pub fn only_late_or_rejected_batches_fence()
    ensures { (s t : Core) (call : Call) (p : ℕ) → IsHeld call → Step s call t → (partition_at p s.partitions).fenced ≡ false → (partition_at p t.partitions).fenced ≡ true →
        IsFencedBy s call p }
{}

/// No memory is used exactly where each item that was appended is told.
pub fn no_memory_is_used_where_all_is_told()
    ensures { (s : Core) → (used s ≡ 0) ↔ (all_untold s ≡ []) }
{}
