//! That the laws of every run are said of some: runs in which each outcome is told.

ghost use Rattle.std.specs.Prelude.{pos, [], ◌∷◌};
ghost use Rattle.kp_rules.specs.declared.outcome.Outcome.TheVariants as outcome;
ghost use Rattle.kp_rules.specs.declared.outcome.Reason.TheVariants as reason;
ghost use Rattle.kp_world.specs.Reaching.{Tells, stored_and_repeated, sent_and_late, refused_and_followed, queued_and_late, queued_and_ended, Leads, orders, stored_together, exchanged};

/// Each outcome is told in some run, but for a delivery without an offset, which none is told; and each kind of event
/// that names no node is in one of these runs.
pub fn each_outcome_is_told_in_some_run()
    ensures delivered { Tells stored_and_repeated (outcome.Delivered (pos 0) ∷ []) }
    ensures unknown { Tells sent_and_late (outcome.Unknown ∷ []) }
    ensures rejected { Tells refused_and_followed
        (outcome.Rejected (pos 10) ∷ outcome.Unsent reason.Fenced ∷ []) }
    ensures expired { Tells queued_and_late (outcome.Unsent reason.Expired ∷ []) }
    ensures ended { Tells queued_and_ended (outcome.Unsent reason.Ended ∷ []) }
{}

/// A run need not be a schedule's: it may begin with other names and ids, accept records with a key and headers, of any
/// moment, go on beside another idempotent producer, and hear a reply with its entries in another order and with times.
pub fn runs_are_more_than_schedules()
    ensures { Leads orders stored_together (exchanged ∷ [])
        (outcome.Delivered (pos 1) ∷ outcome.Delivered (pos 0) ∷ []) }
{}
