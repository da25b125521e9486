//! What senders had accepted, once they have finished and their lanes are settled: what was taken of a lane, and behind it
//! what is left there. So what is said of any polls is said of all that was accepted.

ghost use Rattle.std.specs.Prelude.{◌≡◌, ℕ, ◌<◌, ◌++◌, ◌∷◌, [], List, slice_index_or};
ghost use Rattle.kp_accum.specs.declared.item.Item.{Item};
ghost use Rattle.kp_engine.specs.Agreement.{Serves};
ghost use Rattle.kp_engine.specs.declared.exchange.Exchange.{Exchange};
ghost use Rattle.kp_headline.specs.Offering.{AreOffered};
ghost use Rattle.kp_lanes.specs.Intake.{taken_of};
ghost use Rattle.kp_lanes.specs.Sender.{accepted, limits_of, sender_number};
ghost use Rattle.kp_lanes.specs.Settling.{left_items};
ghost use Rattle.kp_lanes.specs.declared.sender.Finished.{Finished};
ghost use Rattle.kp_lanes.specs.declared.sender.Sender.{Sender};
ghost use Rattle.kp_lanes.specs.declared.settling.Settled.{Settled};
ghost use Rattle.kp_polls.specs.Polling.{HaveAccepted, Polling, core_of};
ghost use Rattle.kp_polls.specs.Settled.{AreSettled, HadAccepted, IsSent};
ghost use Rattle.kp_rules.specs.Calls.{Call};
ghost use Rattle.kp_world.specs.World.{Opening};

use kp_connection::Stream;

/// Each item that `send` accepts is numbered by its place and within the limits, where those before it are.
pub fn what_send_accepts_is_numbered_by_place()
    ensures { (o : Opening) (s : Sender) (i : Item) → Serves (core_of o) (limits_of s)
        → AreOffered o (sender_number s) [] (accepted s) → IsSent s i → AreOffered o (sender_number s) [] (accepted s ++ i ∷ []) }
{}

/// Of each sender what was taken by any polls, and behind it what is left in its lane, is what it had accepted, in order.
pub fn what_was_accepted_was_taken_or_is_left<S: Stream>()
    ensures { (o : Opening) (calls : List Call) (x : Exchange) (finished : List Finished) (s : Settled) (lists : List (List Item))
        → Polling S.answers o calls x → AreSettled x.intake finished s → HadAccepted o finished lists
        → (i : ℕ) → i < o.senders → slice_index_or lists i [] ≡ taken_of x.intake i ++ slice_index_or (left_items s.left.items) i [] }
{}

/// So the laws of any polls speak of all that was accepted.
pub fn laws_are_of_all_that_was_accepted<S: Stream>()
    ensures { (o : Opening) (calls : List Call) (x : Exchange) (finished : List Finished) (s : Settled) (lists : List (List Item))
        → Polling S.answers o calls x → AreSettled x.intake finished s → HadAccepted o finished lists → HaveAccepted o x lists }
{}
