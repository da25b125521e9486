//! Laws of polls, one after the other.

ghost use Rattle.std.specs.Prelude.{◌≡◌, ◌<◌, ◌≤◌, ◌+◌, ◌++◌, ◌∷◌, ℕ, Bool, [], true, List, Option, flat_map, map, option_to_list, sum_by, length, All};
ghost use Rattle.futures.specs.declared.task.Poll.{Poll};
ghost use Rattle.kp_accum.specs.declared.config.Config.{Config};
ghost use Rattle.kp_accum.specs.declared.item.Item.{Item};
ghost use Rattle.kp_connection.specs.Wire.{Wired};
ghost use Rattle.kp_frames.specs.declared.fault.FrameFault.{FrameFault};
ghost use Rattle.kp_lanes.specs.Entries.{items_of};
ghost use Rattle.kp_lanes.specs.Intake.{intake_limits, lanes_of, passed_lists, told_lists};
ghost use Rattle.kp_lanes.specs.declared.intake.Intake.{Intake};
ghost use Rattle.kp_rules.specs.Auditing.{opened};
ghost use Rattle.kp_rules.specs.Calls.{Call, End, Step};
ghost use Rattle.kp_rules.specs.Opening.{MayOpen, new_core};
ghost use Rattle.kp_rules.specs.Partitions.{all_untold};
ghost use Rattle.kp_rules.specs.Records.{Core};
ghost use Rattle.kp_rules.specs.Reports.{reports_to};
ghost use Rattle.kp_rules.specs.declared.names.Names.{Names};
ghost use Rattle.kp_rules.specs.declared.outgoing.Outgoing.{Outgoing};
ghost use Rattle.kp_engine.specs.Away.{MakesTurnAway};
ghost use Rattle.kp_engine.specs.Closing.{ClosesOnce, Polled};
ghost use Rattle.kp_engine.specs.Cluster.{PollsCluster};
ghost use Rattle.kp_engine.specs.Engine.{IsNew, Polls};
ghost use Rattle.kp_engine.specs.Exchange.{senders_of, side_of, OnlyCore};
ghost use Rattle.kp_engine.specs.Opening.{MayTurn};
ghost use Rattle.kp_engine.specs.Parts.{ArePartsOf, IsAccounted};
ghost use Rattle.kp_engine.specs.Polls.{Turn, Turns, TurnUntil};
ghost use Rattle.kp_engine.specs.Serving.{asked_by, from_sender, replied_by, reports_of, HasPlaces, HasServed, Served};
ghost use Rattle.kp_engine.specs.Talking.{contents_of, frames_of};
ghost use Rattle.kp_engine.specs.Turn.{Heard};
ghost use Rattle.kp_engine.specs.declared.engine.Line.{Line};
ghost use Rattle.kp_engine.specs.declared.exchange.Exchange.{Exchange};
ghost use Rattle.kp_engine.specs.declared.cluster.ClusterEngine.{ClusterEngine};
ghost use Rattle.kp_engine.specs.declared.parts.Parts.{Parts};
ghost use Rattle.kp_engine.specs.declared.stop.Cause.{Cause};
ghost use Rattle.kp_engine.specs.declared.stop.Stop.{Stop};

use crate::clock::Clock;
use kp_connection::Stream;

// ---- polls serve

/// Polls behind polls are polls.
pub fn polls_join<S: Stream>()
    ensures { (x y z : Exchange) (a b : List Call) → Polled S.answers x a y → Polled S.answers y b z → Polled S.answers x (a ++ b) z }
{}

/// A poll over several connections is polls, one behind the other.
pub fn a_poll_over_several_is_polls<S: Stream, C: Clock>()
    ensures { (old new : ClusterEngine S C) (result : Poll Stop)
        → PollsCluster S.answers C.moments old result new → (calls : List Call) × Polled S.answers old.exchange calls new.exchange }
{}

/// A turn serves, whatever it answers: also where it is cut, and where memory is refused.
pub fn a_turn_serves<S: Stream>()
    ensures { (node now : ℕ) (x : Exchange) (w : Wired S) (result : Poll Stop) (y : Exchange) (v : Wired S)
        → HasPlaces x → Turns S.answers node now x w result y v → (calls : List Call) × Served x calls y }
{}

/// So does a poll; where the connection was given up before, it makes no calls.
pub fn a_poll_serves<S: Stream>()
    ensures { (line : Line S) (x : Exchange) (result : Poll Stop) (y : Exchange) (left : Line S)
        → HasPlaces x → Polls S.answers line x result y left → (calls : List Call) × Served x calls y }
{}

/// So does a turn with no connection.
pub fn a_turn_away_serves()
    ensures { (cause : Cause) (x : Exchange) (stop : Stop) (y : Exchange)
        → HasPlaces x → (turn : MakesTurnAway cause x stop y) → Served x turn.calls y }
{}

/// So does an end.
pub fn an_end_serves()
    ensures { (x y : Exchange) (told : ℕ) → HasPlaces x → Step x.core (End told) y.core → OnlyCore x y
        → Served x (End told ∷ []) y }
{}

/// What is served in two stretches is served in one.
pub fn serving_joins()
    ensures { (x y z : Exchange) (a b : List Call) → Served x a y → Served y b z → Served x (a ++ b) z }
{}

/// So do any number of polls and ends, one after the other, by all their calls.
pub fn polls_serve<S: Stream>()
    ensures { (x y : Exchange) (calls : List Call) → HasPlaces x → Polled S.answers x calls y → Served x calls y }
{}

/// A poll leaves the lanes as they are.
pub fn a_poll_leaves_the_lanes<S: Stream>()
    ensures { (line : Line S) (x : Exchange) (result : Poll Stop) (y : Exchange) (left : Line S)
        → Polls S.answers line x result y left → lanes_of y.intake ≡ lanes_of x.intake }
{}

/// So does a turn with no connection.
pub fn a_turn_away_leaves_the_lanes()
    ensures { (cause : Cause) (x : Exchange) (stop : Stop) (y : Exchange)
        → MakesTurnAway cause x stop y → lanes_of y.intake ≡ lanes_of x.intake }
{}

// ---- the close

/// Over any number of polls and ends Close stands at most once among all their calls, also where memory is refused; and it
/// stands there only after a poll that knew that no sender could send any more before it found each lane empty, and held
/// nothing.
pub fn polls_close_once<S: Stream>()
    ensures { (x y : Exchange) (calls : List Call) → HasPlaces x → Polled S.answers x calls y → ClosesOnce x calls y }
{}

// ---- since the engine was made

/// An engine may be made of a new core, with audits or without, and of lanes through which nothing went.
pub fn an_engine_may_be_made()
    ensures { (config : Config) (names : Names) (partitions senders id correlation : ℕ) (audits : Bool) (core : Core)
        (intake : Intake) (most : ℕ)
        → core ≡ opened audits (new_core config names partitions senders id correlation)
        → MayOpen config names partitions senders id correlation
        → length (lanes_of intake) ≡ senders
        → intake_limits intake ≡ record { partitions = partitions; max_record = most }
        → most ≤ config.max_request_size → most ≤ config.buffer_memory
        → All (λ l. l ≡ []) (passed_lists intake) → All (λ l. l ≡ []) (told_lists intake) → MayTurn core intake }
{}

/// A new engine has its places.
pub fn a_new_one_has_places()
    ensures { (core : Core) (intake : Intake) (keeps : Bool) (x : Exchange) → IsNew core intake keeps x → HasPlaces x }
{}

/// What was taken of a sender's lane is what was appended of it, and behind it the item that is held; and what was told of
/// its items, in order, was handed to its ring, is held since the ring was full, or waits in the core.
pub fn what_was_taken_is_appended_or_held()
    ensures { (core : Core) (intake : Intake) (keeps : Bool) (x y : Exchange) (calls : List Call)
        → MayTurn core intake → IsNew core intake keeps x → (served : Served x calls y) → (i : ℕ) → i < senders_of x
        → (items_of (side_of y i).passed ≡ from_sender i served.life.appended ++ option_to_list (side_of y i).held)
        × (reports_of y i ≡ reports_to i served.life.told) }
{}

/// Each item that was taken of a sender's lane is held, or untold in the core, or was told, as often as it was taken. (Give
/// items any weights: both sides weigh the same.)
pub fn what_was_taken_is_held_or_untold_or_told()
    ensures { (core : Core) (intake : Intake) (calls : List Call) (y : Exchange) → (h : HasServed core intake calls y)
        → (i : ℕ) → i < senders_of y → (f : Item → ℕ)
        → sum_by f (items_of (side_of y i).passed)
        ≡ sum_by f (option_to_list (side_of y i).held) + sum_by f (from_sender i (all_untold y.core))
        + sum_by f (from_sender i (map (λ x. x.item) h.served.life.told)) }
{}

/// So each has one report, unless it is held or untold. (Items and reports are weighed by their partitions and numbers.)
pub fn each_item_taken_has_one_report()
    ensures { (core : Core) (intake : Intake) (calls : List Call) (y : Exchange) → HasServed core intake calls y
        → (i : ℕ) → i < senders_of y → (f : ℕ → ℕ → ℕ)
        → sum_by (λ x. f x.partition x.number) (items_of (side_of y i).passed)
        ≡ sum_by (λ x. f x.partition x.number) (option_to_list (side_of y i).held)
        + sum_by (λ x. f x.partition x.number) (from_sender i (all_untold y.core))
        + sum_by (λ r. f r.partition r.number) (reports_of y i) }
{}

/// Once the core has ended nothing is untold: each item that was taken has one report, unless it is held.
pub fn after_the_end_each_has_one_report()
    ensures { (core : Core) (intake : Intake) (calls : List Call) (y : Exchange) → HasServed core intake calls y
        → y.core.ended ≡ true → (i : ℕ) → i < senders_of y → (f : ℕ → ℕ → ℕ)
        → sum_by (λ x. f x.partition x.number) (items_of (side_of y i).passed)
        ≡ sum_by (λ x. f x.partition x.number) (option_to_list (side_of y i).held)
        + sum_by (λ r. f r.partition r.number) (reports_of y i) }
{}

// ---- poll by poll, since it was made

/// A new engine has served no call.
pub fn a_new_one_has_served_none()
    ensures { (core : Core) (intake : Intake) (keeps : Bool) (x : Exchange) → MayTurn core intake
        → IsNew core intake keeps x → HasServed core intake [] x }
{}

/// With a poll it has served the poll's calls too.
pub fn a_poll_is_served_too<S: Stream>()
    ensures { (core : Core) (intake : Intake) (calls : List Call) (line : Line S) (x : Exchange) (result : Poll Stop)
        (y : Exchange) (left : Line S) → HasServed core intake calls x → Polls S.answers line x result y left
        → (more : List Call) × HasServed core intake (calls ++ more) y }
{}

/// So with a turn with no connection.
pub fn a_turn_away_is_served_too()
    ensures { (core : Core) (intake : Intake) (calls : List Call) (cause : Cause) (x : Exchange) (stop : Stop) (y : Exchange)
        → HasServed core intake calls x → (turn : MakesTurnAway cause x stop y) → HasServed core intake (calls ++ turn.calls) y }
{}

/// And with an end, after which its core has ended.
pub fn an_end_is_served_too()
    ensures { (core : Core) (intake : Intake) (calls : List Call) (x y : Exchange) (told : ℕ) → HasServed core intake calls x
        → Step x.core (End told) y.core → OnlyCore x y
        → HasServed core intake (calls ++ End told ∷ []) y × (y.core.ended ≡ true) }
{}

// ---- an engine that is taken apart

/// Once the core has ended, what the engine is taken apart into accounts for what was taken: of each sender's items, in
/// order, those first have one report each, and the one behind them, if there is one, is held.
pub fn parts_account_for_what_was_taken()
    ensures { (core : Core) (intake : Intake) (calls : List Call) (x : Exchange) (parts : Parts)
        → HasServed core intake calls x → x.core.ended ≡ true → ArePartsOf x parts → IsAccounted parts }
{}

/// A core and lanes of which no engine was made account for nothing.
pub fn unmade_parts_account_for_nothing()
    ensures { (core : Core) (intake : Intake) (parts : Parts) → MayTurn core intake → parts.core ≡ core
        → parts.intake ≡ intake → parts.held.items.items ≡ [] → parts.held.reports.items ≡ [] → IsAccounted parts }
{}

// ---- what goes over the connection

/// The requests of a turn are those that its calls on the core gave, and the replies those that the core heard.
pub fn calls_go_over_the_connection()
    ensures { (node now : ℕ) (x y : Exchange) (sent : List Outgoing) (heard : List Heard)
        (refused : Option (List ℕ × FrameFault)) (cut : Option Cause) (calls : List Call)
        → Turn node now x sent heard refused cut calls y
        → (flat_map asked_by calls ≡ frames_of sent) × (flat_map replied_by calls ≡ contents_of heard) }
{}

/// Where memory is refused, those that went are the first of them.
pub fn calls_go_until_memory_is_refused()
    ensures { (node now : ℕ) (x y : Exchange) (sent : List Outgoing) (heard : List Heard) (calls : List Call)
        → TurnUntil node now x y sent heard calls → (more : List (List ℕ)) × (flat_map asked_by calls ≡ frames_of sent ++ more)
        × (flat_map replied_by calls ≡ contents_of heard) }
{}

/// With no connection there are none.
pub fn no_call_goes_with_no_connection()
    ensures { (cause : Cause) (x : Exchange) (stop : Stop) (y : Exchange) → (turn : MakesTurnAway cause x stop y)
        → (flat_map asked_by turn.calls ≡ []) × (flat_map replied_by turn.calls ≡ []) }
{}
