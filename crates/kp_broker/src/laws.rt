//! Laws of what a broker answers, of plans, and of connections that break.

ghost use Rattle.std.specs.Prelude.{◌≡◌, ◌++◌, ℕ, List, None};
ghost use Rattle.std.specs.List.{AllByRecursion};
ghost use Rattle.kp_frames.specs.declared.produce.ProduceRequest.{ProduceRequest};
ghost use Rattle.kp_broker.specs.Again.{AreApart, IsLedAlike};
ghost use Rattle.kp_broker.specs.Answering.{TakesSome};
ghost use Rattle.kp_broker.specs.Answers.{after_parts, parts_of, produce_answer};
ghost use Rattle.kp_broker.specs.Broker.{Broker, with_leaders};
ghost use Rattle.kp_broker.specs.Plan.{Plan, Spells};
ghost use Rattle.kp_broker.specs.Serving.{Breaks, LosesAnswer, LosesMemory, served};

/// A Produce request that was given up once some of its parts were taken, as where memory was refused, and that comes
/// again to the same node, is answered as if it had come once: its batches have the offsets where they stand, and each
/// stands once. Each partition stands in it once, as in each request of a producer.
pub fn a_request_that_comes_again_is_answered_alike()
    ensures answer { (node : ℕ) (r : ProduceRequest) (before after : Broker) → AreApart (parts_of r)
        → TakesSome None node r before (parts_of r) after
        → produce_answer None node r after ≡ produce_answer None node r before }
    ensures broker { (node : ℕ) (r : ProduceRequest) (before after : Broker) → AreApart (parts_of r)
        → TakesSome None node r before (parts_of r) after
        → after_parts None node r after (parts_of r) ≡ after_parts None node r before (parts_of r) }
{}

/// The same where leaders moved, and the request comes again to another node: where that leads those of its partitions now
/// that the first led before, it is answered as the first would have answered it.
pub fn a_request_that_comes_again_elsewhere_is_answered_alike()
    ensures { (node other : ℕ) (r : ProduceRequest) (before after : Broker) (leaders : List ℕ) → AreApart (parts_of r)
        → TakesSome None node r before (parts_of r) after
        → AllByRecursion (IsLedAlike node before other (with_leaders leaders after)) (parts_of r)
        → produce_answer None other r (with_leaders leaders after) ≡ produce_answer None node r before }
{}

/// A text spells one plan at most.
pub fn text_spells_one_plan()
    ensures { (text : List ℕ) (a b : Plan) → Spells text a → Spells text b → a ≡ b }
{}

/// What was written on a connection that broke is the first of what is written for its frames.
pub fn broken_connection_wrote_the_first()
    ensures io { (node : ℕ) (plan : Plan) (b after : Broker) (frames : List (List ℕ)) (written : List ℕ)
        → Breaks (LosesAnswer node plan) node plan b frames written after
        → (rest : List ℕ) × ((served node plan b frames).written ≡ written ++ rest) }
    ensures memory { (node : ℕ) (plan : Plan) (b after : Broker) (frames : List (List ℕ)) (written : List ℕ)
        → Breaks (LosesMemory node plan) node plan b frames written after
        → (rest : List ℕ) × ((served node plan b frames).written ≡ written ++ rest) }
{}
