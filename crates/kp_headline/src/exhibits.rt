//! What is said of any moves is said of some; and each part of what is assumed is needed.

ghost use Rattle.std.specs.Prelude.{pos, [], ◌∷◌};
ghost use Rattle.kp_rules.specs.declared.outcome.Outcome.TheVariants.{Delivered};
ghost use Rattle.kp_world.specs.Accounts.{AreAccountedFor};
ghost use Rattle.kp_world.specs.LogLaws.{IsPrefix, ToldOffsetsStand};
ghost use Rattle.kp_headline.specs.Exhibits.{Honest, IdsOnce, InTurn, IsNeeded, Misleads, NotMadeUp, Shows, first, lost_and_repeated, made_up, stored_and_forgotten, stored_and_moved, stored_by_word, unasked, under_its_id};

/// A connection is lost and its batch sent again; the second packet is stored, and then the first comes, late and twice;
/// the reply to the second is heard as bytes, and the report fetched.
pub fn a_batch_may_be_lost_and_repeated()
    ensures { Shows lost_and_repeated
        (record { item = first; outcome = Delivered (pos 0) } ∷ [])
        ((record { sender = 0; partition = 0; number = 0; outcome = Delivered (pos 0) } ∷ []) ∷ []) }
{}

/// A batch is stored, and before its reply comes another node leads the partition: it is sent there after the backoff, its
/// repeat is told the offset, and the report fetched.
pub fn a_leader_may_move()
    ensures { Shows stored_and_moved
        (record { item = first; outcome = Delivered (pos 0) } ∷ [])
        ((record { sender = 0; partition = 0; number = 0; outcome = Delivered (pos 0) } ∷ []) ∷ []) }
{}

/// Bytes that are made up under a correlation id in flight are believed: an item is told an offset at which nothing
/// stands.
pub fn a_made_up_reply_is_believed()
    ensures { Misleads made_up (record { item = first; outcome = Delivered (pos 7) } ∷ []) }
{}

/// Where all is assumed but one part, a law fails: a broker that says what it has not done, a reply that was made up, an
/// item that its sender had not accepted, and somebody else's record under this producer's id.
pub fn each_assumption_is_needed()
    ensures honest { IsNeeded Honest stored_by_word ToldOffsetsStand }
    ensures not_made_up { IsNeeded NotMadeUp made_up ToldOffsetsStand }
    ensures in_turn { IsNeeded InTurn unasked (AreAccountedFor 0 0) }
    ensures ids_once { IsNeeded IdsOnce under_its_id (IsPrefix 0) }
{}

/// Where a node is elected to lead that has not got what was acknowledged, an item was told an offset at which nothing
/// stands: the partition has a log then that has lost a record, which no honest broker's has.
pub fn an_unclean_election_loses_what_was_told()
    ensures { IsNeeded Honest stored_and_forgotten ToldOffsetsStand }
{}
