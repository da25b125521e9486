//! Laws on what is told of the items that were appended.

ghost use Rattle.std.specs.Prelude.{◌≡◌, ℕ, ◌+◌, true, List, map, sum_by};
ghost use Rattle.kp_accum.specs.declared.config.Config.{Config};
ghost use Rattle.kp_accum.specs.declared.item.Item.{Item};
ghost use Rattle.kp_rules.specs.declared.names.Names.{Names};
ghost use Rattle.kp_rules.specs.Calls.{Call, Step, Life, appended_by, told_by};
ghost use Rattle.kp_rules.specs.InOrder.{IsInOrder, HasLived};
ghost use Rattle.kp_rules.specs.Partitions.{all_untold};
ghost use Rattle.kp_rules.specs.Records.{Core};

/// A call loses no item and makes none up: what it appends and what was untold before it is what it tells of and what
/// is untold after it, each item as often on both sides. (Give items any weights: both sides weigh the same.)
pub fn what_is_told_was_untold()
    ensures { (s t : Core) (call : Call) → IsInOrder s → Step s call t → (f : Item → ℕ)
        → sum_by f (appended_by call) + sum_by f (all_untold s)
        ≡ sum_by f (map (λ x. x.item) (told_by s call)) + sum_by f (all_untold t) }
{}

/// Whatever calls a new core has heard, what was appended is what was told and what is still untold, each item as
/// often.
pub fn what_was_appended_is_told_or_untold()
    ensures { (c : Config) (n : Names) (partitions senders id correlation : ℕ)
        (calls : List Call) (life : Life) (t : Core)
        → HasLived c n partitions senders id correlation calls life t
        → (f : Item → ℕ)
        → sum_by f life.appended ≡ sum_by f (map (λ x. x.item) life.told) + sum_by f (all_untold t) }
{}

/// After the end every item that was appended is told, as often as it was appended.
pub fn after_the_end_all_is_told()
    ensures { (c : Config) (n : Names) (partitions senders id correlation : ℕ)
        (calls : List Call) (life : Life) (t : Core)
        → HasLived c n partitions senders id correlation calls life t
        → t.ended ≡ true
        → (f : Item → ℕ)
        → sum_by f life.appended ≡ sum_by f (map (λ x. x.item) life.told) }
{}
