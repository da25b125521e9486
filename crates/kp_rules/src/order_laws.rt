//! Laws of what holds of every core that calls have led to.

ghost use Rattle.std.specs.Prelude.{ℕ, List};
ghost use Rattle.std.specs.Str.{IsUtf8};
ghost use Rattle.kp_accum.specs.declared.config.Config.{Config};
ghost use Rattle.kp_rules.specs.declared.names.Names.{Names};
ghost use Rattle.kp_rules.specs.Calls.{Call, Step, Life};
ghost use Rattle.kp_rules.specs.InOrder.{IsInOrder, IsHeld, HasLived};
ghost use Rattle.kp_rules.specs.Opening.{MayOpen, new_core};
ghost use Rattle.kp_rules.specs.Records.{Core};

/// A new core is in order, where its configuration is one that is let through and its names are texts.
pub fn a_new_core_is_in_order()
    ensures { (c : Config) (n : Names) (partitions senders id correlation : ℕ)
        → MayOpen c n partitions senders id correlation → IsUtf8 n.topic → IsUtf8 n.client
        → IsInOrder (new_core c n partitions senders id correlation) }
{}

/// A core that is in order is so after every call too, whatever the call answers and whatever bytes a reply has.
pub fn each_call_keeps_the_order()
    ensures { (s t : Core) (call : Call) → IsHeld call → Step s call t → IsInOrder s → IsInOrder t }
{}

/// So every core that calls have led to is in order.
pub fn every_core_is_in_order()
    ensures { (c : Config) (n : Names) (partitions senders id correlation : ℕ)
        (calls : List Call) (life : Life) (t : Core)
        → HasLived c n partitions senders id correlation calls life t → IsInOrder t }
{}
