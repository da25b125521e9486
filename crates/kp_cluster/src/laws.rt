//! Laws of any calls on a cluster.

ghost use Rattle.std.specs.Prelude.{◌≡◌, ◌+◌, ◌≤◌, ℕ, List, None, position, true, false};
ghost use Rattle.kp_cluster.specs.declared.config.ClusterConfig.{ClusterConfig};
ghost use Rattle.kp_cluster.specs.declared.slot.Address.{Address};
ghost use Rattle.kp_cluster.specs.Cluster.{Cluster, new_cluster};
ghost use Rattle.kp_cluster.specs.Metadata.{METADATA_PAUSE_MS, may_ask, asked, heeded};
ghost use Rattle.kp_cluster.specs.Slots.{is_given_up};
ghost use Rattle.kp_cluster.specs.Actions.{IsBefore, next_due, told};
ghost use Rattle.kp_cluster.specs.Runs.{Call, Runs, ids, GoesOn, AreDistinct};

/// Whatever is called between two requests of Metadata, over whatever connections, the pause is between them.
pub fn metadata_is_not_asked_within_its_pause()
    ensures { (a b : Cluster) (n m at now : ℕ) (calls : List Call)
        → Runs (asked n at a) calls b → may_ask m now b ≡ true → at + METADATA_PAUSE_MS ≤ now }
{}

/// Whatever is called, a slot stays its broker's, and new ones come behind the others.
pub fn slots_are_never_used_again()
    ensures { (a b : Cluster) (calls : List Call) → Runs a calls b → GoesOn (ids a) (ids b) }
{}

/// Whatever is called, no broker has two slots.
pub fn no_broker_has_two_slots()
    ensures { (config : ClusterConfig) (bootstrap : List Address) (calls : List Call) (c : Cluster)
        → Runs (new_cluster config bootstrap) calls c → AreDistinct (ids c) }
{}

/// Until it is due, nothing comes up by itself: no Metadata may be asked, there is nothing to heed, and nothing is told
/// but what was given up.
pub fn nothing_comes_up_before_it_is_due()
    ensures asked { (c : Cluster) (n now : ℕ) → IsBefore now (next_due c) → may_ask n now c ≡ false }
    ensures heeded { (c : Cluster) (now : ℕ) → IsBefore now (next_due c) → heeded now c ≡ c }
    ensures told { (c : Cluster) (now : ℕ) → IsBefore now (next_due c) → position is_given_up c.slots ≡ None
        → told now c ≡ record { action = None; cluster = c } }
{}
