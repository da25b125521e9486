//! Laws of the definitions that this crate's contracts cite.

ghost use Rattle.std.specs.Prelude.{ℕ, List, Option};
ghost use Rattle.kp_cluster.specs.Cluster.{Cluster};
ghost use Rattle.kp_cluster.specs.Runs.{Call, Runs};
ghost use Rattle.kp_network.specs.News.{Knows};
ghost use Rattle.kp_running.specs.declared.keeping.News.{News};

/// What a poll makes of the cluster is calls on it, so the laws of any calls on a cluster hold of any polls.
pub fn a_poll_is_calls_on_the_cluster<S>()
    ensures { (now : ℕ) (a b : Cluster) (news : Option (News S)) → Knows now a news b → (calls : List Call) × Runs a calls b }
{}
