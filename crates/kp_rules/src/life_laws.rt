//! Laws of many calls, one after the other.

ghost use Rattle.std.specs.Prelude.{◌≡◌, ℕ, ◌++◌, ◌∷◌, [], List};
ghost use Rattle.kp_accum.specs.declared.config.Config.{Config};
ghost use Rattle.kp_rules.specs.declared.names.Names.{Names};
ghost use Rattle.kp_rules.specs.Auditing.{without_audits};
ghost use Rattle.kp_rules.specs.Calls.{Call, Step, Life, Lives, life_of, followed_by};
ghost use Rattle.kp_rules.specs.InOrder.{IsHeld, HasLived};
ghost use Rattle.kp_rules.specs.Records.{Core};

/// Where some calls lead to a core, and others lead on from there, all of them lead to the last core, and what they
/// append, tell and send is what the first did, and behind it what the others did.
pub fn calls_lead_on()
    ensures { (s m t : Core) (calls others : List Call) (life later : Life)
        → Lives s calls life m → Lives m others later t → Lives s (calls ++ others) (followed_by life later) t }
{}

/// A core that has lived through some calls has lived through one more once it was made.
pub fn a_call_more_is_lived()
    ensures { (c : Config) (n : Names) (partitions senders id correlation : ℕ)
        (calls : List Call) (life : Life) (s t : Core) (call : Call)
        → HasLived c n partitions senders id correlation calls life s → IsHeld call → Step s call t
        → HasLived c n partitions senders id correlation (calls ++ call ∷ []) (followed_by life (life_of s call)) t }
{}

/// A core that keeps no audits lives as it would with them: the same calls, with the same answers, lead on from the
/// core with its audits too, append, tell and send the same, and lead to a core that differs by its audits alone.
pub fn audits_change_nothing()
    ensures { (s u : Core) (calls : List Call) (life : Life)
        → Lives (without_audits s) calls life u
        → (t : Core) × Lives s calls life t × (u ≡ without_audits t) }
{}
