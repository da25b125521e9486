//! Laws of the definitions on the sender core.

ghost use Rattle.std.specs.List.{AllByRecursion};
ghost use Rattle.kp_rules.specs.OutcomeRule.{Telling, MayTell, told_in};
ghost use Rattle.kp_rules.specs.Records.{Core};

/// Whatever a call tells of an item is a case of the outcome rule.
pub fn each_outcome_has_its_cause()
    ensures { (s : Core) (call : Telling)
        → AllByRecursion (λ t. MayTell s call t.item t.outcome) (told_in s call) }
{}
