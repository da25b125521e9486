//! Laws of what schedules say.

ghost use Rattle.std.specs.Prelude.{◌≡◌, ℕ};
ghost use Rattle.kp_schedule.specs.Grammar.{Says};
ghost use Rattle.kp_schedule.specs.Lines.{Text};
ghost use Rattle.kp_schedule.specs.Schedule.{IsFirstBad, Spells};
ghost use Rattle.kp_schedule.specs.declared.saying.Saying.{Saying};
ghost use Rattle.kp_schedule.specs.declared.schedule.Schedule.{Schedule};

/// No line is understood in two ways.
pub fn line_says_one_thing()
    ensures { (line : Text) (x y : Saying) → Says line x → Says line y → x ≡ y }
{}

/// A text spells one schedule at most.
pub fn text_spells_one_schedule()
    ensures { (text : Text) (a b : Schedule) → Spells text a → Spells text b → a ≡ b }
{}

/// It spells none where a line is not understood, and there is one first such line.
pub fn text_has_one_fault()
    ensures none { (text : Text) (s : Schedule) (n : ℕ) → Spells text s → ¬ (IsFirstBad text n) }
    ensures first { (text : Text) (n k : ℕ) → IsFirstBad text n → IsFirstBad text k → n ≡ k }
{}
