//! Laws of the definitions that this crate's contracts cite.

ghost use Rattle.std.specs.Prelude.{◌≡◌, ◌++◌, List, ℕ, []};
ghost use Rattle.kp_batch.specs.declared.batch.Batch.{Batch};
ghost use Rattle.kp_batch.specs.Spelling.{Spells};

/// A batch has at most one spelling, a spelling is that of one batch, and none is a proper prefix of another.
pub fn batch_has_one_spelling()
    ensures { (a b : Batch) (x y rest : List ℕ) → Spells x a → Spells y b → y ≡ x ++ rest
        → (a ≡ b) × (rest ≡ []) }
{}
