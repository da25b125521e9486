//! Laws of the definitions that this crate's contracts cite.

ghost use Rattle.std.specs.Prelude.{◌≡◌, List, ℕ};
ghost use Rattle.kp_lines.specs.Lines.{beginning, Call, Cutting, Follow, taken_by, Tells, told_by};
ghost use Rattle.kp_lines.specs.Split.{SplitsAt};

/// There is no other way to split bytes at a delimiter.
pub fn bytes_are_split_in_one_way()
    ensures { (delimiter : ℕ) (bytes : List ℕ) (a b : List (List ℕ)) (x y : List ℕ)
        → SplitsAt delimiter bytes a x → SplitsAt delimiter bytes b y → (a ≡ b) × (x ≡ y) }
{}

/// However a stream is cut into chunks, its lines are told, each once and in order, numbered from 1, and what is left is
/// the beginning of the line behind them.
pub fn any_chunks_are_told_as_their_stream()
    ensures { (delimiter : ℕ) (calls : List Call) (after : Cutting)
        → Follow (beginning delimiter) calls after
        → Tells (beginning delimiter) (taken_by calls) (told_by calls) after }
{}
