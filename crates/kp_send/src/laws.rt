//! Laws of the definitions that this crate's contracts cite.

ghost use Rattle.std.specs.Prelude.{Bool, List, ℕ, [], ◌∷◌, ◌++◌};
ghost use Rattle.kp_send.specs.Latency.{Adds, IsNear, IsRanked, IsTableOf, Table};
ghost use Rattle.kp_send.specs.Ledger.{Book, Call, entered_by, Follow, left_by, Moves};
ghost use Rattle.kp_send.specs.Sender.{Account, IsFresh};
ghost use Rattle.kp_send.specs.Streaming.{Goes, Passes};
ghost use Rattle.kp_send.specs.declared.form.Form.{Form};
ghost use Rattle.kp_send.specs.declared.texts.Texts.{Texts};

/// Of the lines that waited and those that were entered by any calls, each has left once, or still waits; and no other
/// has, or does.
pub fn each_line_leaves_once_or_waits()
    ensures { (old : Book) (calls : List Call) (new : Book) → Follow old calls new
        → Moves old (entered_by calls) (left_by calls) new }
{}

/// Where a table is that of some latencies, and one is added, it is that of these and this one.
pub fn a_latency_more_is_counted()
    ensures { (latencies : List ℕ) (old new : Table) (latency : ℕ)
        → IsTableOf latencies old → Adds old latency new → IsTableOf (latencies ++ latency ∷ []) new }
{}

/// Of the latencies that were added so many as the rank are at most what is told of it, and fewer are below what this is
/// at most a 32nd above.
pub fn a_percentile_is_near()
    ensures { (latencies : List ℕ) (table : Table) (rank told : ℕ)
        → IsTableOf latencies table → IsRanked table rank told → IsNear latencies rank told }
{}

/// By any calls on a new sender: the bytes that were taken are cut into lines, numbered in their order; each of these was told
/// of once, by its number, or is on its way; and what is written is of those that were told of, in their order.
pub fn each_line_is_told_of_once()
    ensures { (form : Form) (delimiter : ℕ) (keeps : Bool) (a b : Account) (texts after : Texts) (taken : List ℕ)
        → IsFresh form delimiter keeps a → Goes a texts taken b after → Passes a texts taken b after }
{}
