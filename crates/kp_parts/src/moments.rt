//! Moments: which are over, and which come.

ghost use Rattle.std.specs.Prelude.{◌≡◌, ◌+◌, ◌∷◌, []};
ghost use Rattle.kp_accum.specs.Ready.{is_over};
ghost use Rattle.kp_rules.specs.Due.{earliest};
ghost use Rattle.kp_parts.specs.PartitionRooms.{sooner};

/// Whether so long has passed since then. The sum does not wrap.
#[inline]
#[tactic(auto, unfolding(kp_accum::specs::Ready::is_over))]
pub fn is_over(since: u64, wait: u64, now: u64) -> bool
    ensures { result ≡ is_over since wait now }
{
    since <= now && wait <= now - since
}

/// So long after that moment, where that comes: not before `from`, and in 64 bits.
pub fn moment(since: u64, wait: u64, from: u64) -> Option<u64>
    ensures { result ≡ earliest from ((since + wait) ∷ []) }
{
    since.checked_add(wait).filter(|at| *at >= from)
}

/// The sooner of two moments; none is later than any.
pub fn sooner(a: Option<u64>, b: Option<u64>) -> Option<u64>
    ensures { result ≡ sooner a b }
{
    match (a, b) {
        (None, b) => b,
        (a, None) => a,
        (Some(a), Some(b)) => Some(a.min(b)),
    }
}
