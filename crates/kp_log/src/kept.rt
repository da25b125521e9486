//! What a log keeps of each producer.

ghost use Rattle.std.specs.Prelude.{◌≡◌, ◌+◌, ◌<◌, ◌^◌, [], ◌∷◌, ◌++◌, unwrap_or};
ghost use Rattle.std.specs.Option.{option_copied};
ghost use Rattle.kp_log.specs.Log.{last_kept, nothing_kept, kept_after};

use arrayvec::ArrayVec;
use std::marker::Model;

/// How many of a producer's batches are kept: Kafka's producer has at most so many requests in flight.
pub(crate) const KEPT: usize = 5;

/// Where a batch stands in its producer's sequence, and in the log.
#[derive(Clone, Copy, Debug, Default, PartialEq, Eq)]
pub(crate) struct Span {
    pub base_sequence: i32,
    pub count: u32,
    pub base_offset: i64,
}

/// A producer's last batches, the oldest first.
#[derive(Debug, Drop)]
pub(crate) struct Recent {
    spans: ArrayVec<Span, KEPT>,
}

impl Model for Recent {
    ghost use Rattle.std.specs.Prelude.{List};
    ghost use Rattle.kp_log.specs.declared.kept.Span.{Span};

    ghost Value = { List Span };

    ghost view = { λ recent. recent.spans.items };
}

impl Recent {
    pub fn new() -> Recent
        ensures { result ≡ [] }
    {
        Recent {
            spans: ArrayVec::new(),
        }
    }

    pub fn as_slice(&self) -> &[Span]
        ensures { result.now ≡ self.now }
    {
        self.spans.as_slice()
    }

    /// These batches and one more, without the oldest where there would be too many.
    pub fn with(&self, span: Span) -> Recent
        ensures { result ≡ last_kept (self.now ++ span ∷ []) }
    {
        let old = self.spans.as_slice();
        let first = (old.len() + 1).saturating_sub(KEPT);
        let mut spans = ArrayVec::new();
        spans.try_extend_from_slice(&old[first..]).unwrap();
        spans.push(span);
        Recent { spans }
    }
}

/// What a log keeps of a producer.
#[derive(Debug, Drop)]
pub(crate) struct Kept {
    /// How many records of the log are the producer's.
    pub count: u32,
    pub spans: Recent,
}

/// How many records of the log are the producer's.
pub(crate) fn kept_count(kept: Option<&Kept>) -> u32
    ensures { result ≡ (unwrap_or (option_copied kept.entry) nothing_kept).count }
{
    match kept {
        Some(kept) => kept.count,
        None => 0,
    }
}

/// The producer's last batches, the oldest first.
pub(crate) fn kept_spans(kept: Option<&Kept>) -> &[Span]
    ensures { result.now ≡ (unwrap_or (option_copied kept.entry) nothing_kept).spans }
{
    match kept {
        Some(kept) => kept.spans.as_slice(),
        None => &[],
    }
}

/// What is kept with one batch more.
pub(crate) fn kept_with(kept: Option<&Kept>, span: Span) -> Kept
    requires { (unwrap_or (option_copied kept) nothing_kept).count + span.count < 2 ^ 32 }
    ensures { result ≡ kept_after (unwrap_or (option_copied kept.entry) nothing_kept) span }
{
    match kept {
        Some(kept) => Kept {
            count: kept.count + span.count,
            spans: kept.spans.with(span),
        },
        None => Kept {
            count: span.count,
            spans: Recent::new().with(span),
        },
    }
}
