//! When Metadata is asked for.

ghost use Rattle.std.specs.Prelude.{◌≡◌, ◌&&◌, is_none, true, false, None, Some, ◌||◌};
ghost use Rattle.std.specs.List.{list_any};
ghost use Rattle.std.specs.Option.{option_map_or};
ghost use Rattle.kp_cluster.specs.Metadata.{is_past, is_to_be_asked};
ghost use Rattle.kp_cluster.specs.Backoff.{metadata_lost};

/// Metadata is asked no more often, in milliseconds: a cluster that chooses a leader takes about so long.
pub const METADATA_PAUSE_MS: u64 = 100;

/// What is known of Metadata.
#[derive(Clone, Copy, Debug, PartialEq, Eq)]
pub(crate) struct Metadata {
    /// It is to be asked for.
    pub(crate) wanted: bool,
    /// The slot over whose connection it was asked, where its answer is awaited.
    pub(crate) awaited: Option<u32>,
    /// When it was last asked for.
    pub(crate) asked_at: Option<u64>,
    /// When the last chart came.
    pub(crate) charted_at: Option<u64>,
}

/// Whether so much time has gone since that moment.
pub(crate) fn is_past(wait: u64, now: u64, at: u64) -> bool
    ensures { result ≡ is_past wait now at }
{
    at <= now && wait <= now - at
}

/// Whether so much time has gone since that moment, where there is one; else this.
pub(crate) fn is_past_or(default: bool, wait: u64, now: u64, at: Option<u64>) -> bool
    ensures { result ≡ option_map_or (is_past wait now) at default }
{
    match at {
        Some(at) => is_past(wait, now, at),
        None => default,
    }
}

/// Whether a partition has no leader.
fn has_leaderless(leaders: &[Option<u32>]) -> bool
    ensures { result ≡ list_any is_none leaders.now }
{
    leaders.iter().any(|leader| leader.is_none())
}

impl Metadata {
    pub(crate) const NEW: Metadata = Metadata {
        wanted: true,
        awaited: None,
        asked_at: None,
        charted_at: None,
    };

    /// Whether it may be asked over an open connection.
    pub(crate) fn is_to_be_asked(&self, now: u64) -> bool
        ensures { result ≡ is_to_be_asked now self.now }
    {
        self.wanted
            && self.awaited.is_none()
            && is_past_or(true, METADATA_PAUSE_MS, now, self.asked_at)
    }

    /// It was asked over this slot's connection.
    pub(crate) fn ask(&mut self, node: u32, now: u64)
        ensures { self.new ≡ record self.old { wanted = false; awaited = Some node; asked_at = Some now } }
    {
        self.wanted = false;
        self.awaited = Some(node);
        self.asked_at = Some(now);
    }

    /// It is to be asked for.
    pub(crate) fn want(&mut self)
        ensures { self.new ≡ record self.old { wanted = true } }
    {
        self.wanted = true;
    }

    /// The answer tells no chart.
    pub(crate) fn refuse(&mut self)
        ensures { self.new ≡ record self.old { wanted = true; awaited = None } }
    {
        self.wanted = true;
        self.awaited = None;
    }

    /// The connection is gone: where an answer was awaited over it, none is any more.
    pub(crate) fn lose(&mut self, node: u32)
        ensures { self.new ≡ metadata_lost node self.old }
    {
        self.wanted = true;
        if self.awaited == Some(node) {
            self.awaited = None;
        }
    }

    /// A chart came, by which these slots lead.
    pub(crate) fn chart(&mut self, now: u64, leaders: &[Option<u32>])
        ensures { self.new ≡ record self.old { awaited = None; charted_at = Some now; wanted = self.old.wanted || list_any is_none leaders.now } }
    {
        self.wanted = self.wanted || has_leaderless(leaders);
        self.awaited = None;
        self.charted_at = Some(now);
    }
}
