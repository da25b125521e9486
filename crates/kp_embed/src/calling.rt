//! Calls on a core that may not be there yet.

ghost use Rattle.std.specs.Prelude.{◌≡◌};
ghost use Rattle.kp_embed.specs.Going.{Called};
ghost use Rattle.kp_embed.specs.Ticking.{can_only_end_in};
ghost use Rattle.kp_rules.specs.Calls.{Close, Disconnect, End, Fetch, Flush, Tick};

use kp_core::{Core, Report, Ticked};

pub(crate) fn flush(core: &mut Option<Core>)
    ensures { Called core.old Flush core.new }
{
    if let Some(core) = core {
        core.flush();
    }
}

pub(crate) fn close(core: &mut Option<Core>)
    ensures { Called core.old Close core.new }
{
    if let Some(core) = core {
        core.close();
    }
}

pub(crate) fn end(core: &mut Option<Core>) -> usize
    ensures { Called core.old (End result) core.new }
{
    match core {
        Some(core) => core.end(),
        None => 0,
    }
}

/// Whether a core's end is all that is left for it.
pub(crate) fn can_only_end(core: &Option<Core>) -> bool
    ensures { result ≡ can_only_end_in core.now }
{
    match core {
        Some(core) => core.can_only_end(),
        None => false,
    }
}

pub(crate) fn next_report(core: &mut Option<Core>) -> Option<Report>
    ensures { Called core.old (Fetch 0 result) core.new }
{
    match core {
        None => None,
        Some(core) if core.senders() == 0 => None,
        Some(core) => core.next_report(0),
    }
}

pub(crate) fn on_disconnect(core: &mut Option<Core>, node: u32, now: u64)
    ensures { Called core.old (Disconnect node now) core.new }
{
    if let Some(core) = core {
        core.on_disconnect(node, now);
    }
}

pub(crate) fn tick(core: &mut Option<Core>, node: u32, now: u64) -> Ticked
    ensures { Called core.old (Tick node now result) core.new }
{
    match core {
        Some(core) => core.tick(node, now),
        None => Ticked {
            reports: 0,
            reconnect: false,
        },
    }
}
