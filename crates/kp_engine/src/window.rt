//! How many requests may be in flight over a connection at a time, where fewer may than the core allows.

ghost use Rattle.std.specs.Prelude.{◌≡◌};
ghost use Rattle.kp_engine.specs.Window.{is_full, is_slow, may_widen, most_requests, room_in, wider};

use crate::turn::writing::MOST_REQUESTS;
use kp_core::Core;

/// How many more requests may go out to this node in a round; none where nothing is queued or open.
#[inline]
pub(crate) fn most_requests(core: &Core, node: u32, window: Option<u64>) -> u32
    ensures { result ≡ most_requests window node core.now }
{
    if core.busy().is_empty() {
        return 0;
    }
    room_in(core, node, window)
}

/// How many more requests there is room for in a round.
fn room_in(core: &Core, node: u32, window: Option<u64>) -> u32
    ensures { result ≡ room_in window node core.now }
{
    match window {
        None => MOST_REQUESTS,
        Some(window) => {
            let room = window.saturating_sub(core.requests_to(node) as u64);
            room.min(u64::from(MOST_REQUESTS)) as u32
        }
    }
}

/// Whether as many requests are in flight to this node as may.
#[inline]
pub(crate) fn is_full(core: &Core, node: u32, window: Option<u64>) -> bool
    ensures { result ≡ is_full window node core.now }
{
    match window {
        None => false,
        Some(window) => window <= core.requests_to(node) as u64,
    }
}

/// Whether an answer widens the window: as many requests are in flight to this node as may, and none of them has waited for half of
/// `request.timeout.ms`.
pub(crate) fn may_widen(core: &Core, node: u32, now: u64, window: Option<u64>) -> bool
    ensures { result ≡ may_widen node now window core.now }
{
    is_full(core, node, window) && !is_slow(core, node, now)
}

/// Whether the oldest request in flight to this node has waited for half of `request.timeout.ms`.
#[tactic(auto, unfolding(kp_accum::specs::Ready::is_over))]
fn is_slow(core: &Core, node: u32, now: u64) -> bool
    ensures { result ≡ is_slow node now core.now }
{
    match core.oldest_to(node) {
        None => false,
        Some(sent) => sent <= now && core.config().request_timeout_ms / 2 <= now - sent,
    }
}

/// The window with room for one request more; none, where the core allows no more than that.
pub(crate) fn wider(core: &Core, window: Option<u64>) -> Option<u64>
    ensures { result ≡ wider window core.now }
{
    let window = window?;
    let most = core.config().max_in_flight_requests_per_connection;
    if most.saturating_sub(window) <= 1 {
        return None;
    }
    Some(window + 1)
}
