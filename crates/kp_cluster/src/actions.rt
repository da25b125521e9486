//! What the owner is to do next, and when there may be more.

ghost use Rattle.std.specs.Prelude.{◌≡◌, ◌+◌, ◌<◌, ◌≤◌, ◌&&◌, ◌||◌, not, min, Option, Some, None, length, position, filter, map, fold};
ghost use Rattle.std.specs.List.{list_any};
ghost use Rattle.kp_cluster.specs.Slots.{is_given_up, is_ready, is_away, is_wanted, is_live, is_open};
ghost use Rattle.kp_cluster.specs.Actions.{is_due, in_turn, earlier, earliest, waits, not_before, pause_end, later_than};
ghost use Rattle.kp_cluster.specs.Backoff.{later};

use crate::metadata::METADATA_PAUSE_MS;
use crate::slot::Slot;

/// The first slot whose connection was given up.
pub(crate) fn first_given_up(slots: &[Slot]) -> Option<usize>
    ensures { result ≡ position is_given_up slots.now }
{
    slots.iter().position(|slot| slot.is_given_up())
}

/// The first slot that is wanted, and may be connected to.
pub(crate) fn first_due(slots: &[Slot], now: u64) -> Option<usize>
    ensures { result ≡ position (is_due now) slots.now }
{
    slots
        .iter()
        .position(|slot| slot.is_wanted() && slot.is_ready(now))
}

/// Whether a connection is open or being opened.
pub(crate) fn is_any_live(slots: &[Slot]) -> bool
    ensures { result ≡ list_any is_live slots.now }
{
    slots.iter().any(|slot| slot.is_live())
}

/// Whether a connection is open.
pub(crate) fn is_any_open(slots: &[Slot]) -> bool
    ensures { result ≡ list_any is_open slots.now }
{
    slots.iter().any(|slot| slot.is_open())
}

/// The first slot that may be connected to.
fn first_ready(slots: &[Slot], now: u64) -> Option<usize>
    ensures { result ≡ position (is_ready now) slots.now }
{
    slots.iter().position(|slot| slot.is_ready(now))
}

/// The first slot that may be connected to, from this place on and then from the front.
pub(crate) fn ready_in_turn(slots: &[Slot], turn: usize, now: u64) -> Option<usize>
    requires { turn ≤ length slots.now }
    ensures { result ≡ in_turn (is_ready now) turn slots.now }
{
    match first_ready(&slots[turn..], now) {
        Some(place) => Some(turn + place),
        None => first_ready(slots, now),
    }
}

/// The earlier of two moments.
pub(crate) fn earlier(a: Option<u64>, b: Option<u64>) -> Option<u64>
    ensures { result ≡ earlier a b }
{
    match (a, b) {
        (Some(a), Some(b)) => Some(a.min(b)),
        (Some(a), None) => Some(a),
        (None, b) => b,
    }
}

/// When a slot may next be connected to.
pub(crate) fn next_connect(slots: &[Slot]) -> Option<u64>
    ensures { result ≡ earliest (map not_before (filter (waits (not (list_any is_live slots.now))) slots.now)) }
{
    let lonely = !is_any_live(slots);
    slots
        .iter()
        .filter(|slot| slot.is_away() && (slot.is_wanted() || lonely))
        .map(|slot| slot.not_before)
        .fold(None, |due, moment| earlier(due, Some(moment)))
}

/// When the pause since the last Metadata request is over.
pub(crate) fn pause_end(asked_at: Option<u64>) -> u64
    ensures { result ≡ pause_end asked_at }
{
    match asked_at {
        Some(at) => at.saturating_add(METADATA_PAUSE_MS),
        None => 0,
    }
}

/// So much later than a moment, where there is one.
pub(crate) fn later_than(wait: u64, at: Option<u64>) -> Option<u64>
    ensures { result ≡ later_than wait at }
{
    match at {
        Some(at) => Some(at.saturating_add(wait)),
        None => None,
    }
}
