//! The connections to nodes, by node.

ghost use Rattle.std.specs.Prelude.{◌≡◌, ◌≤◌, ◌<◌, ℕ, false, length};
ghost use Rattle.futures.specs.Task.{Keeps};
ghost use Rattle.kp_cluster.specs.declared.learning.TheConstants.{SLOT_LIMIT};
ghost use Rattle.kp_drive.specs.Links.{EachTurns, link_at};
ghost use Rattle.kp_drive.specs.Waiting.{LinkWaits};

use crate::host::Host;
use crate::link::Link;
use futures::task::Context;
use kp_connection::Stream;
use kp_dial::Dial;

/// A turn for each link, in their order: whether anything has moved. Where nothing has, the poll has registered for all that they
/// wait for.
pub(crate) fn poll_links<K: Drop, S: Stream, D: Dial<Dialing = K, Stream = S>>(
    host: &mut Host<D>,
    links: &mut Vec<Link<K, S>>,
    cx: &mut Context<'_>,
    now: u64,
) -> bool
    requires { length links.old.items ≤ SLOT_LIMIT }
    ensures each { EachTurns S.answers now host.old.embed links.old.items (length links.old.items) host.new.embed links.new.items }
    ensures count { length links.new.items ≡ length links.old.items }
    ensures waits { result ≡ false → (k : ℕ) → k < length links.new.items → LinkWaits D.waits S.reader S.writer S.answers cx.new (link_at k links.new.items) }
    ensures kept { Keeps cx.old cx.new }
{
    let mut moved = false;
    for node in 0..links.len() {
        moved |= links[node].poll_turn(host, cx, node as u32, now);
    }
    moved
}
