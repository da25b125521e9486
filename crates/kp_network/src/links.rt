//! The connections to nodes, by node.

ghost use Rattle.std.specs.Prelude.{◌≡◌, ◌≤◌, ◌<◌, ℕ, length, true};
ghost use Rattle.futures.specs.Poll.{IfReady, OnPending};
ghost use Rattle.futures.specs.Task.{Hears, Keeps};
ghost use Rattle.kp_cluster.specs.declared.learning.TheConstants.{SLOT_LIMIT};
ghost use Rattle.kp_network.specs.Links.{AreStill, IsDialing, has, link_at, waited_by_each};

use crate::link::Link;
use futures::task::{Context, Poll};
use kp_cluster::SLOT_LIMIT;
use kp_dial::Dial;

/// Whether the engine has a connection to the node.
pub(crate) fn has<K: Drop>(links: &[Link<K>], node: u32) -> bool
    ensures { result ≡ has node links.now }
{
    match links.get(node as usize) {
        Some(link) => link.is_made(),
        None => false,
    }
}

/// There is a place for the node's link: whether there is room for it.
pub(crate) fn make_place<K: Drop>(links: &mut Vec<Link<K>>, node: u32) -> bool
    requires { length links.old.items ≤ SLOT_LIMIT }
    ensures same { (k : ℕ) → link_at k links.new.items ≡ link_at k links.old.items }
    ensures there { result ≡ true → node < length links.new.items }
    ensures few { length links.new.items ≤ SLOT_LIMIT }
{
    let place = node as usize;
    if place >= SLOT_LIMIT {
        return false;
    }
    for _ in links.len()..place + 1 {
        if links.push(Link::Away).is_err() {
            return false;
        }
    }
    true
}

/// The first of the connections that are being made that is, or can't be: to which node.
pub(crate) fn poll_links<K: Drop, S, D: Dial<Dialing = K, Stream = S>>(
    links: &mut Vec<Link<K>>,
    dial: &mut D,
    cx: &mut Context<'_>,
) -> Poll<(usize, Option<S>)>
    ensures still { AreStill links.old.items links.new.items }
    ensures count { length links.new.items ≡ length links.old.items }
    ensures there { IfReady result (λ x. x.0 < length links.new.items) }
    ensures dialed { IfReady result (λ x. IsDialing (link_at x.0 links.new.items)) }
    ensures registered { OnPending result ((s : ℕ) → waited_by_each D.waits links.new.items s → Hears cx.new s) }
    ensures kept { Keeps cx.old cx.new }
{
    for node in 0..links.len() {
        if let Link::Dialing(dialing) = &mut links[node] {
            if let Poll::Ready(made) = dial.poll_dial(cx, dialing) {
                return Poll::Ready((node, made));
            }
        }
    }
    Poll::Pending
}
