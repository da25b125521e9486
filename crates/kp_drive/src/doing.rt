//! What the producer has its owner do with connections.

ghost use Rattle.std.specs.Prelude.{◌≡◌, ◌≤◌, ◌<◌, ℕ, IfSome, None, false, length, true};
ghost use Rattle.kp_drive.specs.Doing.{Does, DoesAll, Tells};
ghost use Rattle.kp_drive.specs.Links.{OnlyAt, link_at};
ghost use Rattle.kp_embed.specs.Connecting.{Loses};

use crate::host::Host;
use crate::link::Link;
use kp_cluster::{Action, SLOT_LIMIT};
use kp_connection::Stream;
use kp_dial::Dial;
use kp_embed::Embed;

/// Does what the producer tells, until there is nothing: whether there was anything.
pub(crate) fn do_all<K: Drop, S: Stream, D: Dial<Dialing = K, Stream = S>>(
    host: &mut Host<D>,
    links: &mut Vec<Link<K, S>>,
    now: u64,
) -> bool
    requires { length links.old.items ≤ SLOT_LIMIT }
    ensures does { DoesAll now host.old.embed links.old.items host.new.embed links.new.items }
    ensures nothing { result ≡ false → Tells now None host.old.embed host.new.embed }
    ensures few { length links.new.items ≤ SLOT_LIMIT }
{
    let mut told = false;
    for _ in 0..u64::MAX {
        let Some(action) = host.embed.next_action(now) else {
            return told;
        };
        obey(host, links, action, now);
        told = true;
    }
    true
}

/// Does what it told.
fn obey<K: Drop, S: Stream, D: Dial<Dialing = K, Stream = S>>(
    host: &mut Host<D>,
    links: &mut Vec<Link<K, S>>,
    action: Action,
    now: u64,
)
    requires { length links.old.items ≤ SLOT_LIMIT }
    ensures does { Does now action host.old.embed links.old.items host.new.embed links.new.items }
    ensures few { length links.new.items ≤ SLOT_LIMIT }
{
    match action {
        Action::Close(node) => close(&mut host.embed, links, node, now),
        Action::Connect(node) => match begin(host, links, node) {
            Some(dialing) => links[node as usize] = Link::Dialing(dialing),
            None => close(&mut host.embed, links, node, now),
        },
    }
}

/// Begins to connect to the node, where its link is closed and there is room for another.
fn begin<K: Drop, S: Stream, D: Dial<Dialing = K, Stream = S>>(
    host: &mut Host<D>,
    links: &mut Vec<Link<K, S>>,
    node: u32,
) -> Option<K>
    requires { length links.old.items ≤ SLOT_LIMIT }
    ensures same { (k : ℕ) → link_at k links.new.items ≡ link_at k links.old.items }
    ensures producer { host.new.embed ≡ host.old.embed }
    ensures there { IfSome result (λ _. node < length links.new.items) }
    ensures closed { IfSome result (λ _. link_at node links.new.items ≡ Link.Closed) }
    ensures few { length links.new.items ≤ SLOT_LIMIT }
{
    if !make_place(links, node) {
        return None;
    }
    match &links[node as usize] {
        Link::Closed => dial(&host.embed, &mut host.dial, node),
        Link::Dialing(_) | Link::Open(_) => None,
    }
}

/// There is a place for the node's link: whether there is room for it.
fn make_place<K: Drop, S: Stream>(links: &mut Vec<Link<K, S>>, node: u32) -> bool
    requires { length links.old.items ≤ SLOT_LIMIT }
    ensures same { (k : ℕ) → link_at k links.new.items ≡ link_at k links.old.items }
    ensures there { result ≡ true → node < length links.new.items }
    ensures few { length links.new.items ≤ SLOT_LIMIT }
{
    let place = node as usize;
    if place >= SLOT_LIMIT {
        return false;
    }
    for _ in links.len()..place + 1 {
        if links.push(Link::Closed).is_err() {
            return false;
        }
    }
    true
}

/// Begins to connect to the node's address.
fn dial<D: Dial>(embed: &Embed, dial: &mut D, node: u32) -> Option<D::Dialing> {
    let Some((host, port)) = embed.address(node) else {
        return None;
    };
    dial.dial(host, port)
}

/// There is no connection to the node any more.
fn close<K: Drop, S: Stream>(embed: &mut Embed, links: &mut Vec<Link<K, S>>, node: u32, now: u64)
    ensures lost { Loses node now embed.old embed.new }
    ensures closed { link_at node links.new.items ≡ Link.Closed }
    ensures few { length links.new.items ≡ length links.old.items }
    ensures others { OnlyAt node links.old.items links.new.items }
{
    let place = node as usize;
    if place < links.len() {
        links[place] = Link::Closed;
    }
    embed.lost(node, now);
}
