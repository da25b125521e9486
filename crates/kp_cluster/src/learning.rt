//! What a chart changes: the slots of its brokers, and who leads each partition.

ghost use Rattle.std.specs.Prelude.{◌≡◌, ◌<◌, ◌≤◌, ◌^◌, Option, Some, None, length, map, position, IfOk};
ghost use Rattle.std.specs.List.{list_any};
ghost use Rattle.kp_cluster.specs.Slots.{has_id};
ghost use Rattle.kp_cluster.specs.Learning.{slot_of, has_address, renewed, placed, all_placed, is_node, leader_slot, is_slot, new_slot, led_by_one, led_among, marked_from, of_known};

use crate::slot::{Phase, Slot};
use kp_hello::Node;
use kp_wire::Text;
use std::alloc::{AllocError, Global};

/// There are at most so many slots: brokers beyond get none, and what they lead has no leader.
pub const SLOT_LIMIT: usize = 1 << 16;

// ---- brokers

/// The slot of this broker.
fn slot_of(slots: &[Slot], id: i32) -> Option<usize>
    ensures { result ≡ slot_of id slots.now }
{
    slots.iter().position(|slot| slot.has_id(id))
}

/// The slot of this broker.
fn slot_of_node(slots: &[Slot], node: &Node) -> Option<usize>
    ensures { result ≡ slot_of node.now.id slots.now }
{
    slot_of(slots, node.id)
}

fn copied(alloc: Global, slot: &Slot) -> Result<Slot, AllocError>
    ensures { IfOk result (λ s. s ≡ slot.now) }
{
    Ok(Slot {
        id: slot.id,
        host: Text::from_str(alloc, slot.host.as_str())?,
        port: slot.port,
        phase: slot.phase,
        failures: slot.failures,
        not_before: slot.not_before,
        wanted: slot.wanted,
        leads: slot.leads,
    })
}

/// A copy of the slots.
pub(crate) fn all_copied(alloc: Global, slots: &[Slot]) -> Result<Vec<Slot>, AllocError>
    ensures { IfOk result (λ v. v.items ≡ slots.now) }
{
    let mut copies = Vec::with_capacity(alloc, slots.len())?;
    for slot in slots {
        copies.push(copied(alloc, slot)?)?;
    }
    Ok(copies)
}

fn has_address(slot: &Slot, node: &Node) -> bool
    ensures { result ≡ has_address node.now slot.now }
{
    slot.host.as_str() == node.host.as_str() && slot.port == node.port
}

/// Gives the slot the broker's address; a connection to another one is given up.
fn renew(alloc: Global, slot: &mut Slot, node: &Node) -> Result<(), AllocError>
    ensures { IfOk result (λ _. slot.new ≡ renewed node.now slot.old) }
{
    if has_address(slot, node) {
        return Ok(());
    }
    slot.host = Text::from_str(alloc, node.host.as_str())?;
    slot.port = node.port;
    slot.give_up();
    Ok(())
}

fn new_slot(alloc: Global, node: &Node) -> Result<Slot, AllocError>
    ensures { IfOk result (λ s. s ≡ new_slot node.now) }
{
    Ok(Slot {
        id: Some(node.id),
        host: Text::from_str(alloc, node.host.as_str())?,
        port: node.port,
        phase: Phase::Away,
        failures: 0,
        not_before: 0,
        wanted: false,
        leads: false,
    })
}

fn place(alloc: Global, slots: &mut Vec<Slot>, node: &Node) -> Result<(), AllocError>
    requires { length slots.old.items ≤ SLOT_LIMIT }
    ensures exact { IfOk result (λ _. slots.new.items ≡ placed slots.old.items node.now) }
    ensures limit { length slots.new.items ≤ SLOT_LIMIT }
{
    match slot_of_node(slots, node) {
        Some(place) => renew(alloc, &mut slots[place], node),
        None if slots.len() < SLOT_LIMIT => {
            let slot = new_slot(alloc, node)?;
            slots.push(slot)?;
            Ok(())
        }
        None => Ok(()),
    }
}

/// The slots, with one for each broker.
pub(crate) fn all_placed(
    alloc: Global,
    slots: &[Slot],
    nodes: &[Node],
) -> Result<Vec<Slot>, AllocError>
    requires { length slots.now ≤ SLOT_LIMIT }
    ensures exact { IfOk result (λ v. v.items ≡ all_placed nodes.now slots.now) }
    ensures limit { IfOk result (λ v. length v.items ≤ SLOT_LIMIT) }
{
    let mut placed = all_copied(alloc, slots)?;
    for node in nodes {
        place(alloc, &mut placed, node)?;
    }
    Ok(placed)
}

// ---- leaders

/// Whether one of the nodes has this id.
fn is_among(nodes: &[Node], id: i32) -> bool
    ensures { result ≡ list_any (is_node id) nodes.now }
{
    nodes.iter().any(|node| node.id == id)
}

/// The slot of a leader that is one of the nodes.
fn leader_slot(nodes: &[Node], slots: &[Slot], id: i32) -> Option<u32>
    requires { length slots.now ≤ SLOT_LIMIT }
    ensures { result ≡ leader_slot nodes.now slots.now id }
{
    match slot_of(slots, id) {
        Some(place) if is_among(nodes, id) => Some(place as u32),
        _ => None,
    }
}

/// The slots that lead the partitions, by the leaders' ids.
pub(crate) fn leader_slots(
    alloc: Global,
    nodes: &[Node],
    slots: &[Slot],
    leaders: &[Option<i32>],
) -> Result<Vec<Option<u32>>, AllocError>
    requires { length slots.now ≤ SLOT_LIMIT }
    ensures { IfOk result (λ v. v.items ≡ map (led_among nodes.now slots.now) leaders.now) }
{
    let mut led = Vec::with_capacity(alloc, leaders.len())?;
    for leader in leaders {
        led.push(leader.and_then(|id| leader_slot(nodes, slots, id)))?;
    }
    Ok(led)
}

/// The one slot that leads each partition with a leader.
pub(crate) fn all_led_by(
    alloc: Global,
    node: u32,
    leaders: &[Option<i32>],
) -> Result<Vec<Option<u32>>, AllocError>
    ensures { IfOk result (λ v. v.items ≡ map (led_by_one node) leaders.now) }
{
    let mut led = Vec::with_capacity(alloc, leaders.len())?;
    for leader in leaders {
        led.push(leader.map(|_id| node))?;
    }
    Ok(led)
}

/// The leaders of the partitions that are known; all where none is.
pub(crate) fn of_known<'a>(known: &[Option<u32>], leaders: &'a [Option<i32>]) -> &'a [Option<i32>]
    requires { length known.now ≤ length leaders.now }
    ensures { result.now ≡ of_known known.now leaders.now }
{
    if known.is_empty() {
        leaders
    } else {
        &leaders[..known.len()]
    }
}

fn leads(place: usize, leaders: &[Option<u32>]) -> bool
    requires { place < 2 ^ 32 }
    ensures { result ≡ list_any (is_slot place) leaders.now }
{
    let node = place as u32;
    leaders.iter().any(|leader| *leader == Some(node))
}

/// Marks the slots that lead.
pub(crate) fn mark_leaders(slots: &mut [Slot], leaders: &[Option<u32>])
    requires { length slots.old ≤ SLOT_LIMIT }
    ensures { slots.new ≡ marked_from 0 leaders.now slots.old }
{
    for (place, slot) in slots.iter_mut().enumerate() {
        slot.leads = leads(place, leaders);
    }
}
