//! The slots of a cluster, by their numbers, and what becomes of one of them.

ghost use Rattle.std.specs.Prelude.{◌≡◌, ◌<◌, Some, None, length, map, true, false, slice_get, is_some, ◌&&◌, MatchOption, IfOk};
ghost use Rattle.std.specs.Option.{option_map_or};
ghost use Rattle.kp_cluster.specs.Slots.{changed, given_up, wanted, answered, opened, spare_given_up, in_phase, is_open, is_away};
ghost use Rattle.kp_cluster.specs.Cluster.{slot_of_address, is_open_at, is_broker_open};
ghost use Rattle.kp_cluster.specs.Backoff.{has_none, IsCountOnceLost, lost_for};

use crate::slot::{Address, Phase, Slot};
use std::alloc::{AllocError, Global};

/// A slot for each address.
pub(crate) fn of_addresses(alloc: Global, addresses: Vec<Address>) -> Result<Vec<Slot>, AllocError>
    ensures { IfOk result (λ v. v.items ≡ map slot_of_address addresses.items) }
{
    let mut slots = Vec::with_capacity(alloc, addresses.len())?;
    for address in addresses {
        slots.push(Slot::of_address(address))?;
    }
    Ok(slots)
}

/// Whether the slot's connection is open.
pub(crate) fn is_open(slots: &[Slot], node: u32) -> bool
    ensures { result ≡ is_open_at node slots.now }
{
    match slots.get(node as usize) {
        Some(slot) => slot.is_open(),
        None => false,
    }
}

/// Whether the slot is a broker's, of which the id is known, and its connection is open.
pub(crate) fn is_broker_open(slots: &[Slot], node: u32) -> bool
    ensures { result ≡ option_map_or is_broker_open (slice_get slots.now node) false }
{
    match slots.get(node as usize) {
        Some(slot) => slot.id.is_some() && slot.is_open(),
        None => false,
    }
}

/// How many failures in a row there are once the connection is lost; none where there is no connection.
pub(crate) fn count_once_lost(slots: &[Slot], node: u32) -> Option<u32>
    ensures { MatchOption result (has_none node slots.now ≡ true) (λ n. IsCountOnceLost node slots.now n) }
{
    match slots.get(node as usize) {
        Some(slot) if !slot.is_away() => Some(slot.failures.saturating_add(1)),
        _ => None,
    }
}

/// Puts the slot into this phase.
#[tactic(auto, using(crate::proofs::SlotLemmas::changed_past))]
pub(crate) fn set_phase(slots: &mut [Slot], place: usize, phase: Phase)
    requires { place < length slots.old }
    ensures { slots.new ≡ changed (in_phase phase) place slots.old }
{
    slots[place].phase = phase;
}

/// Gives the connection up, where it is open or being opened.
#[tactic(auto, using(crate::proofs::SlotLemmas::changed_past))]
pub(crate) fn give_up(slots: &mut [Slot], node: u32)
    ensures { slots.new ≡ changed given_up node slots.old }
{
    let place = node as usize;
    if place < slots.len() {
        slots[place].give_up();
    }
}

/// There is something to send to it.
#[tactic(auto, using(crate::proofs::SlotLemmas::changed_past))]
pub(crate) fn want(slots: &mut [Slot], node: u32)
    ensures { slots.new ≡ changed wanted node slots.old }
{
    let place = node as usize;
    if place < slots.len() {
        slots[place].wanted = true;
    }
}

/// Forgets its failures.
#[tactic(auto, using(crate::proofs::SlotLemmas::changed_past))]
pub(crate) fn forget_failures(slots: &mut [Slot], node: u32)
    ensures { slots.new ≡ changed answered node slots.old }
{
    let place = node as usize;
    if place < slots.len() {
        slots[place].failures = 0;
    }
}

/// The connection is open, where it was being opened.
#[tactic(auto, using(crate::proofs::SlotLemmas::changed_past))]
pub(crate) fn open(slots: &mut [Slot], node: u32)
    ensures { slots.new ≡ changed opened node slots.old }
{
    let place = node as usize;
    if place < slots.len() {
        slots[place].open();
    }
}

/// The connection is gone, and its slot is left alone for this wait.
#[tactic(auto, using(crate::proofs::SlotLemmas::changed_past))]
pub(crate) fn lose(slots: &mut [Slot], node: u32, now: u64, wait: u64)
    ensures { slots.new ≡ changed (lost_for now wait) node slots.old }
{
    let place = node as usize;
    if place < slots.len() {
        slots[place].lose(now, wait);
    }
}

/// Gives the connections up to mere addresses by which no partition is led.
pub(crate) fn give_up_spares(slots: &mut [Slot])
    ensures { slots.new ≡ map spare_given_up slots.old }
{
    for slot in slots.iter_mut() {
        slot.give_up_spare();
    }
}
