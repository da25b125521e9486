//! Connections are made and lost, and their bytes taken and fed.

ghost use Rattle.std.specs.Prelude.{◌≡◌, ◌≢◌, ◌≤◌, ◌⊎◌, pos, length, take};
ghost use Rattle.kp_c.specs.Calls.{IsEmpty, Makes, OfHeld, OnHeld};
ghost use Rattle.kp_c.specs.Values.{told_action};
ghost use Rattle.kp_cluster.specs.Actions.{told};
ghost use Rattle.kp_c.specs.Connections.{Tells};
ghost use Rattle.kp_c.specs.Seeing.{IsAddress};
ghost use Rattle.kp_embed.specs.Connecting.{Connects, Loses};
ghost use Rattle.kp_embed.specs.Going.{Stays};
ghost use Rattle.kp_embed.specs.Hearing.{GivesUp, Listens};
ghost use Rattle.kp_embed.specs.Taking.{CarriesNone, CarriesOut};

use crate::handle::KpProducer;
use crate::status::{OK, Refusal};
use crate::values::KpAction;
use kp_embed::Embed;
use std::alloc::Global;

/// What the caller is to do next, each told once.
#[unsafe(no_mangle)]
pub extern "C" fn kp_producer_next_action(
    producer: &mut KpProducer,
    alloc: Global,
    now: u64,
    action: &mut KpAction,
) -> i32
    ensures told { result ≡ pos 0 → Makes (Tells now action.new) producer.old.sealed.value producer.new.sealed.value }
    ensures none { result ≢ pos 0 → IsEmpty producer.old.sealed.value producer.new.sealed.value }
{
    let Some(mut embed) = producer.take(alloc) else {
        return Refusal::NoProducer.status();
    };
    *action = KpAction::of(embed.next_action(now));
    producer.put(embed);
    OK
}

/// A node's host, into the front of the room for it, with its length, and its port.
#[unsafe(no_mangle)]
pub extern "C" fn kp_producer_address(
    producer: &mut KpProducer,
    alloc: Global,
    node: u32,
    host: &mut [u8],
    host_len: &mut usize,
    port: &mut u16,
) -> i32
    ensures same { producer.new.sealed.value ≡ producer.old.sealed.value }
    ensures told { result ≡ pos 0 → OfHeld (IsAddress node (take host_len.new host.new) port.new) producer.old.sealed.value }
{
    let Some(embed) = producer.take(alloc) else {
        return Refusal::NoProducer.status();
    };
    let done = copy_address(&embed, node, host, host_len, port);
    producer.put(embed);
    done
}

fn copy_address(
    embed: &Embed,
    node: u32,
    host: &mut [u8],
    host_len: &mut usize,
    port: &mut u16,
) -> i32
    ensures { result ≡ pos 0 → IsAddress node (take host_len.new host.new) port.new embed.now }
{
    let Some((name, number)) = embed.address(node) else {
        return Refusal::Connection(kp_embed::Fault::NoNode).status();
    };
    let name = name.as_bytes();
    if name.len() > host.len() {
        return Refusal::Room.status();
    }
    host[..name.len()].copy_from_slice(name);
    *host_len = name.len();
    *port = number;
    OK
}

/// A connection to the node is open. Where there was one, that is lost.
#[unsafe(no_mangle)]
pub extern "C" fn kp_producer_connected(
    producer: &mut KpProducer,
    alloc: Global,
    node: u32,
    now: u64,
) -> i32
    ensures connects { result ≡ pos 0 → Makes (Connects node now) producer.old.sealed.value producer.new.sealed.value }
    ensures refused { result ≢ pos 0 → OnHeld Stays producer.old.sealed.value producer.new.sealed.value }
{
    let Some(mut embed) = producer.take(alloc) else {
        return Refusal::NoProducer.status();
    };
    let done = embed.connected(node, now);
    producer.put(embed);
    match done {
        Ok(()) => OK,
        Err(fault) => Refusal::Connection(fault).status(),
    }
}

/// There is no connection to the node any more, or it could not be made.
#[unsafe(no_mangle)]
pub extern "C" fn kp_producer_lost(
    producer: &mut KpProducer,
    alloc: Global,
    node: u32,
    now: u64,
) -> i32
    ensures loses { result ≡ pos 0 → Makes (Loses node now) producer.old.sealed.value producer.new.sealed.value }
    ensures none { result ≢ pos 0 → IsEmpty producer.old.sealed.value producer.new.sealed.value }
{
    let Some(mut embed) = producer.take(alloc) else {
        return Refusal::NoProducer.status();
    };
    embed.lost(node, now);
    producer.put(embed);
    OK
}

/// Takes bytes that are to be written to the node, into the front of the room for them: how many.
#[unsafe(no_mangle)]
pub extern "C" fn kp_producer_take(
    producer: &mut KpProducer,
    alloc: Global,
    node: u32,
    now: u64,
    room: &mut [u8],
    count: &mut usize,
) -> i32
    ensures count { count.new ≤ length room.old }
    ensures takes { result ≡ pos 0 → Makes (λ old new. CarriesOut node now old (take count.new room.new) new) producer.old.sealed.value producer.new.sealed.value }
    ensures refused { result ≢ pos 0 → OnHeld (CarriesNone node now) producer.old.sealed.value producer.new.sealed.value }
    ensures nothing { result ≢ pos 0 → count.new ≡ 0 }
{
    *count = 0;
    let Some(mut embed) = producer.take(alloc) else {
        return Refusal::NoProducer.status();
    };
    let taken = embed.take_into(node, room, now);
    producer.put(embed);
    match taken {
        Ok(taken) => {
            *count = taken;
            OK
        }
        Err(fault) => Refusal::Connection(fault).status(),
    }
}

/// Hears bytes that were read from the node.
#[unsafe(no_mangle)]
pub extern "C" fn kp_producer_feed(
    producer: &mut KpProducer,
    alloc: Global,
    node: u32,
    bytes: &[u8],
    now: u64,
) -> i32
    ensures listens { result ≡ pos 0 → Makes (λ old new. Listens node now old bytes.now new) producer.old.sealed.value producer.new.sealed.value }
    ensures refused { result ≢ pos 0 → OnHeld (λ old new. Stays old new ⊎ GivesUp node now old new) producer.old.sealed.value producer.new.sealed.value }
{
    let Some(mut embed) = producer.take(alloc) else {
        return Refusal::NoProducer.status();
    };
    let done = embed.feed(node, bytes, now);
    producer.put(embed);
    match done {
        Ok(()) => OK,
        Err(fault) => Refusal::Connection(fault).status(),
    }
}
