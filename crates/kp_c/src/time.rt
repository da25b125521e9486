//! Time goes on.

ghost use Rattle.std.specs.Prelude.{◌≡◌, ◌≢◌, pos, MatchOption};
ghost use Rattle.kp_c.specs.Calls.{IsEmpty, Makes};
ghost use Rattle.kp_c.specs.Seeing.{NEVER, TellsDue};
ghost use Rattle.kp_embed.specs.Ticking.{Ticks};

use crate::handle::KpProducer;
use crate::status::{OK, Refusal};
use std::alloc::Global;

/// The time is this.
#[unsafe(no_mangle)]
pub extern "C" fn kp_producer_tick(producer: &mut KpProducer, alloc: Global, now: u64) -> i32
    ensures ticks { result ≡ pos 0 → Makes (Ticks now) producer.old.sealed.value producer.new.sealed.value }
    ensures none { result ≢ pos 0 → IsEmpty producer.old.sealed.value producer.new.sealed.value }
{
    let Some(mut embed) = producer.take(alloc) else {
        return Refusal::NoProducer.status();
    };
    embed.tick(now);
    producer.put(embed);
    OK
}

/// When there may be something to do again; `u64::MAX` where there is no such moment.
#[unsafe(no_mangle)]
pub extern "C" fn kp_producer_next_due(producer: &mut KpProducer, alloc: Global, now: u64) -> u64
    ensures same { producer.new.sealed.value ≡ producer.old.sealed.value }
    ensures told { MatchOption producer.old.sealed.value (result ≡ NEVER) (TellsDue now result) }
{
    let Some(embed) = producer.take(alloc) else {
        return u64::MAX;
    };
    let due = embed.next_due(now).unwrap_or(u64::MAX);
    producer.put(embed);
    due
}
