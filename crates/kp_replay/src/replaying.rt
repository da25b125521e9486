//! A schedule, replayed.

ghost use Rattle.std.specs.Prelude.{ℕ};
ghost use Rattle.kp_replay.specs.Replaying.{HoldsOf, HoldsOfEach, Replays, TakesPlace};
ghost use Rattle.kp_world.specs.Accounts.{AreAccountedFor, AreInOrder, IsNeverSent};
ghost use Rattle.kp_world.specs.Facts.{facts};
ghost use Rattle.kp_world.specs.FreshIds.{BeginsAnew, GoesOnAlone};
ghost use Rattle.kp_world.specs.LogLaws.{EachDeliveryHasItsOffset, EarlierIdsAreSilent, IsPrefix, NoDuplicateIsAwaited, ToldOffsetsStand};

use crate::world::World;
use kp_schedule::{ReplayFault, Schedule, Scheduled};
use std::alloc::Global;

/// The world that a schedule brings about, where partition logs take the packets by their own rule: by the running core,
/// the running logs, and the bytes that travel between them. Config where the configuration is refused; else NoSuch with
/// the line of the first event that names what isn't there.
pub fn replay(alloc: Global, schedule: Schedule) -> Result<World, ReplayFault>
    ensures replayed { Replays schedule result }

    // The laws of every run, of this one.
    ensures logs_are_prefixes { HoldsOfEach schedule result IsPrefix }
    ensures told_offsets_stand { HoldsOf schedule result (λ w. ToldOffsetsStand (facts w)) }
    ensures accounted_for { HoldsOfEach schedule result (λ p f. (s : ℕ) → AreAccountedFor s p f) }
    ensures in_order_and_once { HoldsOfEach schedule result (λ p f. (s : ℕ) → AreInOrder s p f) }
    ensures unsent_is_never_sent { HoldsOfEach schedule result IsNeverSent }
    ensures no_duplicate_is_awaited { HoldsOf schedule result NoDuplicateIsAwaited }
    ensures each_delivery_has_its_offset { HoldsOf schedule result
        (λ w. EachDeliveryHasItsOffset (facts w)) }
    ensures each_id_begins_anew { HoldsOfEach schedule result BeginsAnew }
    ensures first_under_an_id_is_alone { HoldsOfEach schedule result GoesOnAlone }
    ensures earlier_ids_are_silent { HoldsOf schedule result (λ w. EarlierIdsAreSilent (facts w)) }
{
    bring_about(alloc, schedule)
}

/// Lets the schedule's events happen, one behind another.
fn bring_about(alloc: Global, schedule: Schedule) -> Result<World, ReplayFault>
    ensures { Replays schedule result }
{
    let Schedule {
        config,
        partitions,
        senders,
        events,
    } = schedule;
    if let Err(fault) = config.check() {
        return Err(ReplayFault::Config(fault));
    }
    let mut world = World::open(alloc, config, partitions, senders)?;
    for scheduled in events.into_vec() {
        take_place(&mut world, scheduled)?;
    }
    Ok(world)
}

/// Lets the event of this line happen, where what it names is there.
fn take_place(world: &mut World, scheduled: Scheduled) -> Result<(), ReplayFault>
    ensures { TakesPlace scheduled world.old world.new result }
{
    let Scheduled { line, event } = scheduled;
    if !world.is_there(&event) {
        return Err(ReplayFault::NoSuch(line));
    }
    world.happen(event)?;
    Ok(())
}
