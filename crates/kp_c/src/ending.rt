//! Reports, flush, close and end, and what is to be seen of a producer.

ghost use Rattle.std.specs.Prelude.{◌≡◌, ◌≢◌, ◌≤◌, ◌<◌, ◌+◌, ◌^◌, ◌++◌, ◌∷◌, [], length, pos, take};
ghost use Rattle.kp_c.specs.Calls.{IsEmpty, Makes, OfHeld, OnHeld};
ghost use Rattle.kp_c.specs.Ending.{Ends, Fetches, FetchesRuns};
ghost use Rattle.kp_c.specs.Seeing.{Shows};
ghost use Rattle.kp_c.specs.Values.{reports_in};
ghost use Rattle.kp_embed.specs.Ending.{Calls};
ghost use Rattle.kp_rules.specs.Calls.{Close, Flush};

use crate::handle::KpProducer;
use crate::status::{OK, Refusal};
use crate::values::{KpReport, KpReportRun, KpState};
use kp_embed::Embed;
use std::alloc::Global;

/// The oldest reports that were not fetched, as many as there are and there is room for, into the front of it: how many.
#[unsafe(no_mangle)]
pub extern "C" fn kp_producer_reports(
    producer: &mut KpProducer,
    alloc: Global,
    room: &mut [KpReport],
) -> usize
    ensures count { result ≤ length room.old }
    ensures fetches { OnHeld (Fetches result room.new) producer.old.sealed.value producer.new.sealed.value }
{
    let Some(mut embed) = producer.take(alloc) else {
        return 0;
    };
    let count = fetch(&mut embed, room);
    producer.put(embed);
    count
}

fn fetch(embed: &mut Embed, room: &mut [KpReport]) -> usize
    ensures count { result ≤ length room.old }
    ensures fetches { Fetches result room.new embed.old embed.new }
{
    for place in 0..room.len() {
        match embed.next_report() {
            None => return place,
            Some(report) => room[place] = KpReport::of(report),
        }
    }
    room.len()
}

/// The same reports as runs, which go into the front of the room: how many runs. They are of no more reports than the room has places.
#[unsafe(no_mangle)]
pub extern "C" fn kp_producer_report_runs(
    producer: &mut KpProducer,
    alloc: Global,
    room: &mut [KpReportRun],
) -> usize
    ensures count { result ≤ length room.old }
    ensures fetches { OnHeld (FetchesRuns result room.new) producer.old.sealed.value producer.new.sealed.value }
{
    let Some(mut embed) = producer.take(alloc) else {
        return 0;
    };
    let count = fetch_runs(&mut embed, room);
    producer.put(embed);
    count
}

fn fetch_runs(embed: &mut Embed, room: &mut [KpReportRun]) -> usize
    ensures count { result ≤ length room.old }
    ensures fetches { FetchesRuns result room.new embed.old embed.new }
{
    let mut count = 0;
    for _place in 0..room.len() {
        match embed.next_report() {
            None => return count,
            Some(report) => count = add(room, count, KpReport::of(report)),
        }
    }
    count
}

/// Adds a report to the runs at the front of the room, which are so many: how many they are then.
fn add(room: &mut [KpReportRun], count: usize, report: KpReport) -> usize
    requires place { count < length room.old }
    requires few { length (reports_in (take count room.old)) + 1 < 2 ^ 64 }
    ensures added { reports_in (take result room.new) ≡ reports_in (take count room.old) ++ report ∷ [] }
    ensures count { result ≤ count + 1 }
    ensures same { length room.new ≡ length room.old }
{
    if let Some(last) = count.checked_sub(1) {
        if room[last].goes_on_with(report) {
            room[last].count += 1;
            return count;
        }
    }
    room[count] = KpReportRun::of(report);
    count + 1
}

/// All that was accepted goes out, without lingering.
#[unsafe(no_mangle)]
pub extern "C" fn kp_producer_flush(producer: &mut KpProducer, alloc: Global) -> i32
    ensures flushes { result ≡ pos 0 → Makes (Calls Flush) producer.old.sealed.value producer.new.sealed.value }
    ensures none { result ≢ pos 0 → IsEmpty producer.old.sealed.value producer.new.sealed.value }
{
    let Some(mut embed) = producer.take(alloc) else {
        return Refusal::NoProducer.status();
    };
    embed.flush();
    producer.put(embed);
    OK
}

/// No record is accepted any more, and all that was goes out.
#[unsafe(no_mangle)]
pub extern "C" fn kp_producer_close(producer: &mut KpProducer, alloc: Global) -> i32
    ensures closes { result ≡ pos 0 → Makes (Calls Close) producer.old.sealed.value producer.new.sealed.value }
    ensures none { result ≢ pos 0 → IsEmpty producer.old.sealed.value producer.new.sealed.value }
{
    let Some(mut embed) = producer.take(alloc) else {
        return Refusal::NoProducer.status();
    };
    embed.close();
    producer.put(embed);
    OK
}

/// Gives up all that is left: how many records are told of.
#[unsafe(no_mangle)]
pub extern "C" fn kp_producer_end(producer: &mut KpProducer, alloc: Global) -> i32
    ensures ends { result ≡ pos 0 → Makes Ends producer.old.sealed.value producer.new.sealed.value }
    ensures none { result ≢ pos 0 → IsEmpty producer.old.sealed.value producer.new.sealed.value }
{
    let Some(mut embed) = producer.take(alloc) else {
        return Refusal::NoProducer.status();
    };
    let _ = embed.end();
    producer.put(embed);
    OK
}

/// What is to be seen of the producer.
#[unsafe(no_mangle)]
pub extern "C" fn kp_producer_state(
    producer: &mut KpProducer,
    alloc: Global,
    state: &mut KpState,
) -> i32
    ensures same { producer.new.sealed.value ≡ producer.old.sealed.value }
    ensures told { result ≡ pos 0 → OfHeld (Shows state.new) producer.old.sealed.value }
{
    let Some(embed) = producer.take(alloc) else {
        return Refusal::NoProducer.status();
    };
    *state = KpState::of(&embed);
    producer.put(embed);
    OK
}
