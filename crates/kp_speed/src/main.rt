//! Does again and again what a producer and a broker do with each batch, for the cost of it. Of each line of its
//! input, a work and a number of times, it prints what the work came to: `crc32c N` takes the checksum of 16 KiB N
//! times, `write N` writes a batch of 149 records of 100 bytes, `read N` reads it, `drop N` reads it and drops what was
//! read, `request N` writes a Produce request with 16 KiB for each of four partitions, `response N` reads a response
//! for four partitions, `byte N` cuts a stream of a hundred frames of 100 bytes that comes byte by byte, `whole N` cuts
//! it where it comes whole, and `waiting N` takes N frames that wait, between each two of which a byte comes. `make N`
//! makes and keeps N items of 100 bytes, and `queue N` appends as many to a partition, marks them, takes them out with
//! their batches and releases their memory; `expire N` has them expire. `makes N`, `queues N` and `expires N` do so in 64
//! lists and partitions. `deliver N` has N items go through a sender core in rounds of a full batch: appended, sent,
//! answered, and their reports fetched; `keep N` appends all of them first, and `leave N` fetches no report before the
//! end. `delivers N`, `keeps N` and `leaves N` do so with 64 senders and 64 partitions, and `years N` is `deliver N` with
//! four senders. Of a core of 1,024 partitions without an item, `tick N` tells it the time N times, `vain N` asks it
//! for a request, and `due N` after each tick when it is next to be looked at. `few N` sends N requests for four
//! partitions that have an item each, and loses each with its connection, and `heed N` tells such a core the time;
//! `many N` and `heeds N` do so in a core of 1,024 partitions, of which four have an item. `record N` makes N records
//! of 100 bytes, each dropped before the next is made, and `lose N` drops none; `send N` sends N records (65,536 at
//! most) into a lane and drops none, `lane N` sends, takes and drops N, one after the other, and `lanes N` does so in
//! rounds of 256; `ring N` and `rings N` pass N items through a bare ring in the same way. `hear N` hands N reports to
//! a sender, which receives them, and `idle N` finds N times that there is nothing to take. `spell N` writes N batches
//! of 100 records, and `offer N` offers each to a log as it is written; `look N` does the same and looks 100,000
//! records up, and `list N` reads each and keeps all records in one list that has just their room. `ask N` writes N
//! Produce requests with a batch of 148 records each, `store N` offers each batch to a log as its request is written,
//! and `answer N` has a broker answer each request in place of that. `turn N` sends N records through an engine to a
//! broker in the same process, in full batches, until their reports are fetched, and `hold N` makes as many and drops
//! them in batches; `node N` does what `turn N` does through an engine that may have several connections and has one, and
//! `nodes N` with ten, of which nine are silent; `spread N` and `spreads N` do so with 1,024 partitions. `rest N` polls an
//! engine N times that has one sender, one partition and nothing to do, `rests N` one with 64 senders and 1,024 partitions,
//! and `line N` and `lines N` do as `rests N` does with one and with ten of several connections.
#![tactic(auto)]

mod answering;
mod delivering;
mod laning;
mod logging;
mod messages;
mod queueing;
mod samples;
mod turning;
mod work;

use answering::{answers, asks, stores};
use delivering::{
    Among, Course, Plan, asks_again, asks_in_vain, asks_when, delivers, ticks, ticks_again,
};
use futures::task::Context;
use futures::test::MockTask;
use laning::{
    hears, loses, passes, passes_by_rounds, records, rings, rings_by_rounds, sends, takes_in_vain,
};
use logging::{lists, looks, offers, spells};
use messages::{cuts_bytes, cuts_whole, requests, responses, takes_waiting};
use queueing::{Way, makes, queues};
use std::alloc::{AllocError, AllocGlobal, Global};
use std::io;
use std::random::RandomSource;
use turning::{Lines, holds, turns, waits};
use work::{checksums, reads, reads_and_drops, writes};

/// What a work on batches, messages or streams came to; None where it is no work.
fn answer(alloc: Global, work: &str, times: u32) -> Option<Result<u64, AllocError>> {
    Some(match work {
        "crc32c" => checksums(alloc, times),
        "write" => writes(alloc, times),
        "read" => reads(alloc, times),
        "drop" => reads_and_drops(alloc, times),
        "request" => requests(alloc, times),
        "response" => responses(alloc, times),
        "byte" => cuts_bytes(alloc, times),
        "whole" => cuts_whole(alloc, times),
        "waiting" => takes_waiting(alloc, times),
        _ => return queued(alloc, work, times),
    })
}

/// The same of a work on items that wait, or another one.
fn queued(alloc: Global, work: &str, times: u32) -> Option<Result<u64, AllocError>> {
    Some(match work {
        "make" => makes(alloc, 1, times),
        "makes" => makes(alloc, 64, times),
        "queue" => queues(alloc, 1, times, Way::Taken),
        "queues" => queues(alloc, 64, times, Way::Taken),
        "expire" => queues(alloc, 1, times, Way::Expired),
        "expires" => queues(alloc, 64, times, Way::Expired),
        _ => return delivered(alloc, work, times),
    })
}

/// The same of items that go through a core, or another work.
fn delivered(alloc: Global, work: &str, items: u32) -> Option<Result<u64, AllocError>> {
    let (senders, partitions, course) = match work {
        "deliver" => (1, 1, Course::ByRounds),
        "delivers" => (64, 64, Course::ByRounds),
        "keep" => (1, 1, Course::Queued),
        "keeps" => (64, 64, Course::Queued),
        "leave" => (1, 1, Course::Unfetched),
        "leaves" => (64, 64, Course::Unfetched),
        "years" => (4, 1, Course::ByRounds),
        _ => return looked_at(alloc, work, items),
    };
    Some(delivers(
        alloc,
        Plan {
            senders,
            partitions,
            items,
            course,
        },
    ))
}

/// The same of a core that is asked again and again, or another work.
fn looked_at(alloc: Global, work: &str, times: u32) -> Option<Result<u64, AllocError>> {
    Some(match work {
        "tick" => ticks(alloc, times),
        "vain" => asks_in_vain(alloc, times),
        "due" => asks_when(alloc, times),
        "few" => asks_again(alloc, Among::Few, times),
        "many" => asks_again(alloc, Among::Many, times),
        "heed" => ticks_again(alloc, Among::Few, times),
        "heeds" => ticks_again(alloc, Among::Many, times),
        _ => return passed(alloc, work, times),
    })
}

/// The same of records and items that go through lanes and rings, or another work.
fn passed(alloc: Global, work: &str, times: u32) -> Option<Result<u64, AllocError>> {
    Some(match work {
        "record" => records(alloc, times),
        "lose" => loses(alloc, times),
        "send" => sends(alloc, times),
        "lane" => passes(alloc, times),
        "lanes" => passes_by_rounds(alloc, times),
        "ring" => rings(alloc, times),
        "rings" => rings_by_rounds(alloc, times),
        "hear" => hears(alloc, times),
        "idle" => takes_in_vain(alloc, times),
        _ => return stored(alloc, work, times),
    })
}

/// The same of a log or a broker, or of records that are held in batches.
fn stored(alloc: Global, work: &str, times: u32) -> Option<Result<u64, AllocError>> {
    Some(match work {
        "spell" => spells(alloc, times),
        "offer" => offers(alloc, times),
        "look" => looks(alloc, times),
        "list" => lists(alloc, times),
        "ask" => asks(alloc, times),
        "store" => stores(alloc, times),
        "answer" => answers(alloc, times),
        "hold" => holds(alloc, times),
        _ => return None,
    })
}

/// What the work of an engine came to, which is polled in this task; None where it is no work.
fn polled(
    alloc: Global,
    cx: &mut Context<'_>,
    work: &str,
    times: u32,
) -> Option<Result<u64, AllocError>> {
    Some(match work {
        "turn" => turns(alloc, cx, Lines::Single, 1, times),
        "node" => turns(alloc, cx, Lines::Several(1), 1, times),
        "nodes" => turns(alloc, cx, Lines::Several(10), 1, times),
        "spread" => turns(alloc, cx, Lines::Several(1), 1024, times),
        "spreads" => turns(alloc, cx, Lines::Several(10), 1024, times),
        "rest" => waits(alloc, cx, Lines::Single, 1, 1, times),
        "rests" => waits(alloc, cx, Lines::Single, 64, 1024, times),
        "line" => waits(alloc, cx, Lines::Several(1), 64, 1024, times),
        "lines" => waits(alloc, cx, Lines::Several(10), 64, 1024, times),
        _ => return None,
    })
}

/// The work that a line names, and how many times it is to be done.
fn work_of(line: &str) -> Option<(&str, u32)> {
    let (work, times) = line.split_once(' ')?;
    Some((work, times.parse().ok()?))
}

/// What a line's work came to; None where the line names no work.
fn sum_of<R: RandomSource + AllocGlobal>(rt: &R, line: &str) -> io::Result<Option<u64>> {
    let Some((work, times)) = work_of(line) else {
        return Ok(None);
    };
    let alloc = rt.alloc();
    let sum = match answer(alloc, work, times) {
        None => MockTask::new(rt)?.enter(|cx| polled(alloc, cx, work, times)),
        sum => sum,
    };
    Ok(sum.transpose()?)
}

fn main(rt: HostRuntime) -> io::Result<()> {
    for line in rt.lines(rt.alloc()) {
        let line = line?;
        match sum_of(&rt, line.as_str())? {
            Some(sum) => println!(rt; "{line} {sum}")?,
            None => println!(rt; "{line} is no work")?,
        }
    }
    Ok(())
}
