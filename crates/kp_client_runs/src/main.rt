//! Plays producers of the library's service over sockets, by its input. Who gave it the input judges what came.
//!
//! The input has a block of lines for each producer, with an empty line between two. They are played one after the other.
//! `IP:PORT [NAME=VALUE..]`, the first line of a block, opens the producer over the broker there; with `cluster:HOST:PORT[,..]` in
//! place of the address, over the cluster of which a broker may be at each of these. It is of the topic `t`, with the library's
//! defaults but for these settings: `senders`, `capacity`, `partitions`, `linger.ms`, `request.timeout.ms`, `delivery.timeout.ms`,
//! `retry.backoff.ms`, `open.timeout.ms`, `in.a.row` or `in.all` (new connections), and `late.ms`, after how many milliseconds
//! the service runs. Each further line is a step of the sender whose number it begins with. Each sender has a thread of its own,
//! which plays its steps:
//!
//!     0 send MILLIS VALUE [PARTITION]     waits for room for so long; where that is 0 it doesn't
//!     0 hear MILLIS                       hears a report, if one comes in that time
//!     0 listen MILLIS                     hears all that come in that time
//!     0 rest MILLIS                       hears those of records that have none yet, if they come in that time
//!     0 flush
//!     0 counts                            reads the statistics, by the sender's handle and by a monitor
//!     0 sleep MILLIS
//!     0 close                             closes the producer; it is closed anyway once all have played their steps
//!
//! What came of a step is told by a line, `SENDER BEGAN ENDED WHAT VALUE`, with its times in microseconds from the opening on.
//! They are in the order in which the steps ended. Behind them stands how the service ended, and when; or why there is none.
#![tactic(auto)]

mod playing;
mod script;
mod session;
mod stage;

use anyhow::{Context, Result};
use script::{Over, Script};
use session::{hold, hold_single};
use std::alloc::AllocGlobal;
use std::io;
use std::net::{Net, TcpListener, TcpStream};
use std::random::RandomSource;
use std::sync::Wait;
use std::thread::Threads;
use std::time::Clock;

/// Plays a block.
fn play<R>(rt: &R, block: &str) -> Result<()>
where
    R: Wait + Threads + Clock + RandomSource + AllocGlobal + Sync + Print,
    R: Net<Listener = TcpListener, Stream = TcpStream>,
{
    let script = Script::read(rt.alloc(), block).context("not understood")?;
    match script.over {
        Over::One(address) if script.settings.senders == 1 => {
            hold_single(rt, address, script.settings, script.late, script.steps)
        }
        _ => hold(rt, script),
    }
}

fn main(rt: HostRuntime) -> Result<()> {
    let input = io::read_to_string(rt.alloc(), rt.reader())?;
    for block in input.trim().split("\n\n") {
        if let Err(wrong) = play(&rt, block) {
            println!(rt; "{wrong:#}")?;
        }
    }
    Ok(())
}
