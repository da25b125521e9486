//! Publishes a record, and prints what became of it. Its words: a broker, as 127.0.0.1:9092, a topic and a value.
#![tactic(auto)]

ghost use Rattle.kp_client.specs.Producer.{Finishes};

use anyhow::{Context, Result, anyhow};
use kp_client::{
    Blob, Closer, Ending, Finished, Producer, Record, Report, Seq, Settings, Target, Timestamp,
    open_single,
};
use std::alloc::AllocGlobal;
use std::net::{Net, SocketAddr, TcpListener, TcpStream};
use std::random::RandomSource;
use std::sync::Wait;
use std::thread::Threads;
use std::time::{Clock, Duration, SystemTime, UNIX_EPOCH};
use std::{env, thread};

/// A record with this value, stamped with the time of the clock.
fn record<R: Clock + AllocGlobal>(rt: &R, value: &str) -> Result<Record> {
    let alloc = rt.alloc();
    let now = SystemTime::now(rt)?.duration_since(UNIX_EPOCH)?;
    Ok(Record {
        timestamp: Timestamp::from_millis(i64::try_from(now.as_millis())?).context("the clock")?,
        key: None,
        value: Some(Blob::from_slice(alloc, value.as_bytes())?),
        headers: Seq::new(Vec::new(alloc)),
    })
}

/// Sends the record, waits for its report, and closes the producer.
fn send<R: Wait + Clock>(
    rt: &R,
    producer: Producer,
    closer: Closer,
    record: Record,
) -> (Finished, Option<Report>)
    ensures { Finishes producer result.0 }
{
    let (mut producer, mut closer) = (producer, closer);
    let report = match producer.send(rt, Target::Auto, record) {
        Ok(_ticket) => producer.wait_report(rt, Duration::from_secs(150)),
        Err(_refused) => None,
    };
    closer.close();
    (producer.finish(), report)
}

/// Publishes the record by a producer of its own: its report, and how the producer's service ended.
fn publish<R>(
    rt: &R,
    broker: SocketAddr,
    settings: Settings,
    record: Record,
) -> Result<(Option<Report>, Ending)>
where
    R: Wait + Threads + Clock + RandomSource + AllocGlobal + Sync,
    R: Net<Listener = TcpListener, Stream = TcpStream>,
{
    let (producer, closer, service) = open_single(rt, broker, settings)?;
    let sending = move || send(rt, producer, closer, record);
    let ((finished, report), ended) = thread::join(rt, sending, move || service.run(rt));
    let ended = ended?;
    let ending = ended.ending();
    match ended.settle_single(rt.alloc(), finished) {
        Ok(_left) => Ok((report, ending)),
        Err(_) => Err(anyhow!("out of memory")),
    }
}

fn main(rt: HostRuntime) -> Result<()> {
    let (rt, alloc) = (&rt, rt.alloc());
    let words: Vec<String> = env::args(rt)?.collect(alloc)?;
    let [_, broker, topic, value] = words.as_slice() else {
        return Err(anyhow!("its words are IP:PORT TOPIC VALUE"));
    };
    let settings = Settings::new(alloc, topic, "example")?;
    match publish(rt, broker.parse()?, settings, record(rt, value)?)? {
        (Some(report), _) => println!(rt; "{:?}", report.outcome)?,
        (None, ending) => println!(rt; "no report, {ending:?}")?,
    }
    Ok(())
}
