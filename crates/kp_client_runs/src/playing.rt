//! A sender's thread.

ghost use Rattle.kp_client.specs.Producer.{Finishes, SameProducer};

use crate::stage::Stage;
use kp_client::{Blob, Finished, Producer, Record, Seq, Target, Timestamp};
use std::alloc::{AllocGlobal, Global};
use std::sync::Wait;
use std::thread;
use std::time::{Clock, Duration};

/// A record of the moment 0 with this value.
fn record_of(alloc: Global, value: &str) -> Option<Record> {
    Some(Record {
        timestamp: Timestamp::from_millis(0)?,
        key: None,
        value: Some(Blob::from_slice(alloc, value.as_bytes()).ok()?),
        headers: Seq::new(Vec::new(alloc)),
    })
}

/// Hears so many reports at most, until so many milliseconds are over.
fn hear<R: Wait + Clock>(
    rt: &R,
    producer: &mut Producer,
    stage: &Stage,
    most: u64,
    millis: u64,
) -> Option<()>
    ensures { SameProducer producer.old producer.new }
{
    let over = stage.micros(rt).saturating_add(millis.saturating_mul(1000));
    for _ in 0..most {
        let began = stage.micros(rt);
        let left = Duration::from_micros(over.saturating_sub(began));
        let report = producer.wait_report(rt, left);
        stage.tell(rt, producer.number(), began, "heard", &report)?;
        if report.is_none() {
            return Some(());
        }
    }
    Some(())
}

/// Plays a step. None where it is not understood, or memory is refused.
fn play_step<R: Wait + Clock + AllocGlobal>(
    rt: &R,
    producer: &mut Producer,
    stage: &Stage,
    step: &str,
) -> Option<()>
    ensures { SameProducer producer.old producer.new }
{
    let (sender, began) = (producer.number(), stage.micros(rt));
    let mut words = step.split(' ');
    let word = words.next()?;
    let millis = match words.next() {
        Some(word) => word.parse().ok()?,
        None => 0,
    };
    match word {
        "send" => {
            let record = record_of(rt.alloc(), words.next()?)?;
            let target = match words.next() {
                Some(word) => Target::Named(word.parse().ok()?),
                None => Target::Auto,
            };
            let sent = producer.send_within(rt, target, record, Duration::from_millis(millis));
            stage.tell(rt, sender, began, "sent", &sent.map_err(|(fault, _)| fault))
        }
        "hear" => hear(rt, producer, stage, 1, millis),
        "listen" => hear(rt, producer, stage, u64::MAX, millis),
        "rest" => {
            let most = producer.waiting();
            hear(rt, producer, stage, most, millis)
        }
        "flush" => stage.tell(rt, sender, began, "flushed", &producer.flush()),
        "counts" => {
            stage.tell(rt, sender, began, "counted", &producer.statistics())?;
            stage.tell(rt, sender, began, "read", &stage.monitor.read())
        }
        "sleep" => {
            thread::sleep(rt, Duration::from_millis(millis));
            Some(())
        }
        "close" => {
            stage.closer.lock(rt).close();
            Some(())
        }
        _ => None,
    }
}

/// Plays a line, where it is the sender's. A step that can't be played is told.
fn play_line<R: Wait + Clock + AllocGlobal>(
    rt: &R,
    producer: &mut Producer,
    stage: &Stage,
    line: &str,
)
    ensures { SameProducer producer.old producer.new }
{
    let (sender, step) = line.split_once(' ').unwrap_or((line, ""));
    if sender.parse().ok() == Some(producer.number())
        && play_step(rt, producer, stage, step).is_none()
    {
        let _ = stage.tell(rt, producer.number(), 0, "not played", &step);
    }
}

/// Plays the sender's lines, and ends it.
pub(crate) fn play_sender<R: Wait + Clock + AllocGlobal>(
    rt: &R,
    producer: Producer,
    stage: &Stage,
    steps: &str,
) -> Finished
    ensures { Finishes producer result }
{
    let mut producer = producer;
    for line in steps.lines() {
        play_line(rt, &mut producer, stage, line);
    }
    producer.finish()
}
