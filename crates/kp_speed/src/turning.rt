//! Records that go from a sender through an engine, over one connection or with several, to a broker in the same process, and
//! reports that come back; and polls of an engine that has nothing to do.

ghost use Rattle.std.specs.Prelude.{map, IfOk};
ghost use Rattle.kp_engine.specs.Opening.{MayTurn};

use crate::samples::{CONFIG, record_of};
use futures::task::{Context, Poll};
use http_server::Log;
use kp_accum::Config;
use kp_broker::Broker;
use kp_connection::Stream;
use kp_core::{Core, Names, Outcome};
use kp_engine::{Clock, ClusterEngine, Engine, Stop};
use kp_lanes::{Closer, Intake, Sender, Target, open_lanes};
use kp_wire::Text;
use std::alloc::{AllocError, Global};
use std::io::{self, ErrorKind, Read};
use std::mem;

/// How many records are sent before a poll: as many as it takes.
const ROUND: u32 = 64;

/// How many of the records make a full batch.
const BATCH: u32 = 148;

/// How many places a lane has.
const CAPACITY: usize = 512;

/// More than a record takes.
const MAX_RECORD: u64 = 1_000_000;

/// How many bytes stand before a frame's content: its size.
const SIZE_LEN: usize = 4;

/// More polls than the last records need.
const LAST_POLLS: u32 = 1024;

/// Only full batches go out.
const FULL: Config = Config {
    linger_ms: 1000,
    ..CONFIG
};

/// A clock that stands still.
#[derive(Drop)]
struct Still {
    asked: Log<u64, ()>,
}

impl Still {
    fn new() -> Still {
        Still { asked: Log::new() }
    }
}

impl Clock for Still {
    ghost moments = { λ c. map (λ x. x.0) c.asked.items };

    fn now(&mut self) -> u64 {
        self.asked = self.asked.and(&0, &());
        0
    }
}

/// A broker at the far end of a connection, which answers each request as it is written, whole.
#[derive(Drop)]
struct Far {
    broker: Broker,
    /// The answers that were not read yet.
    answers: Vec<u8>,
    /// How many bytes of them were read.
    read: usize,
}

impl Stream for Far {
    ghost answers = { λ _ _ _. Unit {0} };

    ghost answers_nothing = { λ _. tt };

    ghost answers_in_order = { λ _ _ _ _ _ _ _. tt };

    fn poll_take(&mut self, cx: &mut Context<'_>, buf: &mut [u8]) -> Poll<io::Result<usize>> {
        let mut rest = self.answers.get(self.read..).unwrap_or(&[]);
        if rest.is_empty() {
            return cx.yield_now();
        }
        let read = rest.read(buf);
        self.read = self.answers.len().saturating_sub(rest.len());
        Poll::Ready(read)
    }

    fn poll_give(&mut self, _cx: &mut Context<'_>, buf: &[u8]) -> Poll<io::Result<usize>> {
        match self.answer(buf) {
            Ok(()) => Poll::Ready(Ok(buf.len())),
            Err(AllocError) => Poll::Ready(Err(ErrorKind::OutOfMemory.into())),
        }
    }
}

/// The frame that answers this one.
fn ask(broker: &mut Broker, frame: &[u8]) -> Result<Vec<u8>, AllocError> {
    broker
        .answer(frame.get(SIZE_LEN..).unwrap_or(&[]))
        .map_err(|_| AllocError)
}

impl Far {
    fn new(alloc: Global, partitions: u32) -> Result<Far, AllocError> {
        if partitions == 0 || partitions > 1024 {
            return Err(AllocError);
        }
        Ok(Far {
            broker: Broker::new(alloc, "t", partitions, 9092)?,
            answers: Vec::new(alloc),
            read: 0,
        })
    }

    fn answer(&mut self, frame: &[u8]) -> Result<(), AllocError> {
        if self.read == self.answers.len() {
            self.answers.clear();
            self.read = 0;
        }
        let answer = ask(&mut self.broker, frame)?;
        self.answers.extend_from_slice(&answer)
    }
}

/// So many senders, what shuts their lanes, and what an engine is made of: a core of so many partitions, which keeps no
/// audits, and the intake.
fn ends_of(
    alloc: Global,
    senders: u32,
    partitions: u32,
) -> Result<(Vec<Sender>, Closer, Core, Intake), AllocError>
    ensures { IfOk result (λ r. MayTurn r.2 r.3) }
{
    let names = Names {
        topic: Text::from_str(alloc, "t")?,
        client: Text::from_str(alloc, "kp")?,
    };
    if FULL.check().is_err()
        || names.topic.len() > 249
        || names.client.len() > 249
        || partitions == 0
        || partitions > 1024
        || senders == 0
        || senders > 64
    {
        return Err(AllocError);
    }
    let core = Core::new(alloc, FULL, names, partitions, senders, 1000, 2, false)?;
    let Ok((senders, intake, closer)) = open_lanes(alloc, senders, CAPACITY, partitions, MAX_RECORD)
    else {
        return Err(AllocError);
    };
    Ok((senders, closer, core, intake))
}

/// The connections that an engine has.
#[derive(Clone, Copy)]
pub(crate) enum Lines {
    /// One, of an engine that has no other.
    Single,
    /// So many, each to a node, of which the first leads all partitions.
    Several(u32),
}

/// An engine over one connection, or over several.
#[derive(Drop)]
enum Turned {
    Single(Engine<Far, Still>),
    Several(ClusterEngine<Far, Still>),
}

impl Turned {
    fn poll(&mut self, cx: &mut Context<'_>) -> Poll<Stop> {
        match self {
            Turned::Single(engine) => engine.poll_turn(cx),
            Turned::Several(engine) => engine.poll_turns(cx),
        }
    }
}

/// An engine, its senders and what shuts it.
#[derive(Drop)]
struct Producer {
    senders: Vec<Sender>,
    closer: Closer,
    engine: Turned,
}

fn single(
    alloc: Global,
    core: Core,
    intake: Intake,
    partitions: u32,
) -> Result<Engine<Far, Still>, AllocError>
    requires { MayTurn core intake }
{
    let far = Far::new(alloc, partitions)?;
    Engine::new(alloc, core, intake, far, Still::new(), false).map_err(|_| AllocError)
}

/// Connects an engine to so many nodes.
fn connect(
    alloc: Global,
    engine: &mut ClusterEngine<Far, Still>,
    nodes: u32,
    partitions: u32,
) -> Result<(), AllocError> {
    for node in 0..nodes {
        let far = Far::new(alloc, partitions)?;
        if engine.connect(node, far, None).is_err() {
            return Err(AllocError);
        }
    }
    Ok(())
}

fn several(
    alloc: Global,
    core: Core,
    intake: Intake,
    nodes: u32,
    partitions: u32,
) -> Result<ClusterEngine<Far, Still>, AllocError>
    requires { MayTurn core intake }
{
    let Ok(mut engine) = ClusterEngine::new(alloc, core, intake, Still::new()) else {
        return Err(AllocError);
    };
    connect(alloc, &mut engine, nodes, partitions)?;
    Ok(engine)
}

fn engine_of(
    alloc: Global,
    core: Core,
    intake: Intake,
    lines: Lines,
    partitions: u32,
) -> Result<Turned, AllocError>
    requires { MayTurn core intake }
{
    match lines {
        Lines::Single => single(alloc, core, intake, partitions).map(Turned::Single),
        Lines::Several(nodes) => {
            several(alloc, core, intake, nodes, partitions).map(Turned::Several)
        }
    }
}

fn producer_of(
    alloc: Global,
    lines: Lines,
    senders: u32,
    partitions: u32,
) -> Result<Producer, AllocError> {
    let (senders, closer, core, intake) = ends_of(alloc, senders, partitions)?;
    let engine = engine_of(alloc, core, intake, lines, partitions)?;
    Ok(Producer {
        senders,
        closer,
        engine,
    })
}

fn send(alloc: Global, sender: &mut Sender) -> Result<(), AllocError> {
    match sender.send(Target::Auto, record_of(alloc)?, 0) {
        Ok(_) => Ok(()),
        Err(_) => Err(AllocError),
    }
}

/// The offset that the sender is told of next.
fn fetch(sender: &mut Sender) -> Option<u64> {
    match sender.poll_report()?.outcome {
        Outcome::Delivered(offset) => u64::try_from(offset).ok(),
        _ => None,
    }
}

/// The sum of the offsets that the sender is told of, where these are fewer than so many.
fn fetch_all(sender: &mut Sender, most: usize) -> u64 {
    let mut sum = 0u64;
    for _ in 0..most {
        match fetch(sender) {
            Some(offset) => sum = sum.wrapping_add(offset),
            None => return sum,
        }
    }
    sum
}

impl Producer {
    /// So many records are sent, the engine is polled once, and the reports fetched. The answer is the sum of the offsets.
    fn turn(
        &mut self,
        alloc: Global,
        cx: &mut Context<'_>,
        records: u32,
    ) -> Result<u64, AllocError> {
        let sender = self.senders.first_mut().ok_or(AllocError)?;
        for _ in 0..records {
            send(alloc, sender)?;
        }
        let _ = self.engine.poll(cx);
        Ok(fetch_all(sender, CAPACITY))
    }

    /// The lanes are shut, and the engine is polled until it is done. The answer is the sum of the offsets of which the
    /// sender is told.
    fn end(&mut self, alloc: Global, cx: &mut Context<'_>) -> Result<u64, AllocError> {
        self.closer.shut();
        let mut sum = 0u64;
        for _ in 0..LAST_POLLS {
            sum = sum.wrapping_add(self.turn(alloc, cx, 0)?);
        }
        match self.engine.poll(cx) {
            Poll::Ready(Stop::Done) => Ok(sum),
            _ => Err(AllocError),
        }
    }

    /// So many records are sent in rounds, and the engine is polled until it is done. The answer is the sum of their offsets.
    fn turn_to_the_end(
        &mut self,
        alloc: Global,
        cx: &mut Context<'_>,
        records: u32,
    ) -> Result<u64, AllocError> {
        let mut sum = 0u64;
        for first in (0..records).step_by(ROUND as usize) {
            let round = records.saturating_sub(first).min(ROUND);
            sum = sum.wrapping_add(self.turn(alloc, cx, round)?);
        }
        Ok(sum.wrapping_add(self.end(alloc, cx)?))
    }

    /// How many of so many polls wait.
    fn wait(&mut self, cx: &mut Context<'_>, polls: u32) -> u64 {
        let mut sum = 0u64;
        for _ in 0..polls {
            sum = sum.wrapping_add(u64::from(self.engine.poll(cx).is_pending()));
        }
        sum
    }
}

/// So many records go from one sender to the broker, in full batches, until their reports are fetched. The answer is the sum
/// of their offsets. Nothing of the broker is dropped, even at the end.
pub(crate) fn turns(
    alloc: Global,
    cx: &mut Context<'_>,
    lines: Lines,
    partitions: u32,
    records: u32,
) -> Result<u64, AllocError> {
    let mut producer = producer_of(alloc, lines, 1, partitions)?;
    let sum = producer.turn_to_the_end(alloc, cx, records);
    mem::forget(producer);
    sum
}

/// So many records made, and dropped in batches. The answer is how many there were.
pub(crate) fn holds(alloc: Global, records: u32) -> Result<u64, AllocError> {
    let mut batch = Vec::with_capacity(alloc, BATCH as usize)?;
    let mut sum = 0u64;
    for first in (0..records).step_by(BATCH as usize) {
        for _ in 0..records.saturating_sub(first).min(BATCH) {
            batch.push(record_of(alloc)?)?;
        }
        sum = sum.wrapping_add(batch.len() as u64);
        batch.clear();
    }
    Ok(sum)
}

/// How many of so many polls wait, of an engine with so many senders and partitions to which nothing was sent. Nothing of it is
/// dropped, even at the end.
pub(crate) fn waits(
    alloc: Global,
    cx: &mut Context<'_>,
    lines: Lines,
    senders: u32,
    partitions: u32,
    polls: u32,
) -> Result<u64, AllocError> {
    let mut producer = producer_of(alloc, lines, senders, partitions)?;
    let waiting = producer.wait(cx, polls);
    mem::forget(producer);
    Ok(waiting)
}
