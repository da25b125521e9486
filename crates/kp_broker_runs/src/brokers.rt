//! Plays cases of a broker: plans as text, requests that it answers, and connections over memory that it serves, as one node
//! or as several.

mod connection;

use connection::Connection;
use kp_broker::{Broker, BrokerFault, FaultPlan, PlanFault, Served};
use kp_cases::{StepFault, Words, put, put_debug, refused};
use kp_frames::FrameFault;
use std::alloc::{AllocError, AllocFailed, Global};
use std::mem;

/// The most bytes that the name of a broker's topic has.
const TOPIC_LIMIT: usize = 249;

/// The most partitions that it has.
const PARTITION_LIMIT: u32 = 1024;

/// The most nodes that it has.
const NODE_LIMIT: u16 = 64;

/// The port of each broker's first node here. Those of the others stand behind it.
const PORT: u16 = 9092;

/// A broker, its plan, and a connection to one of its nodes.
#[derive(Drop)]
pub(crate) struct Brokers {
    alloc: Global,
    broker: Option<Broker>,
    node: u16,
    plan: FaultPlan,
    connection: Connection,
    /// What was put, and neither asked nor served.
    put: Vec<u8>,
    /// What the broker told last.
    told: Vec<u8>,
    /// What it told before memory was refused to it, where that was in the last step.
    begun: Vec<u8>,
}

/// Writes bytes in hexadecimal, and `-` where there is none.
fn put_bytes(came: &mut String, bytes: &[u8]) -> Result<(), AllocError> {
    if bytes.is_empty() {
        came.push_str("-")?;
    }
    for byte in bytes {
        write!(came, "{byte:02x}")?;
    }
    Ok(())
}

/// The ports of so many nodes.
fn ports_of(alloc: Global, nodes: u16) -> Result<Vec<u16>, AllocFailed<u16>> {
    let mut ports = Vec::new(alloc);
    for node in 0..nodes {
        ports.push(PORT.saturating_add(node))?;
    }
    Ok(ports)
}

/// How many of a content's proper prefixes are refused as cut short.
fn short_prefixes(broker: &mut Broker, content: &[u8]) -> usize {
    let mut count = 0usize;
    for len in 0..content.len() {
        let answer = broker.answer(content.get(..len).unwrap_or(content));
        if answer.err() == Some(BrokerFault::Frame(FrameFault::Short)) {
            count = count.saturating_add(1);
        }
    }
    count
}

/// The value of a partition's record at an offset.
fn value_at(broker: &Broker, partition: u32, offset: u64) -> Option<&[u8]> {
    let stored = broker.log(partition)?.get(offset)?;
    Some(stored.body.value.as_ref()?.as_slice())
}

fn length_of(broker: &Broker, partition: u32) -> Option<u64> {
    Some(broker.log(partition)?.len())
}

/// How many records each of the first three partitions has.
fn lengths(broker: &Broker) -> [Option<u64>; 3] {
    [
        length_of(broker, 0),
        length_of(broker, 1),
        length_of(broker, 2),
    ]
}

/// What is told of a call that was refused memory: of a request's partitions, the first may have been appended to.
fn refused_at(broker: &Broker, before: &[Option<u64>]) -> StepFault {
    let mut is_first = true;
    let mut is_in_order = true;
    for (old, new) in before.iter().zip(&lengths(broker)) {
        is_in_order = is_in_order && (is_first || new == old);
        is_first = is_first && new != old;
    }
    refused(is_in_order)
}

impl Brokers {
    pub(crate) fn new(alloc: Global) -> Brokers {
        Brokers {
            alloc,
            broker: None,
            node: 0,
            plan: FaultPlan::none(alloc),
            connection: Connection::new(alloc),
            put: Vec::new(alloc),
            told: Vec::new(alloc),
            begun: Vec::new(alloc),
        }
    }

    fn open(&mut self, topic: &str, partitions: u32) -> Result<(), StepFault> {
        if topic.len() > TOPIC_LIMIT || partitions == 0 || partitions > PARTITION_LIMIT {
            return Err("no broker has such a topic".into());
        }
        self.broker = Some(Broker::new(self.alloc, topic, partitions, PORT)?);
        Ok(())
    }

    /// Opens a broker of several nodes.
    fn open_cluster(&mut self, topic: &str, partitions: u32, nodes: u16) -> Result<(), StepFault> {
        if topic.len() > TOPIC_LIMIT || partitions == 0 || partitions > PARTITION_LIMIT {
            return Err("no broker has such a topic".into());
        }
        let ports = ports_of(self.alloc, nodes)?;
        if ports.is_empty() || ports.len() > usize::from(NODE_LIMIT) {
            return Err("no broker has so many nodes".into());
        }
        self.broker = Some(Broker::cluster(self.alloc, topic, partitions, &ports)?);
        Ok(())
    }

    fn node(&mut self, words: &mut Words<'_>) -> Result<(), StepFault> {
        self.node = words.number()?;
        Ok(())
    }

    /// Takes the plan that a text in quotes spells.
    fn plan(&mut self, quoted: &str, came: &mut String) -> Result<(), StepFault> {
        let text = quoted.strip_prefix('"').ok_or(StepFault::NotUnderstood)?;
        let text = text.strip_suffix('"').ok_or(StepFault::NotUnderstood)?;
        match FaultPlan::parse(self.alloc, text) {
            Ok(plan) => {
                self.plan = plan;
                Ok(())
            }
            Err(PlanFault::OutOfMemory) => Err(StepFault::OutOfMemory),
            Err(fault) => put_debug(came, &fault),
        }
    }

    /// What was put, and the bytes behind it.
    fn input(&mut self, words: &mut Words<'_>) -> Result<Vec<u8>, StepFault> {
        let mut input = mem::replace(&mut self.put, Vec::new(self.alloc));
        input.extend_from_slice(&words.rest_bytes()?)?;
        Ok(input)
    }

    /// Asks the node: how many bytes its answer has.
    fn answer(&mut self, words: &mut Words<'_>, came: &mut String) -> Result<(), StepFault> {
        let content = self.input(words)?;
        let broker = self.broker.as_mut().ok_or("there is no broker")?;
        let before = lengths(broker);
        match broker.answer_as(self.node, &content) {
            Ok(frame) => {
                write!(came, "{} bytes", frame.len())?;
                self.told = frame;
                Ok(())
            }
            Err(BrokerFault::OutOfMemory) => Err(refused_at(broker, &before)),
            Err(fault) => put_debug(came, &fault),
        }
    }

    fn prefixes(&mut self, words: &mut Words<'_>, came: &mut String) -> Result<(), StepFault> {
        let content = self.input(words)?;
        let broker = self.broker.as_mut().ok_or("there is no broker")?;
        Ok(write!(came, "{} Short", short_prefixes(broker, &content))?)
    }

    fn serve(&mut self, words: &mut Words<'_>, came: &mut String) -> Result<(), StepFault> {
        let input = self.input(words)?;
        let broker = self.broker.as_mut().ok_or("there is no broker")?;
        let before = lengths(broker);
        let served = self.connection.serve(broker, self.node, &self.plan, &input);
        let (ended, written) = served?;
        if ended == Err(BrokerFault::OutOfMemory) {
            let fault = refused_at(broker, &before);
            self.begun = written;
            return Err(fault);
        }
        self.tell_served(ended, written, came)
    }

    /// Tells how a connection has ended, and keeps what was written there.
    fn tell_served(
        &mut self,
        ended: Result<Served, BrokerFault>,
        written: Vec<u8>,
        came: &mut String,
    ) -> Result<(), StepFault> {
        if !written.starts_with(&self.begun) {
            return Err("it has begun otherwise where memory was refused".into());
        }
        self.begun.clear();
        self.told = written;
        match ended {
            Ok(served) => put_debug(came, &served),
            Err(fault) => put_debug(came, &fault),
        }
    }

    /// Writes what the broker told last, where it is not these bytes.
    fn told(&self, wanted: &[u8], came: &mut String) -> Result<(), StepFault> {
        if self.told.as_slice() != wanted {
            put_bytes(came, &self.told)?;
        }
        Ok(())
    }

    fn records(&self, partition: u32, came: &mut String) -> Result<(), StepFault> {
        let broker = self.broker.as_ref().ok_or("there is no broker")?;
        match broker.log(partition) {
            Some(log) => put(came, &log.len()),
            None => put(came, &"none"),
        }
    }

    fn value(&self, partition: u32, offset: u64, came: &mut String) -> Result<(), StepFault> {
        let broker = self.broker.as_ref().ok_or("there is no broker")?;
        match value_at(broker, partition, offset) {
            Some(value) => Ok(put_bytes(came, value)?),
            None => put(came, &"none"),
        }
    }

    /// Plays a step that looks at what there is.
    fn look(
        &mut self,
        step: &str,
        words: &mut Words<'_>,
        came: &mut String,
    ) -> Result<(), StepFault> {
        match step {
            "told" => self.told(&words.rest_bytes()?, came),
            "records" => self.records(words.number()?, came),
            "value" => self.value(words.number()?, words.number()?, came),
            "action" => put_debug(came, &self.plan.action(words.number()?)),
            "read_calls" => put(came, &self.connection.read_calls),
            _ => self.connection.play(step, words),
        }
    }
}

impl Brokers {
    /// Begins a case: nothing is left of the one before.
    pub(crate) fn begin(&mut self) {
        *self = Brokers::new(self.alloc);
    }

    /// Plays a step.
    pub(crate) fn play(
        &mut self,
        step: &str,
        words: &mut Words<'_>,
        came: &mut String,
    ) -> Result<(), StepFault> {
        match step {
            "broker" => self.open(words.word()?, words.number()?),
            "cluster" => self.open_cluster(words.word()?, words.number()?, words.number()?),
            "node" => self.node(words),
            "plan" => self.plan(words.rest(), came),
            "put" => Ok(self.put.extend_from_slice(&words.rest_bytes()?)?),
            "answer" => self.answer(words, came),
            "prefixes" => self.prefixes(words, came),
            "serve" => self.serve(words, came),
            _ => self.look(step, words, came),
        }
    }
}
