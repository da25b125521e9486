//! What the words ask for.

use crate::fault::Fault;
use kp_broker::{Broker, FaultPlan};
use std::alloc::Global;

/// The most bytes of a topic's name.
const TOPIC_LIMIT: usize = 249;

const PARTITION_LIMIT: u32 = 1024;

/// The most nodes of a cluster.
const NODE_LIMIT: usize = 64;

/// What the words ask for.
#[derive(Debug, Drop)]
pub(crate) struct Settings<'a> {
    topic: &'a str,
    pub(crate) partitions: u32,
    /// One for each node. 0 is any that is free.
    pub(crate) ports: Vec<u16>,
    pub(crate) plan: FaultPlan,
}

/// The ports that the words name, one at least, and the plan, which is the last word behind it where that is no number.
fn ports_and_plan(alloc: Global, words: &[String]) -> Result<(Vec<u16>, FaultPlan), Fault> {
    match words.split_last() {
        Some((plan, ports)) if !ports.is_empty() && plan.parse::<u64>().is_err() => {
            let plan = FaultPlan::parse(alloc, plan.as_str())?;
            Ok((ports_of(alloc, ports)?, plan))
        }
        _ => Ok((ports_of(alloc, words)?, FaultPlan::none(alloc))),
    }
}

fn ports_of(alloc: Global, words: &[String]) -> Result<Vec<u16>, Fault> {
    let mut ports = Vec::new(alloc);
    for word in words {
        ports.push(word.parse().map_err(|_| Fault::Usage)?)?;
    }
    Ok(ports)
}

impl<'a> Settings<'a> {
    /// The first word is the program's name.
    pub(crate) fn read(alloc: Global, words: &'a [String]) -> Result<Settings<'a>, Fault> {
        let [_, topic, partitions, rest @ ..] = words else {
            return Err(Fault::Usage);
        };
        let (ports, plan) = ports_and_plan(alloc, rest)?;
        Ok(Settings {
            topic: topic.as_str(),
            partitions: partitions.parse().map_err(|_| Fault::Usage)?,
            ports,
            plan,
        })
    }

    /// A broker whose nodes listen at these ports.
    pub(crate) fn broker(&self, alloc: Global, ports: &[u16]) -> Result<Broker, Fault> {
        if self.topic.is_empty() || self.topic.len() > TOPIC_LIMIT {
            return Err(Fault::Usage);
        }
        if self.partitions < 1 || self.partitions > PARTITION_LIMIT {
            return Err(Fault::Usage);
        }
        if ports.is_empty() || ports.len() > NODE_LIMIT {
            return Err(Fault::Usage);
        }
        Ok(Broker::cluster(alloc, self.topic, self.partitions, ports)?)
    }
}
