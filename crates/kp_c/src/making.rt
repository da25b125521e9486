//! A producer is made and freed.

ghost use Rattle.std.specs.Prelude.{◌≡◌, ◌≢◌, ◌≤◌, pos, None, Some, IfOk, OnOk, OnErr, Ok, length};
ghost use Rattle.kp_accum.specs.Config.{checked};
ghost use Rattle.kp_c.specs.Making.{IsNew};
ghost use Rattle.kp_c.specs.Values.{config_of};
ghost use Rattle.kp_rules.specs.Opening.{NAME_LIMIT};

use crate::handle::KpProducer;
use crate::status::{OK, Refusal};
use crate::values::KpConfig;
use kp_bootstrap::read_addresses;
use kp_embed::Embed;
use kp_rules::Names;
use kp_wire::Text;
use std::alloc::Global;

/// The longest name, of a topic or a client.
const NAME_LIMIT: usize = 249;

/// Makes a producer. One that the handle had is freed.
#[unsafe(no_mangle)]
pub extern "C" fn kp_producer_new(
    producer: &mut KpProducer,
    alloc: Global,
    config: &KpConfig,
    topic: &[u8],
    client: &[u8],
    addresses: &[u8],
    seed: u64,
    now: u64,
) -> i32
    ensures made { result ≡ pos 0 → IsNew config.now topic.now client.now addresses.now producer.new.sealed.value }
    ensures refused { result ≢ pos 0 → producer.new.sealed.value ≡ producer.old.sealed.value }
{
    match make(alloc, config, topic, client, addresses, seed, now) {
        Ok(made) => {
            let _ = producer.take(alloc);
            producer.put(made);
            OK
        }
        Err(refusal) => refusal.status(),
    }
}

fn make(
    alloc: Global,
    config: &KpConfig,
    topic: &[u8],
    client: &[u8],
    addresses: &[u8],
    seed: u64,
    now: u64,
) -> Result<Box<Embed, Global>, Refusal>
    ensures { IfOk result (λ made. IsNew config.now topic.now client.now addresses.now (Some made.value)) }
{
    let config = config.config();
    if let Err(fault) = config.producer.check() {
        return Err(Refusal::Config(fault));
    }
    let names = read_names(alloc, topic, client)?;
    let bootstrap = read_addresses(alloc, addresses)?;
    let embed = Embed::new(alloc, config, names, bootstrap, seed, now)?;
    match Box::new(alloc, embed) {
        Ok(made) => Ok(made),
        Err(_) => Err(Refusal::OutOfMemory),
    }
}

fn read_names(alloc: Global, topic: &[u8], client: &[u8]) -> Result<Names, Refusal>
    ensures same { IfOk result (λ n. n ≡ record { topic = topic.now; client = client.now }) }
    ensures topic_fits { IfOk result (λ n. length n.topic ≤ NAME_LIMIT) }
    ensures client_fits { IfOk result (λ n. length n.client ≤ NAME_LIMIT) }
{
    Ok(Names {
        topic: read_topic(alloc, topic)?,
        client: read_client(alloc, client)?,
    })
}

fn read_topic(alloc: Global, topic: &[u8]) -> Result<Text, Refusal>
    ensures same { IfOk result (λ t. t ≡ topic.now) }
    ensures fits { IfOk result (λ t. length t ≤ NAME_LIMIT) }
{
    if topic.is_empty() {
        return Err(Refusal::TopicEmpty);
    }
    if topic.len() > NAME_LIMIT {
        return Err(Refusal::TopicTooLong);
    }
    match str::from_utf8(topic) {
        Ok(topic) => Ok(Text::from_str(alloc, topic)?),
        Err(_) => Err(Refusal::TopicNotUtf8),
    }
}

fn read_client(alloc: Global, client: &[u8]) -> Result<Text, Refusal>
    ensures same { IfOk result (λ t. t ≡ client.now) }
    ensures fits { IfOk result (λ t. length t ≤ NAME_LIMIT) }
{
    if client.len() > NAME_LIMIT {
        return Err(Refusal::ClientTooLong);
    }
    match str::from_utf8(client) {
        Ok(client) => Ok(Text::from_str(alloc, client)?),
        Err(_) => Err(Refusal::ClientNotUtf8),
    }
}

/// Frees the producer, where there is one.
#[unsafe(no_mangle)]
pub extern "C" fn kp_producer_free(producer: &mut KpProducer, alloc: Global)
    ensures { producer.new.sealed.value ≡ None }
{
    let _ = producer.take(alloc);
}
