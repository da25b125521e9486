//! What the words ask to be published.

ghost use Rattle.std.specs.Prelude.{◌≡◌, IfOk};
ghost use Rattle.kprod_send.specs.Planning.{IsFormOf, IsPlanOf, IsTellingOf};

use crate::fault::Fault;
use kp_batch::Header;
use kp_bootstrap::read_addresses;
use kp_options::is_topic;
use kp_publish::{ClusterConfig, EmbedConfig, Form, Names, Plan, Target, Telling};
use kp_send_words::Sending;
use kp_wire::{Blob, Seq, Text};
use std::alloc::{AllocError, Global};
use std::time::Duration;

/// The most bytes of a client's name.
const CLIENT_LIMIT: usize = 249;

/// What is to be published, or why it can't be.
pub(crate) fn plan_of<'a>(
    alloc: Global,
    sending: &Sending<'a>,
    is_terminal: bool,
) -> Result<Plan, Fault<'a>>
    ensures { IfOk result (IsPlanOf sending.now is_terminal) }
{
    if !is_topic(sending.topic) {
        return Err(Fault::Topic);
    }
    if sending.client.len() > CLIENT_LIMIT {
        return Err(Fault::Client);
    }
    if let Err(fault) = sending.config.check() {
        return Err(Fault::Config(fault));
    }
    let bootstrap = match read_addresses(alloc, sending.brokers.as_bytes()) {
        Ok(bootstrap) => bootstrap,
        Err(fault) => return Err(Fault::Brokers(fault)),
    };
    Ok(Plan {
        config: config_of(sending),
        names: Names {
            topic: Text::from_str(alloc, sending.topic)?,
            client: Text::from_str(alloc, sending.client)?,
        },
        bootstrap,
        setup_timeout_ms: sending.setup_timeout_ms,
        form: form_of(alloc, sending)?,
        delimiter: sending.delimiter,
        telling: telling_of(sending, is_terminal),
    })
}

/// How records are sent. The start is tried for as long as a record may take.
fn config_of(sending: &Sending<'_>) -> EmbedConfig
    ensures { result.producer ≡ sending.now.config }
{
    EmbedConfig {
        producer: sending.config,
        cluster: ClusterConfig {
            reconnect_backoff_ms: sending.reconnect_backoff_ms,
            reconnect_backoff_max_ms: sending.reconnect_backoff_max_ms,
            metadata_max_age_ms: sending.metadata_max_age_ms,
            request_timeout_ms: sending.config.request_timeout_ms,
            keep_to_one: false,
        },
        open_timeout_ms: sending.config.delivery_timeout_ms,
    }
}

/// What is told of its progress, to a terminal or to none.
fn telling_of(sending: &Sending<'_>, is_terminal: bool) -> Telling
    ensures { IsTellingOf sending.now is_terminal result }
{
    Telling {
        moves: is_terminal && !sending.quiet,
        every: sending.statistics.map(Duration::from_secs),
        at_most: sending.give_up_after.map(Duration::from_secs),
    }
}

/// How lines are made into records.
fn form_of(alloc: Global, sending: &Sending<'_>) -> Result<Form, AllocError>
    ensures { IfOk result (IsFormOf sending.now) }
{
    let key_delimiter = match sending.key_delimiter {
        None => None,
        Some(text) => Some(Blob::from_slice(alloc, text.as_bytes())?),
    };
    Ok(Form {
        target: match sending.partition {
            None => Target::Any,
            Some(partition) => Target::Partition(partition),
        },
        key_delimiter,
        null_values: sending.null_values,
        headers: headers_of(alloc, sending.headers.as_slice())?,
    })
}

/// The headers that these words name, `NAME=VALUE` each.
fn headers_of(alloc: Global, words: &[&str]) -> Result<Seq<Header>, AllocError> {
    let mut headers = Vec::with_capacity(alloc, words.len())?;
    for word in words {
        let (name, value) = word.split_once('=').unwrap_or((word, ""));
        headers.push(Header {
            key: Text::from_str(alloc, name)?,
            value: Some(Blob::from_slice(alloc, value.as_bytes())?),
        })?;
    }
    Ok(Seq::new(headers))
}
