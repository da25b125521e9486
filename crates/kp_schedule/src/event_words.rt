//! An event, read from its words.

ghost use Rattle.std.specs.Prelude.{◌≡◌, ◌∷◌, ◌↔◌, [], IsTrue, codes, decimal};
ghost use Rattle.kp_schedule.specs.Grammar.{IsCode, IsNode, IsValue, IsVisible, Reads, ReadsEvent, ReadsWords};
ghost use Rattle.kp_schedule.specs.Words.{texts};
ghost use Rattle.std.specs.List.{All};
ghost use Rattle.std.specs.Fmt.{signed_decimal};

use crate::words::{Words, number_of};
use kp_wire::Blob;
use kp_world::{Event, Treatment};
use std::alloc::{AllocError, Global};

/// The latest moment: Kafka's timestamps are of 63 bits.
const MOMENT_LIMIT: u64 = 9_223_372_036_854_775_807;

/// The most records that another producer appends at once.
const OTHERS_LIMIT: u64 = 1000;

/// The greatest error code that a schedule may name.
const CODE_LIMIT: u64 = 99;

/// Kafka's DUPLICATE_SEQUENCE_NUMBER, which says that a batch stands in the log.
const DUPLICATE_SEQUENCE_NUMBER: u64 = 46;

/// The most bytes of a value.
const VALUE_LIMIT: usize = 64;

/// Whether all bytes are seen when they are printed.
fn are_visible(bytes: &[u8]) -> bool
    ensures { IsTrue result ↔ All IsVisible bytes.now }
{
    bytes.iter().all(|b| *b >= 0x21 && *b <= 0x7e)
}

/// Whether it may be a record's value: some bytes, all of which are seen when they are printed.
fn is_value(word: &str) -> bool
    ensures { IsTrue result ↔ IsValue word.now }
{
    !word.is_empty() && word.len() <= VALUE_LIMIT && are_visible(word.as_bytes())
}

fn code_of(word: &str) -> Option<i16>
    ensures { Reads IsCode signed_decimal word.now result }
{
    let code = number_of(word)?;
    if code == 0 || code > CODE_LIMIT || code == DUPLICATE_SEQUENCE_NUMBER {
        return None;
    }
    Some(code as i16)
}

/// A node's number.
fn node_of(word: &str) -> Option<u32>
    ensures { Reads IsNode decimal word.now result }
{
    u32::try_from(number_of(word)?).ok()
}

/// An event of one word.
fn bare_event(word: &str) -> Option<Event>
    ensures { ReadsEvent (word.now ∷ []) result }
{
    match word {
        "tick" => Some(Event::Tick),
        "send" => Some(Event::Send),
        "drop" => Some(Event::Drop),
        "close" => Some(Event::Close),
        "end" => Some(Event::End),
        "flush" => Some(Event::Flush),
        _ => None,
    }
}

/// A moment that the clock shows.
fn now_event(moment: u64) -> Option<Event>
    ensures { ReadsEvent (codes "now" ∷ decimal moment ∷ []) result }
{
    if moment > MOMENT_LIMIT {
        return None;
    }
    Some(Event::Now { moment })
}

/// An event of a word and a number.
fn numbered_event(word: &str, number: &str) -> Option<Event>
    ensures { ReadsEvent (word.now ∷ number.now ∷ []) result }
{
    match word {
        "take" => Some(Event::Take {
            sender: number_of(number)?,
        }),
        "now" => now_event(number_of(number)?),
        "tick" => Some(Event::TickNode {
            node: node_of(number)?,
        }),
        "send" => Some(Event::SendNode {
            node: node_of(number)?,
        }),
        "deliver" => Some(Event::Deliver {
            packet: number_of(number)?,
            treatment: Treatment::Judged,
        }),
        "reply" => Some(Event::Reply {
            reply: number_of(number)?,
        }),
        "drop" => Some(Event::DropNode {
            node: node_of(number)?,
        }),
        _ => None,
    }
}

/// A partition's leader.
fn leader_event(partition: &str, node: &str) -> Option<Event>
    ensures { ReadsEvent (codes "leader" ∷ partition.now ∷ node.now ∷ []) result }
{
    let partition = number_of(partition)?;
    let node = node_of(node)?;
    Some(Event::Leader { partition, node })
}

/// Another producer's records.
fn other_event(partition: &str, count: &str) -> Option<Event>
    ensures { ReadsEvent (codes "other" ∷ partition.now ∷ count.now ∷ []) result }
{
    let partition = number_of(partition)?;
    let count = number_of(count)?;
    if count > OTHERS_LIMIT {
        return None;
    }
    Some(Event::Other { partition, count })
}

/// A packet that comes to a broker which has a whim.
fn deliver_event(packet: &str, how: &str, code: &str) -> Option<Event>
    ensures { ReadsEvent (codes "deliver" ∷ packet.now ∷ how.now ∷ code.now ∷ []) result }
{
    let packet = number_of(packet)?;
    let code = code_of(code)?;
    let treatment = match how {
        "fail" => Treatment::Refused(code),
        "late" => Treatment::Late(code),
        _ => return None,
    };
    Some(Event::Deliver { packet, treatment })
}

/// A record that is accepted.
fn accept_event(
    alloc: Global,
    sender: &str,
    partition: &str,
    value: &str,
) -> Result<Option<Event>, AllocError>
    ensures { ReadsWords (codes "accept" ∷ sender.now ∷ partition.now ∷ value.now ∷ []) result }
{
    let Some(sender) = number_of(sender) else {
        return Ok(None);
    };
    let Some(partition) = number_of(partition) else {
        return Ok(None);
    };
    if !is_value(value) {
        return Ok(None);
    }
    Ok(Some(Event::Accept {
        sender,
        partition,
        value: Blob::from_slice(alloc, value.as_bytes())?,
    }))
}

/// The event that has these words.
pub fn event_of(alloc: Global, words: Words<'_>) -> Result<Option<Event>, AllocError>
    ensures { ReadsWords (texts words.entry) result }
{
    match words {
        Words::One(word) => Ok(bare_event(word)),
        Words::Two(word, number) => Ok(numbered_event(word, number)),
        Words::Three("leader", partition, node) => Ok(leader_event(partition, node)),
        Words::Three("other", partition, count) => Ok(other_event(partition, count)),
        Words::Three(_, _, _) => Ok(None),
        Words::Four("accept", sender, partition, value) => {
            accept_event(alloc, sender, partition, value)
        }
        Words::Four("deliver", packet, how, code) => Ok(deliver_event(packet, how, code)),
        Words::Four(_, _, _, _) => Ok(None),
    }
}
