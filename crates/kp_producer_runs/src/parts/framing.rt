//! Batches and requests as bytes.

ghost use Rattle.std.specs.Prelude.{◌<◌, ◌≤◌, length, IfOk};
ghost use Rattle.std.specs.Str.{IsUtf8};
ghost use Rattle.kp_accum.specs.Queue.{size_of};
ghost use Rattle.kp_parts.specs.Written.{IsWritable};

use crate::parts::{PartPlayer, Played};
use kp_accum::Queue;
use kp_batch::{BatchHead, write_batch};
use kp_cases::{StepFault, Words};
use kp_parts::{HandedBatch, Sending, id_frame, produce_frame};
use kp_rules::Names;
use kp_wire::Text;
use std::alloc::Global;

/// The most bytes of a name.
const NAME_LIMIT: usize = 249;

/// The most bytes of a batch in a request.
const BATCH_LIMIT: u64 = 8_388_608;

/// The names of topic and client, which are next.
fn names_of(alloc: Global, words: &mut Words<'_>) -> Result<Names, StepFault>
    ensures utf8 { IfOk result (λ names. IsUtf8 names.topic × IsUtf8 names.client) }
    ensures short { IfOk result (λ names.
        (length names.topic ≤ NAME_LIMIT) × (length names.client ≤ NAME_LIMIT)) }
{
    let topic = Text::from_str(alloc, words.word()?)?;
    let client = Text::from_str(alloc, words.word()?)?;
    if topic.as_str().len() > NAME_LIMIT || client.as_str().len() > NAME_LIMIT {
        return Err("a name is too long".into());
    }
    Ok(Names { topic, client })
}

/// The queue's front batch as it goes out: for which partition, under which producer id, and from which sequence number.
fn sending_of<'q>(queue: &'q Queue, words: &mut Words<'_>) -> Result<Sending<'q>, StepFault>
    ensures writable { IfOk result (λ sending. IsWritable sending) }
    ensures partition { IfOk result (λ sending. sending.partition < 1024) }
    ensures size { IfOk result (λ sending. size_of sending.batch.items ≤ 8388608) }
{
    let partition: u8 = words.number()?;
    let (id, sequence): (u32, u16) = (words.number()?, words.number()?);
    let front = queue.front().ok_or("there is no batch")?;
    if front.items().is_empty() || front.size() > BATCH_LIMIT {
        return Err("there is no batch".into());
    }
    Ok(Sending {
        partition: u32::from(partition),
        batch: HandedBatch::new(0, u64::from(id), u64::from(sequence), front),
    })
}

pub(crate) fn tell_bytes(bytes: &[u8], came: &mut String) -> Played {
    for byte in bytes {
        write!(came, "{byte:02x}")?;
    }
    Ok(())
}

impl PartPlayer {
    /// Tells what the request for the queue's front batch has of it: its partition and its bytes.
    pub(crate) fn tell_data(&self, words: &mut Words<'_>, came: &mut String) -> Played {
        let sent = sending_of(&self.queue, words)?.partition_data(self.alloc)?;
        write!(came, "{} ", sent.partition)?;
        tell_bytes(sent.records.as_slice(), came)
    }

    /// Tells the whole request: with names of topic and client, and a correlation id.
    pub(crate) fn tell_request(&self, words: &mut Words<'_>, came: &mut String) -> Played {
        let names = names_of(self.alloc, words)?;
        let correlation: u16 = words.number()?;
        let sending = sending_of(&self.queue, words)?;
        let head = BatchHead {
            producer_id: sending.batch.id() as i64,
            epoch: 0,
            base_sequence: sending.batch.sequence() as i32,
        };
        // What can be written alone can be written in a request, too.
        write_batch(self.alloc, head, sending.batch.items())?;
        if self.config.request_timeout_ms >= 1 << 31 {
            return Err("the timeout is too long".into());
        }
        let frame = produce_frame(
            self.alloc,
            &self.config,
            &names,
            u32::from(correlation),
            &[sending],
        )?;
        tell_bytes(frame.as_slice(), came)
    }

    /// Tells the request for a producer id: with names of topic and client, and a correlation id.
    pub(crate) fn tell_id_request(&self, words: &mut Words<'_>, came: &mut String) -> Played {
        let names = names_of(self.alloc, words)?;
        let correlation: u16 = words.number()?;
        let frame = id_frame(self.alloc, &names, u32::from(correlation))?;
        tell_bytes(frame.as_slice(), came)
    }
}
