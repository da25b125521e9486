//! The text of what an event was answered.

ghost use Rattle.std.specs.Prelude.{◌≡◌, ◌++◌, OnOk, flat_map, map};
ghost use Rattle.kp_replay.specs.Line.{answer_part, line_of, lines_of, sent_part};
ghost use Rattle.kp_replay.specs.Text.{told};
ghost use Rattle.kp_world.specs.Line as line;
ghost use Rattle.kp_world.specs.Text.{answer_part_text, line_text, number, sent_part_text};

use crate::line::{AnswerPart, Line, SentPart};
use kp_text::{end_line, put_named};
use std::alloc::AllocError;

/// A batch that went out: its partition, base sequence and count of records.
fn put_sent_part(out: &mut Vec<u8>, part: &SentPart) -> Result<(), AllocError>
    ensures { OnOk result (out.new.items ≡ out.old.items ++ sent_part_text (sent_part part.now)) }
{
    put_named(out, b" ", part.partition)?;
    put_named(out, b":", part.sequence)?;
    put_named(out, b"+", part.count)
}

fn put_sent_parts(out: &mut Vec<u8>, parts: &[SentPart]) -> Result<(), AllocError>
    ensures { OnOk result (out.new.items ≡ out.old.items ++ flat_map sent_part_text (map sent_part parts.now)) }
{
    for part in parts {
        put_sent_part(out, part)?;
    }
    Ok(())
}

/// What a batch was answered: its partition, Kafka's code and the base offset.
fn put_answer_part(out: &mut Vec<u8>, part: &AnswerPart) -> Result<(), AllocError>
    ensures { OnOk result (out.new.items ≡ out.old.items ++ answer_part_text (answer_part part.now)) }
{
    put_named(out, b" ", part.partition)?;
    put_named(out, b":", part.code)?;
    put_named(out, b"@", part.base)
}

fn put_answer_parts(out: &mut Vec<u8>, parts: &[AnswerPart]) -> Result<(), AllocError>
    ensures { OnOk result (out.new.items ≡ out.old.items ++ flat_map answer_part_text (map answer_part parts.now)) }
{
    for part in parts {
        put_answer_part(out, part)?;
    }
    Ok(())
}

/// A word, and two numbers behind it.
fn put_two(out: &mut Vec<u8>, word: &[u8], first: u64, second: u64) -> Result<(), AllocError>
    ensures { OnOk result (out.new.items ≡ out.old.items ++ (word.now ++ number first ++ number second)) }
{
    out.extend_from_slice(word)?;
    put_named(out, b" ", first)?;
    put_named(out, b" ", second)
}

/// A packet of batches.
#[tactic(auto, unfolding(kp_world::specs::Text::line_text))]
fn put_sent(out: &mut Vec<u8>, packet: u64, parts: &[SentPart]) -> Result<(), AllocError>
    ensures { OnOk result (out.new.items ≡ out.old.items ++ line_text (line.SentBatches packet (map sent_part parts.now))) }
{
    put_named(out, b"sent ", packet)?;
    put_sent_parts(out, parts)
}

/// A reply to batches.
#[tactic(auto, unfolding(kp_world::specs::Text::line_text))]
fn put_answers(out: &mut Vec<u8>, reply: u64, parts: &[AnswerPart]) -> Result<(), AllocError>
    ensures { OnOk result (out.new.items ≡ out.old.items ++ line_text (line.AnswerBatches reply (map answer_part parts.now))) }
{
    put_named(out, b"answer ", reply)?;
    put_answer_parts(out, parts)
}

/// A reply to a request for a producer id.
#[tactic(auto, unfolding(kp_world::specs::Text::line_text))]
fn put_id(out: &mut Vec<u8>, reply: u64, code: i16, id: i64) -> Result<(), AllocError>
    ensures { OnOk result (out.new.items ≡ out.old.items ++ line_text (line.AnswerInit reply code id)) }
{
    put_named(out, b"answer ", reply)?;
    put_named(out, b" init ", code)?;
    put_named(out, b"@", id)
}

/// What an event was answered, without a line's end.
#[tactic(auto, unfolding(kp_world::specs::Text::line_text))]
fn put_words(out: &mut Vec<u8>, answer: &Line) -> Result<(), AllocError>
    ensures { OnOk result (out.new.items ≡ out.old.items ++ line_text (line_of answer.now)) }
{
    match answer {
        Line::Closed { sender, partition } => put_two(out, b"closed", *sender, *partition),
        Line::Large { sender, partition } => put_two(out, b"large", *sender, *partition),
        Line::Empty { sender } => put_named(out, b"empty ", *sender),
        Line::Full { sender } => put_named(out, b"full ", *sender),
        Line::Reconnect => out.extend_from_slice(b"reconnect"),
        Line::SentBatches { packet, parts } => put_sent(out, *packet, parts.as_slice()),
        Line::SentInit { packet } => {
            put_named(out, b"sent ", *packet)?;
            out.extend_from_slice(b" init")
        }
        Line::Idle => out.extend_from_slice(b"idle"),
        Line::Ended => out.extend_from_slice(b"ended"),
        Line::AnswerBatches { reply, parts } => put_answers(out, *reply, parts.as_slice()),
        Line::AnswerInit { reply, code, id } => put_id(out, *reply, *code, *id),
        Line::Stale { reply } => put_named(out, b"stale ", *reply),
        Line::Flushing => out.extend_from_slice(b"flushing"),
        Line::Flushed => out.extend_from_slice(b"flushed"),
    }
}

/// What an event was answered.
fn put_line(out: &mut Vec<u8>, answer: &Line) -> Result<(), AllocError>
    ensures { OnOk result (out.new.items ≡ out.old.items ++ told (line_of answer.now)) }
{
    put_words(out, answer)?;
    end_line(out)
}

/// What an event was answered, if there is something.
pub fn put_answer(out: &mut Vec<u8>, answer: &Option<Line>) -> Result<(), AllocError>
    ensures { OnOk result (out.new.items ≡ out.old.items ++ flat_map told (lines_of answer.now)) }
{
    match answer {
        Some(line) => put_line(out, line),
        None => Ok(()),
    }
}
