//! What an engine did and what a sender was told, as text.

use kp_accum::Item;
use kp_engine::{Held, Stop, Turned};
use kp_rules::{Report, Ticked};
use kp_wire::read_i32;
use std::alloc::AllocError;

/// Goes on with a list.
fn separate(text: &mut String) -> Result<(), AllocError> {
    text.push_str(if text.is_empty() { "" } else { "; " })
}

/// An item's sender, partition and number behind this word: "item 0/0/0".
fn put_item(text: &mut String, word: &str, item: &Item) -> Result<(), AllocError> {
    write!(
        text,
        "{word} {}/{}/{}",
        item.sender, item.partition, item.number
    )
}

/// A report's sender, partition and number behind this word, and the outcome: "told 0/0/0 Delivered(0)".
fn put_report(text: &mut String, word: &str, report: &Report) -> Result<(), AllocError> {
    write!(
        text,
        "{word}{}/{}/{}",
        report.sender, report.partition, report.number
    )?;
    write!(text, " {:?}", report.outcome)
}

/// Adds the node of a call, where it is another one than node 0.
fn put_node(text: &mut String, node: u32) -> Result<(), AllocError> {
    if node == 0 {
        return Ok(());
    }
    write!(text, " of node {node}")
}

fn put_tick(text: &mut String, node: u32, now: u64, ticked: Ticked) -> Result<(), AllocError> {
    write!(text, "tick {now}")?;
    put_node(text, node)?;
    if ticked.reports > 0 {
        write!(text, " tells {}", ticked.reports)?;
    }
    text.push_str(if ticked.reconnect { " reconnect" } else { "" })
}

/// A call on the core. A reply is "stale" that is to no request in flight.
fn put_call(text: &mut String, call: &Turned) -> Result<(), AllocError> {
    match call {
        Turned::Append(item, None) => put_item(text, "append", item),
        Turned::Append(item, Some(fault)) => {
            put_item(text, "append", item)?;
            write!(text, " {fault:?}")
        }
        Turned::Flush => text.push_str("flush"),
        Turned::Close => text.push_str("close"),
        Turned::Tick(node, now, ticked) => put_tick(text, *node, *now, *ticked),
        Turned::Request(node, now, Ok(Some(sent))) => {
            write!(text, "request {} at {now}", sent.correlation)?;
            put_node(text, *node)
        }
        Turned::Request(node, now, Ok(None)) => {
            write!(text, "idle at {now}")?;
            put_node(text, *node)
        }
        Turned::Reply(now, content, Ok(replied)) => {
            let what = if replied.known { "reply" } else { "stale" };
            let correlation = read_i32(content.as_slice()).map_or(-1, |(id, _)| id);
            write!(
                text,
                "{what} {correlation} tells {} at {now}",
                replied.reports
            )
        }
        Turned::Request(_, now, Err(fault)) | Turned::Reply(now, _, Err(fault)) => {
            write!(text, "{fault:?} at {now}")
        }
        Turned::Disconnect(node, now) => {
            write!(text, "disconnect at {now}")?;
            put_node(text, *node)
        }
        Turned::Told(report) => put_report(text, "told ", report),
    }
}

/// Adds calls on the core to a list: "tick 0; request 2 at 0; idle at 0".
pub(crate) fn put_calls(text: &mut String, calls: &[Turned]) -> Result<(), AllocError> {
    for call in calls {
        separate(text)?;
        put_call(text, call)?;
    }
    Ok(())
}

/// Adds what a poll gave, where it was ready.
pub(crate) fn put_stop(text: &mut String, stop: Option<Stop>) -> Result<(), AllocError> {
    if let Some(stop) = stop {
        separate(text)?;
        write!(text, "{stop:?}")?;
    }
    Ok(())
}

/// Adds a report that a sender has fetched.
pub(crate) fn put_told(text: &mut String, report: &Report) -> Result<(), AllocError> {
    separate(text)?;
    put_report(text, "", report)
}

/// Adds what was held back: "item 0/0/3; report 0/0/1 Delivered(1)".
pub(crate) fn put_held(text: &mut String, held: &Held) -> Result<(), AllocError> {
    for item in &held.items {
        separate(text)?;
        put_item(text, "item", item)?;
    }
    for report in &held.reports {
        separate(text)?;
        put_report(text, "report ", report)?;
    }
    Ok(())
}
