//! The steps of a wire, and of the stream that it leaves.

use crate::connections::memory::{Memory, count_of};
use crate::connections::telling::{put_bytes, put_polled};
use futures::test::MockTask;
use kp_cases::{StepFault, Words, put};
use kp_connection::Wire;
use kp_connection::script::Script;

fn send(wire: &mut Wire<Memory>, frame: Vec<u8>) -> Result<(), StepFault> {
    if !wire.is_idle() {
        return Err("the wire is not idle".into());
    }
    wire.send(frame);
    Ok(())
}

fn hear(wire: &mut Wire<Memory>, came: &mut String) -> Result<(), StepFault> {
    match wire.next_frame()? {
        Some(content) => Ok(put_bytes(came, &content)?),
        None => put(came, &"none"),
    }
}

/// Plays a step of a wire that is polled in this task.
pub(crate) fn play_wire(
    task: &MockTask,
    wire: &mut Wire<Memory>,
    step: &str,
    words: &mut Words<'_>,
    came: &mut String,
) -> Result<(), StepFault> {
    match step {
        "read" => {
            let most = count_of(words.word()?)?.max(1);
            Ok(put_polled(came, &task.enter(|cx| wire.poll_read_once(cx, most)))?)
        }
        "write" => Ok(put_polled(came, &task.enter(|cx| wire.poll_write(cx)))?),
        "send" => send(wire, words.rest_bytes()?),
        "frame" => hear(wire, came),
        "wanted" => put(came, &wire.wanted()),
        "idle" => put(came, &wire.is_idle()),
        "woken" => put(came, &task.is_woken()),
        _ => Err(StepFault::NotUnderstood),
    }
}

pub(crate) fn play_script(script: &Script, step: &str, came: &mut String) -> Result<(), StepFault> {
    match step {
        "output" => Ok(put_bytes(came, script.output())?),
        "unread" => Ok(put_bytes(came, script.unread())?),
        _ => Err(StepFault::NotUnderstood),
    }
}
