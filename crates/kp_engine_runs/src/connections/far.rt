//! The steps of a connection's far end.

use crate::connections::telling::{put_bytes, put_polled};
use futures::task::Poll;
use futures::test::MockTask;
use kp_cases::{StepFault, Words};
use tokio::io::{AsyncRead, AsyncWrite, DuplexStream};

/// Reads once what is at hand: no byte where the stream has ended.
fn hear(task: &MockTask, far: &mut DuplexStream, came: &mut String) -> Result<(), StepFault> {
    let mut room = [0; 100];
    match task.enter(|cx| far.poll_read(cx, &mut room)) {
        Poll::Ready(Ok(count)) => {
            let heard = room.get(..count).ok_or("more than there is room for")?;
            Ok(put_bytes(came, heard)?)
        }
        polled => Ok(put_polled(came, &polled)?),
    }
}

/// Plays a step of the far end, which is polled in this task.
pub(crate) fn play_far(
    task: &MockTask,
    far: &mut Option<DuplexStream>,
    step: &str,
    words: &mut Words<'_>,
    came: &mut String,
) -> Result<(), StepFault> {
    if step == "drop_far" {
        *far = None;
        return Ok(());
    }
    let far = far.as_mut().ok_or("there is no far end")?;
    if step == "hears" {
        return hear(task, far, came);
    }
    let bytes = words.rest_bytes()?;
    Ok(put_polled(came, &task.enter(|cx| far.poll_write(cx, &bytes)))?)
}
