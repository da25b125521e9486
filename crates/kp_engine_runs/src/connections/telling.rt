//! What is told of bytes and of polls.

use futures::task::Poll;
use std::alloc::AllocError;
use std::fmt::Debug;

/// Of more bytes than this only their number is told, and which byte they are, where all are one.
const MANY: usize = 1000;

fn put_many(came: &mut String, bytes: &[u8]) -> Result<(), AllocError> {
    let first = bytes.first().copied().unwrap_or(0);
    write!(came, "{} bytes", bytes.len())?;
    if bytes.iter().all(|byte| *byte == first) {
        write!(came, " of {first}")?;
    }
    Ok(())
}

/// Writes bytes in hexadecimal, and `-` where there is none.
pub(crate) fn put_bytes(came: &mut String, bytes: &[u8]) -> Result<(), AllocError> {
    if bytes.len() > MANY {
        return put_many(came, bytes);
    }
    if bytes.is_empty() {
        came.push_str("-")?;
    }
    for byte in bytes {
        write!(came, "{byte:02x}")?;
    }
    Ok(())
}

/// Writes what a poll gave, or that it waits.
pub(crate) fn put_polled<T: Debug>(came: &mut String, polled: &Poll<T>) -> Result<(), AllocError> {
    match polled {
        Poll::Pending => came.push_str("waits"),
        Poll::Ready(given) => write!(came, "{given:?}"),
    }
}
