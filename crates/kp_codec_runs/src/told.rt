//! What is read of bytes, by the word for it: told as text, and written again.

use crate::fault::{Done, Fault, Left};
use crate::fields::read_field;
use crate::frames::{api_of, request, response};
use crate::records::read_records;
use crate::splitting::read_stream;
use kp_cases::{StepFault, put};
use std::alloc::{AllocError, Global};
use std::fmt::Debug;

/// What stands before a field that is written, which is appended to it.
const BEFORE: u8 = 0xbb;

/// Writes bytes in hexadecimal, and `-` where there are none.
pub(crate) fn put_hex(came: &mut String, bytes: &[u8]) -> Result<(), AllocError> {
    if bytes.is_empty() {
        return came.push_str("-");
    }
    for byte in bytes {
        write!(came, "{byte:02x}")?;
    }
    Ok(())
}

/// What was read of bytes.
#[derive(Drop)]
pub(crate) struct Told {
    pub(crate) alloc: Global,
    /// The value.
    pub(crate) text: String,
    /// Whether what is taken is what is read.
    pub(crate) is_taken: bool,
    /// How many bytes the value is said to have, where something says it.
    pub(crate) size: Option<u64>,
    /// What the value is written as, behind what stands there already.
    pub(crate) written: Vec<u8>,
    /// What stands there already, and then the bytes that were read.
    pub(crate) wanted: Vec<u8>,
}

impl Told {
    pub(crate) fn new(alloc: Global) -> Result<Told, AllocError> {
        Ok(Told {
            alloc,
            text: String::new(alloc),
            is_taken: true,
            size: None,
            written: vec![in alloc; BEFORE]?,
            wanted: vec![in alloc; BEFORE]?,
        })
    }

    /// Takes down the value, as its `Debug` has it.
    pub(crate) fn show<T: Debug>(&mut self, value: &T) -> Result<(), AllocError> {
        write!(self.text, "{value:?}")
    }

    /// Tells the value that was read of these bytes, and what does not agree with them.
    pub(crate) fn tell(&mut self, bytes: &[u8], came: &mut String) -> Result<(), AllocError> {
        came.push_str(self.text.as_str())?;
        if !self.is_taken {
            came.push_str(", taken otherwise")?;
        }
        if self.size.is_some_and(|size| size != bytes.len() as u64) {
            came.push_str(", of another size")?;
        }
        self.wanted.extend_from_slice(bytes)?;
        if self.written.as_slice() != self.wanted.as_slice() {
            came.push_str(", written otherwise")?;
        }
        Ok(())
    }
}

/// Reads what stands at the front of the bytes, and writes it again. Gives the bytes behind it.
fn read<'a>(kind: &str, bytes: &'a [u8], told: &mut Told) -> Left<'a> {
    if let Some(api) = api_of(kind) {
        return response(api, bytes, told);
    }
    match kind {
        "batch" => read_records(bytes, told),
        "request" => request(bytes, told),
        "stream" => read_stream(bytes, told),
        _ => read_field(kind, bytes, told),
    }
}

/// Tells the bytes that are left behind what was read, where there are some.
fn put_rest(came: &mut String, rest: &[u8]) -> Result<(), AllocError> {
    if rest.is_empty() {
        return Ok(());
    }
    came.push_str(" and ")?;
    put_hex(came, rest)?;
    came.push_str(" behind")
}

/// Tells what stands at the front of the bytes and what is left behind it, or the fault there.
pub(crate) fn tell(alloc: Global, kind: &str, bytes: &[u8], came: &mut String) -> Done {
    let mut told = Told::new(alloc)?;
    match read(kind, bytes, &mut told) {
        Ok(rest) => {
            let len = bytes.len().saturating_sub(rest.len());
            told.tell(bytes.get(..len).unwrap_or(&[]), came)?;
            Ok(put_rest(came, rest)?)
        }
        Err(fault) => fault.tell(came),
    }
}

/// Tells the fault of bytes that are refused before any memory is taken: where memory is refused to their reader, that.
pub(crate) fn tell_at_once(alloc: Global, kind: &str, bytes: &[u8], came: &mut String) -> Done {
    let mut told = Told::new(alloc)?;
    match read(kind, bytes, &mut told) {
        Ok(_) => put(came, &"none"),
        Err(Fault::Step(fault)) => Err(fault),
        Err(fault) => put(came, &fault),
    }
}
