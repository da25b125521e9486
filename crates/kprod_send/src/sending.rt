//! The lines of a file, sent.

use crate::fault::Fault;
use crate::planning::plan_of;
use kp_publish::{Files as Written, Plan, PublishFault, Tellings, publish};
use kp_send_words::Sending;
use std::fs::File;
use std::io::{IsTerminal, Read, Write};
use std::net::{Net, TcpListener, TcpStream};
use std::random::RandomSource;
use std::rt::Files;
use std::sync::Wait;
use std::thread::Threads;
use std::time::Clock;

/// Sends the lines of the file that the words name, or of the input.
pub(crate) fn send<'a, R, I, O, E>(
    rt: &R,
    sending: &Sending<'a>,
    input: &mut I,
    out: &mut O,
    err: &mut E,
) -> Result<Tellings, Fault<'a>>
where
    R: Files + Wait + Threads + Clock + RandomSource + AllocGlobal + Sync,
    R: Net<Listener = TcpListener, Stream = TcpStream>,
    R::File: Send,
    I: Read + Send,
    O: Write,
    E: Write + IsTerminal,
{
    let plan = plan_of(rt.alloc(), sending, err.is_terminal())?;
    if sending.file == "-" {
        return send_bytes(rt, sending, plan, input, out, err);
    }
    match File::open(rt, sending.file) {
        Ok(mut file) => send_bytes(rt, sending, plan, &mut file, out, err),
        Err(error) => Err(Fault::of(&error, Fault::CannotRead(sending.file))),
    }
}

/// Sends the lines of these bytes.
fn send_bytes<'a, R, I, O, E>(
    rt: &R,
    sending: &Sending<'a>,
    plan: Plan,
    input: &mut I,
    out: &mut O,
    err: &mut E,
) -> Result<Tellings, Fault<'a>>
where
    R: Files + Wait + Threads + Clock + RandomSource + AllocGlobal + Sync,
    R: Net<Listener = TcpListener, Stream = TcpStream>,
    I: Read + Send,
    O: Write,
    E: Write + IsTerminal,
{
    let files = Written {
        offsets: make(rt, sending, sending.offsets)?,
        undelivered: make(rt, sending, sending.undelivered)?,
        unknown: make(rt, sending, sending.unknown)?,
    };
    match publish(rt, plan, input, files, out, err) {
        Ok(tellings) => Ok(tellings),
        Err(fault) => Err(fault_of(sending, fault)),
    }
}

/// Makes a file that is wanted. What it held is gone.
fn make<'a, R: Files>(
    rt: &R,
    sending: &Sending<'a>,
    name: Option<&'a str>,
) -> Result<Option<R::File>, Fault<'a>> {
    let Some(name) = name else {
        return Ok(None);
    };
    if name == sending.file {
        return Err(Fault::IsRead(name));
    }
    match File::create(rt, name) {
        Ok(file) => Ok(Some(file)),
        Err(error) => Err(Fault::of(&error, Fault::CannotWrite(name))),
    }
}

/// Why a stream was given up, by the names of its files.
fn fault_of<'a>(sending: &Sending<'a>, fault: PublishFault) -> Fault<'a> {
    let named = match fault {
        PublishFault::Offsets => sending.offsets,
        PublishFault::Undelivered => sending.undelivered,
        PublishFault::Unknown => sending.unknown,
        PublishFault::Input => return Fault::CannotRead(sending.file),
        PublishFault::OutOfMemory => return Fault::OutOfMemory,
        PublishFault::Network | PublishFault::GivenUp(_) | PublishFault::Spent => None,
    };
    match named {
        Some(name) => Fault::CannotWrite(name),
        None => Fault::Publish(fault),
    }
}
