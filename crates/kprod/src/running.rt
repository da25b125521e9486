//! Lines that are sent, and what is printed of it.

ghost use Rattle.std.specs.Prelude.{◌≡◌, ◌++◌, ◌<◌, length, map, true, false, IfOk, OnOk, Some};
ghost use Rattle.std.specs.Io.KnownBytes.{Appends};
ghost use Rattle.kprod.specs.RunText.{audit_at, audits_text, log_at, log_id, logs_text, numbered, run_text};
ghost use Rattle.kprod.specs.Runs.{Prints};
ghost use Rattle.kp_text.specs.Lines.{report_lines};

use crate::fault::Fault;
use kp_broker::Broker;
use kp_core::Core;
use kp_log::LogFault;
use kp_options::Options;
use kp_program::write_whole;
use kp_run::{Came, Cause, Checked, is_too_large, run_lines};
use kp_text::{put_audit, put_own, put_reports, put_totals};
use std::alloc::{AllocError, AllocGlobal, Global};
use std::io::Write;
use std::mem::ManuallyDrop;
use std::net::{Net, TcpListener, TcpStream};
use std::random::RandomSource;
use std::sync::Wait;
use std::thread::Threads;
use std::time::Clock;

/// Of how many lines that were left out it is said.
const SAID_LIMIT: u64 = 10;

/// A producer id as a log has it.
fn log_id(id: u64) -> i64
    ensures { result ≡ log_id id }
{
    id.min(i64::MAX as u64) as i64
}

/// The ids as a log has them.
fn log_ids(alloc: Global, ids: &[u64]) -> Result<Vec<i64>, AllocError>
    ensures { IfOk result (λ known. known.items ≡ map log_id ids.now) }
{
    let mut known = Vec::new(alloc);
    for id in ids {
        known.push(log_id(*id))?;
    }
    Ok(known)
}

/// How many partitions have a number that is printed. A topic has fewer.
fn numbered(core: &Core) -> u32
    ensures { result ≡ numbered core.now }
{
    core.partitions().min(u32::MAX as usize) as u32
}

/// This producer's records in the log of a partition.
fn put_log_at(
    alloc: Global,
    out: &mut Vec<u8>,
    broker: &Broker,
    core: &Core,
    partition: u32,
) -> Result<(), LogFault>
    requires { partition < length core.now.partitions }
    ensures { OnOk result (out.new.items ≡ out.old.items ++ log_at broker.now core.now partition) }
{
    let Some(log) = broker.log(partition) else {
        return Ok(());
    };
    let ids = log_ids(alloc, core.ids(partition))?;
    put_own(out, partition, log, ids.as_slice())
}

/// This producer's records in the logs.
fn put_logs(alloc: Global, out: &mut Vec<u8>, broker: &Broker, core: &Core) -> Result<(), LogFault>
    ensures { OnOk result (out.new.items ≡ out.old.items ++ logs_text (Some broker.now) core.now) }
{
    for partition in 0..numbered(core) {
        put_log_at(alloc, out, broker, core, partition)?;
    }
    Ok(())
}

/// Which records were handed over for a partition, where an audit is kept.
fn put_audit_at(out: &mut Vec<u8>, core: &Core, partition: u32) -> Result<(), AllocError>
    requires { partition < length core.now.partitions }
    ensures { OnOk result (out.new.items ≡ out.old.items ++ audit_at core.now partition) }
{
    match core.audit(partition) {
        Some(runs) => put_audit(out, partition, runs),
        None => Ok(()),
    }
}

/// Which records were handed over, where an audit is kept.
fn put_audits(out: &mut Vec<u8>, core: &Core) -> Result<(), AllocError>
    ensures { OnOk result (out.new.items ≡ out.old.items ++ audits_text core.now) }
{
    for partition in 0..numbered(core) {
        put_audit_at(out, core, partition)?;
    }
    Ok(())
}

/// This producer's records in the logs of the process's broker, where there is one.
fn put_own_logs(
    alloc: Global,
    out: &mut Vec<u8>,
    broker: &Option<Broker>,
    core: &Core,
) -> Result<(), LogFault>
    ensures { OnOk result (out.new.items ≡ out.old.items ++ logs_text broker.now core.now) }
{
    match broker {
        Some(broker) => put_logs(alloc, out, broker, core),
        None => Ok(()),
    }
}

/// What stands above the last line.
fn put_details(alloc: Global, out: &mut Vec<u8>, came: &Came) -> Result<(), LogFault>
    ensures { OnOk result (out.new.items ≡ out.old.items ++ logs_text came.now.broker came.now.core
        ++ report_lines came.now.reports.items ++ audits_text came.now.core) }
{
    put_own_logs(alloc, out, &came.broker, &came.core)?;
    put_reports(out, came.reports.as_slice())?;
    Ok(put_audits(out, &came.core)?)
}

/// The last line alone.
fn totals_of(alloc: Global, came: &Came) -> Result<Vec<u8>, AllocError>
    ensures { IfOk result (λ text. text.items ≡ run_text true came.now) }
{
    let mut text = Vec::new(alloc);
    put_totals(&mut text, came.accepted, came.reports.as_slice())?;
    Ok(text)
}

/// All lines.
fn lines_of(alloc: Global, came: &Came) -> Result<Vec<u8>, LogFault>
    ensures { IfOk result (λ text. text.items ≡ run_text false came.now) }
{
    let mut text = Vec::new(alloc);
    put_details(alloc, &mut text, came)?;
    put_totals(&mut text, came.accepted, came.reports.as_slice())?;
    Ok(text)
}

/// The text of a run.
fn text_of(alloc: Global, came: &Came, totals: bool) -> Result<Vec<u8>, LogFault>
    ensures { IfOk result (λ text. text.items ≡ run_text totals came.now) }
{
    if totals {
        Ok(totals_of(alloc, came)?)
    } else {
        lines_of(alloc, came)
    }
}

/// Prints what became of lines.
fn print_run<'a, O: Write>(
    alloc: Global,
    came: &Came,
    totals: bool,
    out: &mut O,
) -> Result<(), Fault<'a>>
    ensures { OnOk result (Appends (O.contents out.old) (O.contents out.new) (run_text totals came.now)) }
{
    let Ok(text) = text_of(alloc, came, totals) else {
        return Err(Fault::OutOfMemory);
    };
    match write_whole(out, text.as_slice()) {
        Ok(()) => Ok(()),
        Err(_) => Err(Fault::CannotWrite),
    }
}

/// Tells on `err` that a run was given up, where it was. Nothing is made of an `err` that fails.
fn tell_given_up<E: Write>(err: &mut E, came: &Came) {
    let text = match came.given_up {
        None => return,
        Some(Cause::Io) =>
            "kprod: given up: the last connection that a run may make failed or ended\n",
        Some(Cause::TimedOut) => {
            "kprod: given up: on the last connection that a run may make no answer came in time\n"
        }
        Some(Cause::BadReply(_)) => {
            "kprod: given up: on the last connection that a run may make an answer can't be used\n"
        }
    };
    let _ = err.write_all(text.as_bytes());
}

/// Tells on `err` which lines were left out, since their records are too large: the first ones, and then how many more. Nothing is made
/// of an `err` that fails.
fn tell_left_out<R: Clock + AllocGlobal, E: Write>(
    rt: &R,
    options: &Options<'_>,
    lines: &[&[u8]],
    err: &mut E,
) -> Result<(), AllocError> {
    let (mut number, mut count) = (0u64, 0u64);
    for line in lines {
        number = number.saturating_add(1);
        if is_too_large(rt, options, line)? {
            count = count.saturating_add(1);
            if count <= SAID_LIMIT {
                let _ = writeln!(err, "line {number}: not sent: its record is too large");
            }
        }
    }
    if count > SAID_LIMIT {
        let _ = writeln!(
            err,
            "more lines whose records are too large: {}",
            count - SAID_LIMIT
        );
    }
    Ok(())
}

/// Sends the lines, and prints what became of them; on `err` which were left out, and that the run was given up, where it was. What came of the run is
/// left in memory: the program ends behind it, and to free the logs record by record would take as long as a tenth of the run.
pub(crate) fn send_and_print<'a, R, O: Write, E: Write>(
    rt: &R,
    checked: &Checked<'_>,
    lines: &[&[u8]],
    out: &mut O,
    err: &mut E,
) -> Result<(), Fault<'a>>
where
    R: Wait + Threads + Clock + RandomSource + AllocGlobal + Sync,
    R: Net<Listener = TcpListener, Stream = TcpStream>,
    ensures { OnOk result (Prints checked.now lines.now (O.contents out.old) (O.contents out.new)) }
{
    let came = run_lines(rt, checked, lines)?;
    let options = checked.options();
    if came.accepted < lines.len() as u64 && tell_left_out(rt, options, lines, err).is_err() {
        return Err(Fault::OutOfMemory);
    }
    tell_given_up(err, &came);
    let printed = print_run(rt.alloc(), &came, options.totals, out);
    let _left = ManuallyDrop::new(came);
    printed
}
