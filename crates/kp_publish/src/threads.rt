//! A stream of lines, from its bytes to what became of each line.

ghost use Rattle.std.specs.Prelude.{◌≡◌, ◌≤◌, IfOk, Ok, length};
ghost use Rattle.kp_accum.specs.Config.{checked};
ghost use Rattle.kp_cluster.specs.declared.learning.TheConstants.{SLOT_LIMIT};
ghost use Rattle.kp_publish.specs.Publishing.{IsPublishedAnew};
ghost use Rattle.kp_rules.specs.Opening.{NAME_LIMIT};

use crate::fault::PublishFault;
use crate::files::Files;
use crate::input::{Input, pieces, read_all};
use crate::publishing::Publishing;
use crate::watch::{Telling, Watch};
use kp_cluster::Address;
use kp_core::Names;
use kp_dial::Pair;
use kp_drive::{Drive, EmbedConfig, HostNames, Named, SocketDrive, Sockets};
use kp_send::{Form, Sender, Tellings};
use std::alloc::AllocGlobal;
use std::io::{self, Read, Write};
use std::net::{Net, TcpListener, TcpStream};
use std::random::RandomSource;
use std::sync::Wait;
use std::thread::{self, Threads};
use std::time::Clock;
use tokio::runtime::{Builder, Handle};

/// How many bytes of `buffer.memory` there are for each line that waits for its report, at least: what a short line takes is more
/// than its bytes.
const BYTES_A_LINE: u64 = 320;

/// What is to be published, and how.
#[derive(Drop)]
pub struct Plan {
    pub config: EmbedConfig,
    pub names: Names,
    /// Where a broker of the cluster may be.
    pub bootstrap: Vec<Address>,
    /// How long a connection may take to be made, in milliseconds, once its host was looked up.
    pub setup_timeout_ms: u64,
    pub form: Form,
    /// What ends a line.
    pub delimiter: u8,
    pub telling: Telling,
    ghost right: { checked config.producer ≡ Ok tt },
    ghost topic: { length names.topic ≤ NAME_LIMIT },
    ghost client: { length names.client ≤ NAME_LIMIT },
    ghost some: { 1 ≤ length bootstrap.items },
    ghost few: { length bootstrap.items ≤ SLOT_LIMIT },
}

/// Publishes what the input has up to its end: how many lines ended in which way, once each was told of.
///
/// What was delivered is written to files, as far as they are there; why others were not, to `err`, and how far it has come to
/// `err` and `out`, as the plan has it. Where its time is over, each line that was taken is told of, and what stands behind it is
/// not sent.
pub fn publish<R, I, F, O, E>(
    rt: &R,
    plan: Plan,
    input: &mut I,
    files: Files<F>,
    out: &mut O,
    err: &mut E,
) -> Result<Tellings, PublishFault>
where
    R: Wait + Threads + Clock + RandomSource + AllocGlobal + Sync,
    R: Net<Listener = TcpListener, Stream = TcpStream>,
    I: Read + Send,
    F: Write + Drop,
    O: Write,
    E: Write,
    ensures { IfOk result (λ tellings. IsPublishedAnew F.contents plan.form plan.delimiter files tellings) }
{
    let (hosts, resolver) = HostNames::new(rt.alloc())?;
    let pair = Pair::new();
    let pair = &pair;
    let (resolved, published) = thread::join(
        rt,
        move || {
            if !pair.begin(rt) {
                return Ok(());
            }
            let resolved = resolver.run(rt);
            pair.end();
            resolved
        },
        move || {
            if pair.begin(rt) {
                publish_named(rt, plan, hosts, pair, input, files, out, err)
            } else {
                Err(PublishFault::OutOfMemory)
            }
        },
    );
    let tellings = published?;
    resolved?;
    Ok(tellings)
}

/// Publishes, while another thread looks up names.
fn publish_named<R, I, F, O, E>(
    rt: &R,
    plan: Plan,
    hosts: HostNames,
    lookups: &Pair,
    input: &mut I,
    files: Files<F>,
    out: &mut O,
    err: &mut E,
) -> Result<Tellings, PublishFault>
where
    R: Wait + Threads + Clock + RandomSource + AllocGlobal + Sync,
    R: Net<Listener = TcpListener, Stream = TcpStream>,
    I: Read + Send,
    F: Write + Drop,
    O: Write,
    E: Write,
    ensures { IfOk result (λ tellings. IsPublishedAnew F.contents plan.form plan.delimiter files tellings) }
{
    let (to, from) = pieces(rt.alloc())?;
    let pair = Pair::new();
    let pair = &pair;
    let (_, published) = thread::join(
        rt,
        move || {
            if pair.begin(rt) {
                read_all(rt, input, to);
            }
        },
        move || {
            if pair.begin(rt) {
                let input = Input::of(rt.alloc(), from);
                publish_pieces(rt, plan, hosts, lookups, input, files, out, err)
            } else {
                Err(PublishFault::OutOfMemory)
            }
        },
    );
    published
}

/// Publishes, while other threads look up names and read.
fn publish_pieces<R, F, O, E>(
    rt: &R,
    plan: Plan,
    hosts: HostNames,
    lookups: &Pair,
    input: Input,
    files: Files<F>,
    out: &mut O,
    err: &mut E,
) -> Result<Tellings, PublishFault>
where
    R: Wait + Threads + Clock + RandomSource + AllocGlobal + Sync,
    R: Net<Listener = TcpListener, Stream = TcpStream>,
    F: Write + Drop,
    O: Write,
    E: Write,
    ensures { IfOk result (λ tellings. IsPublishedAnew F.contents plan.form plan.delimiter files tellings) }
{
    let alloc = rt.alloc();
    let mut runtime = Builder::new_current_thread().build(rt)?;
    let Plan {
        config,
        names,
        bootstrap,
        setup_timeout_ms,
        form,
        delimiter,
        telling,
    } = plan;
    let limit = usize::try_from(config.producer.buffer_memory / BYTES_A_LINE).unwrap_or(usize::MAX);
    let batch_size = config.producer.batch_size;
    let keeps = files.undelivered.is_some() || files.unknown.is_some();
    let watch = Watch::new(alloc, rt, runtime.handle(), telling)?;
    let drive = open_drive(
        rt,
        runtime.handle(),
        hosts,
        setup_timeout_ms,
        config,
        names,
        bootstrap,
    )?;
    let publishing = Publishing {
        rt,
        alloc,
        drive,
        lookups,
        sender: Sender::new(alloc, form, delimiter, keeps),
        input,
        limit: limit.max(1),
        batch_size,
        files,
        watch,
        has_said_why: false,
        out,
        err,
    };
    runtime.block_on(rt, publishing)?
}

/// A producer over the sockets of this handle's event loop. Its connections may take so long to be made, in milliseconds.
fn open_drive<'r, R>(
    rt: &'r R,
    handle: &Handle,
    hosts: HostNames,
    setup_timeout_ms: u64,
    config: EmbedConfig,
    names: Names,
    bootstrap: Vec<Address>,
) -> io::Result<SocketDrive<'r, R, HostNames, Named>>
where
    R: Clock + Net + RandomSource + AllocGlobal,
    requires right { checked config.producer ≡ Ok tt }
    requires topic { length names.topic ≤ NAME_LIMIT }
    requires client { length names.client ≤ NAME_LIMIT }
    requires some { 1 ≤ length bootstrap.items }
    requires few { length bootstrap.items ≤ SLOT_LIMIT }
{
    let mut seed = [0; 8];
    rt.fill_bytes(&mut seed)?;
    let sockets = Sockets::new(rt, handle.clone()?, hosts, setup_timeout_ms);
    Drive::new(
        rt.alloc(),
        rt,
        handle,
        sockets,
        config,
        names,
        bootstrap,
        u64::from_be_bytes(seed),
    )
}
