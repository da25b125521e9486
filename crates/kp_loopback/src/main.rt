//! Serves a loopback broker at ports of 127.0.0.1, a node at each, until its input has ended and the connections that are
//! then open are served. Then it prints its logs, a line for each record: `log PARTITION OFFSET VALUE`.
//!
//! Its words: the topic, the number of its partitions, a port for each node, and, where some of the Produce requests are
//! not to be answered as they come, a plan of faults. Port 0 takes a free one. Where it listens it says on standard error,
//! a line for each node. A node serves one connection after the other, while the others serve theirs.
#![tactic(auto)]

mod fault;
mod node;
mod serving;
mod settings;

use fault::Fault;
use kp_broker::Broker;
use kp_text::put_log;
use node::{Node, bind_all, ports_of};
use serving::Service;
use settings::Settings;
use std::env;
use std::io::{self, Write};
use std::net::{Net, TcpListener, TcpStream};
use std::process::ExitCode;
use std::rt::Env;
use std::sync::Wait;
use std::thread::{self, Threads};

/// Prints the records of all logs, partition by partition.
fn print_logs<R: Print + AllocGlobal>(
    rt: &R,
    broker: &Broker,
    partitions: u32,
) -> Result<(), Fault> {
    let out = &mut io::writer(rt);
    for partition in 0..partitions {
        if let Some(log) = broker.log(partition) {
            let mut text = Vec::new(rt.alloc());
            put_log(&mut text, partition, log)?;
            out.write_all(&text)?;
        }
    }
    out.flush()?;
    Ok(())
}

/// Says on standard error where each node listens.
fn announce<R: Eprint>(rt: &R, nodes: &[Node]) -> Result<(), Fault> {
    for node in nodes {
        let address = node.address;
        eprintln!(rt; "listening at {address}")?;
    }
    Ok(())
}

/// The nodes that the settings ask for, which listen, and their broker.
fn service_of<R>(rt: &R, settings: Settings<'_>) -> Result<Service, Fault>
where
    R: Eprint + AllocGlobal,
    R: Net<Listener = TcpListener, Stream = TcpStream>,
{
    let nodes = bind_all(rt, &settings.ports)?;
    let ports = ports_of(rt.alloc(), &nodes)?;
    let broker = settings.broker(rt.alloc(), &ports)?;
    announce(rt, &nodes)?;
    Ok(Service::new(broker, nodes, settings.plan))
}

/// Serves until the input has ended.
fn serve<R>(rt: &R, service: &Service) -> Result<(), Fault>
where
    R: Input + AllocGlobal + Threads + Wait + Sync,
    R: Net<Listener = TcpListener, Stream = TcpStream>,
{
    let (results, _) = thread::join(rt, || service.serve_all(rt), || service.wait_for_end(rt));
    for result in results? {
        result?;
    }
    Ok(())
}

/// Serves until the input has ended, and prints what was stored.
fn run<R>(rt: &R) -> Result<(), Fault>
where
    R: Env + Input + Print + Eprint + AllocGlobal + Threads + Wait + Sync,
    R: Net<Listener = TcpListener, Stream = TcpStream>,
{
    let words: Vec<String> = env::args(rt)?.collect(rt.alloc())?;
    let settings = Settings::read(rt.alloc(), words.as_slice())?;
    let partitions = settings.partitions;
    let service = service_of(rt, settings)?;
    serve(rt, &service)?;
    print_logs(rt, &service.into_broker(), partitions)
}

fn main(rt: HostRuntime) -> ExitCode {
    match run(&rt) {
        Ok(()) => ExitCode::SUCCESS,
        Err(fault) => {
            let _ = eprintln!(rt; "kp_loopback: {fault}");
            ExitCode::from(fault.status())
        }
    }
}
