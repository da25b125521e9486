//! The thread of the process's own broker.

ghost use Rattle.kp_run.specs.Served.{ServesAll, ServesOne};

use kp_broker::{Broker, FaultPlan, Plain};
use std::net::{Net, SocketAddr, TcpListener, TcpStream};
use std::snapshot::Snapshot;
use std::sync::atomic::{AtomicBool, Ordering};
use std::thread::Promise;

/// What is known of the broker that its thread gives back: connections were served by the plan, beginning with the broker
/// as it was before.
#[derive(Drop)]
pub(crate) struct Serving<'a> {
    pub(crate) plan: &'a FaultPlan,
    pub(crate) before: Snapshot<Broker>,
}

impl<'a> Promise<Broker> for Serving<'a> {
    ghost kept_by = { λ promise after. ServesAll promise.plan.now promise.before.value after };
}

/// Serves each connection that comes, until it is over or none can be had, and gives the broker back. However a connection
/// ended, the next is served with the same logs. Behind the last one nobody listens any more, so that who connects is
/// refused and does not wait.
pub(crate) fn serve_all(
    listener: TcpListener,
    broker: Broker,
    plan: &FaultPlan,
    over: &AtomicBool,
) -> Broker
    ensures { ServesAll plan.now broker result }
{
    let mut broker = broker;
    for stream in listener.incoming() {
        let Ok(stream) = stream else {
            return broker;
        };
        if over.load(Ordering::SeqCst) {
            return broker;
        }
        if stream.set_nodelay(true).is_ok() {
            serve_one(&mut broker, &stream, plan);
        }
    }
    broker
}

/// Serves a connection, until it ends.
fn serve_one(broker: &mut Broker, stream: &TcpStream, plan: &FaultPlan)
    ensures { ServesOne plan.now broker.old broker.new }
{
    let _ = broker.serve(&mut Plain::new(stream, stream), plan);
}

/// Says that it is over, and makes one empty connection, so that who waits for the next one sees it.
pub(crate) fn end<R: Net>(rt: &R, address: SocketAddr, over: &AtomicBool) {
    over.store(true, Ordering::SeqCst);
    let _ = TcpStream::connect(rt, address);
}
