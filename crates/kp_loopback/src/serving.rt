//! One connection after the other, at each node.

use crate::node::Node;
use kp_broker::{Broker, BrokerFault, FaultPlan, Reply, Served};
use kp_frames::Splitter;
use std::alloc::AllocError;
use std::io::{self, Read, Write};
use std::net::{Net, TcpStream};
use std::sync::atomic::{AtomicBool, Ordering};
use std::sync::{Mutex, Wait};
use std::thread::{self, Threads};

/// The most reads on one connection.
const READ_LIMIT: u32 = 1_000_000;

/// The most bytes that one read gives.
const PIECE_LIMIT: usize = 64 * 1024;

/// The nodes of a broker, which answer by a plan.
#[derive(Drop)]
pub(crate) struct Service {
    broker: Mutex<Broker>,
    nodes: Vec<Node>,
    plan: FaultPlan,
    /// The input has ended.
    ended: AtomicBool,
}

impl Service {
    pub(crate) fn new(broker: Broker, nodes: Vec<Node>, plan: FaultPlan) -> Service {
        Service {
            broker: Mutex::new(broker),
            nodes,
            plan,
            ended: AtomicBool::new(false),
        }
    }

    pub(crate) fn into_broker(self) -> Broker {
        self.broker.into_inner()
    }

    /// Serves at all nodes at once, each in a thread of its own, and gives how each ended.
    pub(crate) fn serve_all<R: Threads + Wait + AllocGlobal + Sync>(
        &self,
        rt: &R,
    ) -> Result<Vec<io::Result<()>>, AllocError> {
        thread::map_indices(
            rt,
            rt.alloc(),
            self.nodes.len(),
            &|number| { self.serve_node(rt, number) },
        )
    }

    /// Serves each connection that comes to this node until the input has ended. However a connection ended, the next is
    /// served with the same logs.
    fn serve_node<R: Wait + AllocGlobal>(&self, rt: &R, number: usize) -> io::Result<()> {
        let (Some(node), Ok(number)) = (self.nodes.get(number), u16::try_from(number)) else {
            return Ok(());
        };
        for stream in node.listener.incoming() {
            let stream = stream?;
            if self.ended.load(Ordering::SeqCst) {
                return Ok(());
            }
            stream.set_nodelay(true)?;
            let _ = self.serve_connection(rt, number, &stream);
        }
        Ok(())
    }

    /// Answers the requests that come on a connection to a node, until it ends.
    fn serve_connection<R: Wait + AllocGlobal>(
        &self,
        rt: &R,
        node: u16,
        mut stream: &TcpStream,
    ) -> Result<Served, BrokerFault> {
        let mut splitter = Splitter::new(rt.alloc());
        let mut piece = vec![in rt.alloc(); 0u8; PIECE_LIMIT]?;
        for _ in 0..READ_LIMIT {
            let len = stream.read(&mut piece).map_err(|_| BrokerFault::Io)?;
            if len == 0 {
                return Ok(Served::End);
            }
            let fed = splitter.feed(piece.get(..len).unwrap_or(&[]));
            if let Served::HungUp = self.answer_frames(rt, node, &mut splitter, stream)? {
                return Ok(Served::HungUp);
            }
            fed?;
        }
        Err(BrokerFault::TooLong)
    }

    /// Answers the requests at hand. The broker is held for one at a time.
    fn answer_frames<R: Wait>(
        &self,
        rt: &R,
        node: u16,
        splitter: &mut Splitter,
        mut stream: &TcpStream,
    ) -> Result<Served, BrokerFault> {
        while let Some(content) = splitter.next_frame()? {
            let reply = self
                .broker
                .lock(rt)
                .handle(node, content.as_slice(), &self.plan)?;
            match reply {
                Reply::Frame(frame) => stream.write_all(&frame).map_err(|_| BrokerFault::Io)?,
                Reply::Nothing => {}
                Reply::HangUp => return Ok(Served::HungUp),
            }
        }
        Ok(Served::End)
    }

    /// Reads the input to its end, says so, and makes one empty connection to each node, so that who waits for the next one
    /// sees it.
    pub(crate) fn wait_for_end<R: Input + Net>(&self, rt: &R) {
        let _ = io::copy(&mut rt.reader(), &mut io::sink());
        self.ended.store(true, Ordering::SeqCst);
        for node in &self.nodes {
            let _ = TcpStream::connect(rt, node.address);
        }
    }
}
