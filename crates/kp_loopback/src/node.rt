//! The nodes, each at its port.

use crate::fault::Fault;
use std::alloc::{AllocFailed, Global};
use std::net::{Ipv4Addr, Net, SocketAddr, TcpListener, TcpStream};

/// Where a node listens.
#[derive(Debug, Drop)]
pub(crate) struct Node {
    pub(crate) listener: TcpListener,
    pub(crate) address: SocketAddr,
}

/// A node at each of these ports of 127.0.0.1. Port 0 takes a free one.
pub(crate) fn bind_all<R>(rt: &R, ports: &[u16]) -> Result<Vec<Node>, Fault>
where
    R: AllocGlobal + Net<Listener = TcpListener, Stream = TcpStream>,
{
    let mut nodes = Vec::new(rt.alloc());
    for port in ports {
        let listener = TcpListener::bind(rt, SocketAddr::from((Ipv4Addr::LOCALHOST, *port)))?;
        let address = listener.local_addr()?;
        nodes.push(Node { listener, address })?;
    }
    Ok(nodes)
}

/// The ports at which they listen.
pub(crate) fn ports_of(alloc: Global, nodes: &[Node]) -> Result<Vec<u16>, AllocFailed<u16>> {
    let mut ports = Vec::new(alloc);
    for node in nodes {
        ports.push(node.address.port())?;
    }
    Ok(ports)
}
