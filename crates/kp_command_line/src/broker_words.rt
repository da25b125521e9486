//! The address of a broker, as a word.

ghost use Rattle.kp_command_line.specs.BrokerWords.{IsAddressOf, IsPortOf};

use std::net::{Ipv4Addr, SocketAddr, SocketAddrV4};

/// The address that a word names: `IP:PORT`, or `localhost:PORT` for 127.0.0.1.
pub(crate) fn address_of(word: &str) -> Option<SocketAddr>
    ensures { IsAddressOf word.now result }
{
    match word.strip_prefix("localhost:") {
        Some(port) => Some(SocketAddr::V4(SocketAddrV4::new(Ipv4Addr::LOCALHOST, port_of(port)?))),
        None => word.parse().ok(),
    }
}

/// A port, by its digits alone.
fn port_of(word: &str) -> Option<u16>
    ensures { IsPortOf word.now result }
{
    match word.as_bytes().first() {
        Some(b'+') => None,
        _ => word.parse().ok(),
    }
}
