//! The addresses of brokers that a producer knows at first (`bootstrap.servers`), as a text.
#![tactic(auto)]

ghost use Rattle.std.specs.Prelude.{◌≡◌, ◌≤◌, ◌++◌, ◌∷◌, IfOk, IfSome, OnOk, length};
ghost use Rattle.kp_bootstrap.specs.Addresses.{AreAddresses, IsAddress, IsPort, PutsAddress, entries_of};
ghost use Rattle.kp_cluster.specs.declared.learning.TheConstants.{SLOT_LIMIT};

use kp_cluster::{Address, SLOT_LIMIT};
use kp_wire::Text;
use std::alloc::{AllocError, Global};
use thiserror::Error;

/// Why a text is no list of addresses: of these the first that applies.
#[derive(Clone, Copy, Debug, PartialEq, Eq, Error)]
pub enum BootstrapFault {
    #[error("there is no address")]
    Empty,
    /// An entry that is not `host:port`, with a port from 1 to 65535.
    #[error("an address is not HOST:PORT, with a port from 1 to 65535")]
    Address,
    #[error("there are more than 65536 addresses")]
    TooMany,
    #[error("out of memory")]
    OutOfMemory,
}

impl From<AllocError> for BootstrapFault {
    fn from(_refused: AllocError) -> BootstrapFault {
        BootstrapFault::OutOfMemory
    }
}

/// The addresses of a text `host:port,host:port`.
pub fn read_addresses(alloc: Global, text: &[u8]) -> Result<Vec<Address>, BootstrapFault>
    ensures are { IfOk result (λ addresses. AreAddresses (entries_of text.now) addresses.items) }
    ensures some { IfOk result (λ addresses. 1 ≤ length addresses.items) }
    ensures few { IfOk result (λ addresses. length addresses.items ≤ SLOT_LIMIT) }
{
    if text.is_empty() {
        return Err(BootstrapFault::Empty);
    }
    let Ok(text) = str::from_utf8(text) else {
        return Err(BootstrapFault::Address);
    };
    let addresses = addresses_in(alloc, text)?;
    if addresses.is_empty() {
        return Err(BootstrapFault::Empty);
    }
    if addresses.len() > SLOT_LIMIT {
        return Err(BootstrapFault::TooMany);
    }
    Ok(addresses)
}

fn addresses_in(alloc: Global, text: &str) -> Result<Vec<Address>, BootstrapFault>
    ensures { IfOk result (λ addresses. AreAddresses (entries_of text.now) addresses.items) }
{
    let mut addresses = Vec::new(alloc);
    for entry in text.split(',') {
        put_address(alloc, &mut addresses, entry)?;
    }
    Ok(addresses)
}

fn put_address(
    alloc: Global,
    addresses: &mut Vec<Address>,
    entry: &str,
) -> Result<(), BootstrapFault>
    ensures { OnOk result (PutsAddress entry.now addresses.old.items addresses.new.items) }
{
    let address = read_address(alloc, entry)?;
    match addresses.push(address) {
        Ok(()) => Ok(()),
        Err(_) => Err(BootstrapFault::OutOfMemory),
    }
}

fn read_address(alloc: Global, entry: &str) -> Result<Address, BootstrapFault>
    ensures { IfOk result (λ address. IsAddress entry.now address) }
{
    let Some((host, port)) = entry.rsplit_once(":") else {
        return Err(BootstrapFault::Address);
    };
    if host.is_empty() {
        return Err(BootstrapFault::Address);
    }
    match port_of(port) {
        Some(port) => Ok(Address {
            host: Text::from_str(alloc, host)?,
            port,
        }),
        None => Err(BootstrapFault::Address),
    }
}

/// A port that may be connected to.
fn port_of(text: &str) -> Option<u16>
    ensures { IfSome result (λ port. IsPort text.now port) }
{
    match text.parse() {
        Ok(0) | Err(_) => None,
        Ok(port) => Some(port),
    }
}
