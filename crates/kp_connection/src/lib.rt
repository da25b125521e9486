//! The lower half of a polled connection: a stream that tells what each of its calls answered, the frames that are
//! written to it and read from it, and the handshake that introduces a producer (protocol guide, "Network"; KIP-98).
#![tactic(auto)]

mod fault;
mod handshake;
pub mod handshake_laws;
mod kept;
pub mod laws;
pub mod script;
mod stream;
mod wire;

pub use fault::ReadFault;
pub use handshake::Handshake;
pub use stream::{Plain, Stream};
pub use wire::Wire;
