//! A piece that is read, and bytes that are written whole.

ghost use Rattle.std.specs.Prelude.{◌≡◌, ◌<◌, length, vec_len, IfOk};
ghost use Rattle.kp_broker.specs.Sending.{Flushes, ReadsPiece, Sends, WritesPiece};

use super::connection::Connection;
use crate::fault::BrokerFault;
use std::alloc::{AllocError, Global};

/// The most bytes that one read gives.
const PIECE_LIMIT: usize = 64 * 1024;

/// Room for a piece.
pub(super) fn empty_piece(alloc: Global) -> Result<Vec<u8>, AllocError>
    ensures { IfOk result (λ piece. vec_len piece ≡ PIECE_LIMIT) }
{
    vec![in alloc; 0; PIECE_LIMIT]
}

/// How many bytes one read gave, at the front of the piece.
pub(super) fn read_piece<C: Connection>(
    connection: &mut C,
    piece: &mut [u8],
) -> Result<usize, BrokerFault>
    requires { 0 < length piece.old }
    ensures { ReadsPiece C.answers connection.old result piece.new connection.new }
{
    connection.take(piece).map_err(|_| BrokerFault::Io)
}

/// How many of the bytes one write took, from the front on.
fn write_piece<C: Connection>(connection: &mut C, bytes: &[u8]) -> Result<usize, BrokerFault>
    ensures { WritesPiece C.answers connection.old bytes.now result connection.new }
{
    connection.give(bytes).map_err(|_| BrokerFault::Io)
}

/// Leaves no byte in a buffer.
fn flush<C: Connection>(connection: &mut C) -> Result<(), BrokerFault>
    ensures { Flushes C.answers connection.old result connection.new }
{
    connection.flush().map_err(|_| BrokerFault::Io)
}

/// Writes the bytes, all of them, and none is left in a buffer.
pub(super) fn send<C: Connection>(connection: &mut C, bytes: &[u8]) -> Result<(), BrokerFault>
    ensures { Sends C.answers connection.old bytes.now result connection.new }
{
    let mut rest = bytes;
    while !rest.is_empty() {
        let len = write_piece(connection, rest)?;
        if len == 0 {
            return Err(BrokerFault::Io);
        }
        rest = &rest[len..];
    }
    flush(connection)
}
