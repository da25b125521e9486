//! The input, as a thread reads it.

ghost use Rattle.std.specs.Prelude.{◌≡◌, ◌⊎◌, ◌≤◌, [], IsTrue, length, OnOk, true};
ghost use Rattle.futures.specs.Task.{Keeps};
ghost use Rattle.kp_send.specs.Sender.{is_ready};

use crate::fault::PublishFault;
use futures::executor::block_on;
use futures::task::{Context, Poll};
use kp_lines::LineFault;
use kp_send::Sender as Lines;
use std::alloc::{AllocError, AllocGlobal, Global};
use std::io::{ErrorKind, Read};
use std::random::RandomSource;
use std::sync::Wait;
use tokio::sync::mpsc::{Receiver, Sender, channel};

/// The most bytes of a piece: 64 KiB.
const PIECE: usize = 65_536;

/// How many pieces wait at most.
const PIECES: usize = 8;

/// What was read.
#[derive(Debug, Drop)]
pub(crate) enum Piece {
    Bytes(Vec<u8>),
    /// The input has ended.
    End,
    /// Nothing more can be read.
    Failed,
    OutOfMemory,
}

/// How many bytes come with a piece, or with the end.
pub(crate) fn len_of(piece: &Option<Piece>) -> usize {
    match piece {
        Some(Piece::Bytes(bytes)) => bytes.len(),
        Some(Piece::End | Piece::Failed | Piece::OutOfMemory) | None => 0,
    }
}

/// What a thread has read, as far as it is here.
#[derive(Drop)]
pub(crate) struct Input {
    pub(crate) pieces: Receiver<Piece>,
    pub(crate) piece: Vec<u8>,
    /// How many bytes of the piece were taken.
    pub(crate) taken: usize,
    /// Whether it ended before its end.
    pub(crate) has_failed: bool,
    ghost within: { taken ≤ length piece.items },
}

impl Input {
    ghost use Rattle.kp_publish.specs.Input.{bytes_in, IsEnd, rest_of};
    ghost use Rattle.kp_publish.specs.Publishing.{DrawsSilently};

    /// What comes from there.
    pub(crate) fn of(alloc: Global, pieces: Receiver<Piece>) -> Input {
        Input {
            pieces,
            piece: Vec::new(alloc),
            taken: 0,
            has_failed: false,
        }
    }

    /// Whether all that is here was taken.
    pub(crate) fn is_empty(&self) -> bool
        ensures { IsTrue result → rest_of self.now ≡ [] }
    {
        self.taken == self.piece.len()
    }

    /// Gives a sender the next line of what is here, or its beginning.
    pub(crate) fn give_line(&mut self, sender: &mut Lines) -> Result<(), LineFault>
        requires { is_ready sender.old ≡ true }
        ensures { OnOk result (DrawsSilently [] self.old sender.old self.new sender.new) }
    {
        let rest = sender.take(&self.piece[self.taken..])?.len();
        self.taken = self.piece.len() - rest;
        Ok(())
    }

    /// The next piece, or None where nobody reads any more.
    pub(crate) fn poll_piece(&mut self, cx: &mut Context<'_>) -> Poll<Option<Piece>>
        ensures kept { Keeps cx.old cx.new }
        ensures rest { rest_of self.new ≡ rest_of self.old }
    {
        self.pieces.poll_recv(cx)
    }

    /// A piece has come, or nobody reads any more, which is for want of memory where no end came before.
    pub(crate) fn take_in(
        &mut self,
        sender: &mut Lines,
        piece: Option<Piece>,
    ) -> Result<(), PublishFault>
        requires ready { is_ready sender.old ≡ true }
        requires taken { rest_of self.old ≡ [] }
        ensures draws { OnOk result (DrawsSilently (bytes_in piece) self.old sender.old self.new sender.new) }
        ensures ends { OnOk result ((sender.new ≡ sender.old) ⊎ IsEnd piece) }
    {
        match piece {
            Some(Piece::Bytes(bytes)) => {
                self.taken = 0;
                self.piece = bytes;
                Ok(())
            }
            Some(Piece::End) => {
                sender.finish();
                Ok(())
            }
            Some(Piece::Failed) => {
                self.has_failed = true;
                sender.finish();
                Ok(())
            }
            Some(Piece::OutOfMemory) | None => Err(PublishFault::OutOfMemory),
        }
    }
}

/// Where what was read goes to, and where it comes from.
pub(crate) fn pieces(alloc: Global) -> Result<(Sender<Piece>, Receiver<Piece>), AllocError> {
    channel(alloc, PIECES)
}

/// Reads up to the end, or until nobody takes what is read.
pub(crate) fn read_all<R, I>(rt: &R, input: &mut I, pieces: Sender<Piece>)
where
    R: Wait + RandomSource + AllocGlobal,
    I: Read,
{
    for _ in 0..u64::MAX {
        let piece = read_piece(rt.alloc(), input);
        let goes_on = matches!(piece, Piece::Bytes(_));
        let sent = block_on(rt, pieces.send(piece));
        if !goes_on || !matches!(sent, Ok(Ok(()))) {
            return;
        }
    }
}

/// What is there now, or the end.
fn read_piece<I: Read>(alloc: Global, input: &mut I) -> Piece {
    let mut bytes = Vec::new(alloc);
    if bytes.resize(PIECE, 0).is_err() {
        return Piece::OutOfMemory;
    }
    for _ in 0..u64::MAX {
        match input.read(&mut bytes) {
            Ok(0) => return Piece::End,
            Ok(count) => {
                bytes.truncate(count);
                return Piece::Bytes(bytes);
            }
            Err(error) if error.kind() == ErrorKind::Interrupted => {}
            Err(error) if error.kind() == ErrorKind::OutOfMemory => {
                return Piece::OutOfMemory;
            }
            Err(_) => return Piece::Failed,
        }
    }
    Piece::Failed
}
