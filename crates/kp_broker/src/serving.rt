//! A connection to a node is served: its frames are answered, but where a plan says otherwise.

ghost use Rattle.std.specs.Prelude.{◌≡◌, [], length};
ghost use Rattle.kp_frames.specs.Stream.{stream};
ghost use Rattle.kp_broker.specs.Serving.{IsServed, IsServedAs};
ghost use Rattle.kp_broker.specs.Taking.{TakesFrame, TakesFrames, TakesPiece};
ghost use Rattle.kp_broker.specs.declared.serving.streams.TheConstants.{PIECE_LIMIT};

mod connection;
mod replying;
mod streams;

pub use self::connection::{Connection, Plain};
pub use self::replying::Reply;
use self::streams::{empty_piece, read_piece, send};
use crate::broker::Broker;
use crate::fault::BrokerFault;
use crate::plan::FaultPlan;
use kp_frames::Splitter;

/// The most reads on one connection.
const READ_LIMIT: u32 = 1_000_000;

/// How a connection ended that did not break.
#[derive(Clone, Copy, Debug, PartialEq, Eq)]
pub enum Served {
    /// The input ended. Where it ended within a frame, its bytes are ignored.
    End,
    /// The plan hung up.
    HungUp,
}

impl Broker {
    /// Answers the requests that come on a connection to the first node, and writes the answers, each by itself. Of a
    /// connection that breaks, the requests that came before stay answered.
    pub fn serve<C: Connection>(
        &mut self,
        connection: &mut C,
        plan: &FaultPlan,
    ) -> Result<Served, BrokerFault>
        ensures { IsServed C.answers plan.now self.old connection.old result connection.new self.new }
    {
        self.serve_as(0, connection, plan)
    }

    /// The same on a connection to this node. One that is not there leads no partition.
    pub fn serve_as<C: Connection>(
        &mut self,
        node: u16,
        connection: &mut C,
        plan: &FaultPlan,
    ) -> Result<Served, BrokerFault>
        ensures { IsServedAs C.answers node plan.now self.old connection.old result connection.new self.new }
    {
        let mut splitter = Splitter::new(self.alloc());
        let mut piece = empty_piece(self.alloc())?;
        self.serve_pieces(node, &mut splitter, piece.as_mut_slice(), connection, plan)
    }

    /// Reads the stream from its begin on, a piece at a time, and handles the frames in it.
    fn serve_pieces<C: Connection>(
        &mut self,
        node: u16,
        splitter: &mut Splitter,
        piece: &mut [u8],
        connection: &mut C,
        plan: &FaultPlan,
    ) -> Result<Served, BrokerFault>
        requires begins { splitter.old ≡ [] }
        requires room { length piece.old ≡ PIECE_LIMIT }
        ensures { IsServedAs C.answers node plan.now self.old connection.old result connection.new self.new }
    {
        for _ in 0..READ_LIMIT {
            let len = read_piece(connection, piece)?;
            if len == 0 {
                return Ok(Served::End);
            }
            if let Served::HungUp = self.take_piece(
                node,
                splitter,
                &piece[..len],
                connection,
                plan,
            )? {
                return Ok(Served::HungUp);
            }
        }
        Err(BrokerFault::TooLong)
    }

    /// Takes a piece of the stream, where no frame is at hand, and handles the frames that are whole with it.
    fn take_piece<C: Connection>(
        &mut self,
        node: u16,
        splitter: &mut Splitter,
        piece: &[u8],
        connection: &mut C,
        plan: &FaultPlan,
    ) -> Result<Served, BrokerFault>
        requires { (stream splitter.old).frames ≡ [] }
        ensures { TakesPiece C.answers node plan.now self.old splitter.old piece.now connection.old result splitter.new
            connection.new self.new }
    {
        let fed = splitter.feed(piece);
        if let Served::HungUp = self.take_frames(node, splitter, connection, plan)? {
            return Ok(Served::HungUp);
        }
        fed?;
        Ok(Served::End)
    }

    /// Handles the frames at hand.
    fn take_frames<C: Connection>(
        &mut self,
        node: u16,
        splitter: &mut Splitter,
        connection: &mut C,
        plan: &FaultPlan,
    ) -> Result<Served, BrokerFault>
        ensures { TakesFrames C.answers node plan.now self.old splitter.old connection.old result splitter.new
            connection.new self.new }
    {
        while let Some(content) = splitter.next_frame()? {
            if let Served::HungUp = self.take_frame(node, content.as_slice(), connection, plan)? {
                return Ok(Served::HungUp);
            }
        }
        Ok(Served::End)
    }

    /// Handles a frame's content, and sends what is sent back.
    fn take_frame<C: Connection>(
        &mut self,
        node: u16,
        content: &[u8],
        connection: &mut C,
        plan: &FaultPlan,
    ) -> Result<Served, BrokerFault>
        ensures { TakesFrame C.answers node plan.now self.old content.now connection.old result connection.new self.new }
    {
        match self.handle(node, content, plan)? {
            Reply::Frame(frame) => send(connection, frame.as_slice())?,
            Reply::Nothing => {}
            Reply::HangUp => return Ok(Served::HungUp),
        }
        Ok(Served::End)
    }
}
