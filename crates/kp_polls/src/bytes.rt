//! What goes over a stream, from when it is given to the engine on: packets that went out, and replies that are heard.

ghost use Rattle.std.specs.Prelude.{◌++◌, List};
ghost use Rattle.kp_connection.specs.Answers.{Answer};
ghost use Rattle.kp_connection.specs.Wire.{Wired};
ghost use Rattle.kp_engine.specs.declared.engine.Line.{Line};
ghost use Rattle.kp_engine.specs.declared.engine.Line.TheVariants.{Open};
ghost use Rattle.kp_engine.specs.declared.exchange.Exchange.{Exchange};
ghost use Rattle.kp_polls.specs.Bytes.{GoesOnOver, GoesOver, OverStream};
ghost use Rattle.kp_polls.specs.Polling.{Polling};
ghost use Rattle.kp_rules.specs.Calls.{Call};
ghost use Rattle.kp_world.specs.World.{Opening};

use kp_connection::Stream;

/// Polls over one stream go on from those before it was given.
pub fn polls_over_a_stream_are_polls<S: Stream>()
    ensures { (o : Opening) (calls : List Call) (x : Exchange) (given : S) (more mine : List Call) (xs : List Answer) (y : Exchange) (line : Line S)
        → Polling S.answers o calls x → OverStream S.answers given x more mine xs y line → Polling S.answers o (calls ++ more) y }
{}

/// Each whole frame that was written on a stream since it was given is that of a packet that went out since then, in their
/// order and from the first on (one that is cut is none); and each content that was heard is a frame of the bytes that
/// came, in their order and from the first on.
pub fn frames_are_of_packets_and_of_replies<S: Stream>()
    ensures { (o : Opening) (calls : List Call) (x : Exchange) (given : S) (more mine : List Call) (xs : List Answer) (y : Exchange) (line : Line S)
        → Polling S.answers o calls x → OverStream S.answers given x more mine xs y line → GoesOver S.answers given o.config o.names x.core more mine xs y.core }
{}

/// While the stream is there, to the byte: the bytes that were written on it since it was given, and behind them those that
/// the wire keeps, are the frames of all packets that went out since then, in their order; and the frames of the contents that
/// were heard, and behind them the bytes that the wire holds, are all bytes that came.
pub fn all_bytes_are_of_packets_and_of_replies<S: Stream>()
    ensures { (o : Opening) (calls : List Call) (x : Exchange) (given : S) (more mine : List Call) (xs : List Answer) (y : Exchange) (wire : Wired S)
        → Polling S.answers o calls x → OverStream S.answers given x more mine xs y (Open wire)
        → GoesOnOver S.answers given o.config o.names x.core more mine xs y.core wire }
{}
