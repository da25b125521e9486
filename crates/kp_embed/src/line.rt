//! What a connection carries.

ghost use Rattle.std.specs.Prelude.{◌≡◌};
ghost use Rattle.kp_embed.specs.Producer.{fresh_line};
ghost use Rattle.kp_embed.specs.Hearing.{answered, correlation_of};

use crate::bytes::Bytes;
use kp_frames::Splitter;
use kp_hello::{METADATA_CORRELATION, PRODUCER_ID_CORRELATION};
use kp_wire::read_i32;
use std::alloc::Global;

/// What is asked over a connection beside the requests of the core.
#[derive(Clone, Copy, Debug, PartialEq, Eq)]
pub(crate) enum Question {
    Metadata,
    ProducerId,
}

impl Question {
    /// The correlation id of the request, which is none of the core's.
    pub(crate) fn correlation(self) -> i32
        ensures { result ≡ correlation_of self }
    {
        match self {
            Question::Metadata => METADATA_CORRELATION,
            Question::ProducerId => PRODUCER_ID_CORRELATION,
        }
    }
}

/// What a connection carries.
#[derive(Debug, Drop)]
pub(crate) struct Line {
    /// What was asked and is not answered.
    pub(crate) question: Option<Question>,
    /// What is still to be taken of the last frame.
    pub(crate) out: Bytes,
    /// What was fed and not heard.
    pub(crate) held: Splitter,
}

impl Line {
    /// The line of a new connection.
    pub(crate) fn new(alloc: Global) -> Line
        ensures { result ≡ fresh_line }
    {
        Line {
            question: None,
            out: Bytes::new(alloc),
            held: Splitter::new(alloc),
        }
    }

    /// What was asked, where the content is an answer to it by its correlation id.
    pub(crate) fn answered_by(&self, content: &[u8]) -> Option<Question>
        ensures { result ≡ answered self.now.question content.now }
    {
        let question = self.question?;
        match read_i32(content) {
            Ok((correlation, _)) if correlation == question.correlation() => Some(question),
            _ => None,
        }
    }
}
