//! What a turn has moved.

ghost use Rattle.std.specs.Prelude.{◌≡◌, false, slice_index_or};

use crate::turned::Turned;

/// The most senders that there are.
const MOST_SENDERS: usize = 64;

/// What a turn has moved, told without a list of its calls. What was refused or came to nothing is no move: an append or a
/// reply that was refused, a request that there was none of, a tick.
#[derive(Debug, Drop)]
pub struct Moves {
    moment: u64,
    any: bool,
    /// At each sender's place, whether something was taken from its lane or handed to it.
    served: [bool; MOST_SENDERS],
    requests: u64,
    replies: u64,
    unreported_replies: u64,
    bytes_given: u64,
    bytes_heard: u64,
}

impl Moves {
    /// The moment of the turn, in milliseconds of the engine's clock; 0 where there was none.
    pub fn now(&self) -> u64
        ensures { result ≡ self.now.moment }
    {
        self.moment
    }

    /// Whether anything was moved.
    pub fn any(&self) -> bool
        ensures { result ≡ self.now.any }
    {
        self.any
    }

    /// How many requests went out, to the stream or to wait for it.
    pub fn requests(&self) -> u64
        ensures { result ≡ self.now.requests }
    {
        self.requests
    }

    /// How many replies to requests in flight were heard.
    pub fn replies(&self) -> u64
        ensures { result ≡ self.now.replies }
    {
        self.replies
    }

    /// How many of these replies told of no record, so that a partition's leader may have moved.
    pub fn unreported_replies(&self) -> u64
        ensures { result ≡ self.now.unreported_replies }
    {
        self.unreported_replies
    }

    /// How many bytes the requests had that went out.
    pub fn bytes_given(&self) -> u64
        ensures { result ≡ self.now.bytes_given }
    {
        self.bytes_given
    }

    /// How many bytes the replies had that were heard, known or not, beside their sizes.
    pub fn bytes_heard(&self) -> u64
        ensures { result ≡ self.now.bytes_heard }
    {
        self.bytes_heard
    }

    /// Whether something was taken from the sender's lane, or handed to the sender.
    pub fn serves(&self, sender: usize) -> bool
        ensures { result ≡ slice_index_or self.now.served sender false }
    {
        self.served.get(sender).copied().unwrap_or(false)
    }

    /// Nothing.
    pub(crate) fn none() -> Moves {
        Moves {
            moment: 0,
            any: false,
            served: [false; MOST_SENDERS],
            requests: 0,
            replies: 0,
            unreported_replies: 0,
            bytes_given: 0,
            bytes_heard: 0,
        }
    }

    /// This call was made. A request that goes out has a call of its own.
    pub(crate) fn note(&mut self, call: &Turned) {
        match call {
            Turned::Tick(_, now, _) => self.moment = *now,
            Turned::Append(_, None) | Turned::Flush | Turned::Close | Turned::Told(_) => {
                self.note_move();
            }
            Turned::Reply(_, content, Ok(replied)) => {
                self.note_move();
                self.replies = self.replies.saturating_add(u64::from(replied.known));
                let is_unreported = replied.known && replied.reports == 0;
                self.unreported_replies = self
                    .unreported_replies
                    .saturating_add(u64::from(is_unreported));
                self.bytes_heard = self.bytes_heard.saturating_add(content.len() as u64);
            }
            Turned::Append(_, Some(_))
            | Turned::Request(_, _, _)
            | Turned::Reply(_, _, Err(_))
            | Turned::Disconnect(_, _) => {}
        }
    }

    /// A request of so many bytes goes out.
    pub(crate) fn note_request(&mut self, bytes: usize) {
        self.note_move();
        self.requests = self.requests.saturating_add(1);
        self.bytes_given = self.bytes_given.saturating_add(bytes as u64);
    }

    /// Something was moved.
    pub(crate) fn note_move(&mut self) {
        self.any = true;
    }

    /// Something was taken from the sender's lane, or handed to the sender.
    pub(crate) fn serve(&mut self, sender: u32) {
        self.note_move();
        if let Some(served) = self.served.get_mut(sender as usize) {
            *served = true;
        }
    }
}
