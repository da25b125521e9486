//! A connection that tells what each of its calls answered.

ghost use Rattle.std.specs.Prelude.{◌≡◌, ◌<◌, ◌≤◌, ◌++◌, ◌∷◌, [], List, length, IfOk};
ghost use Rattle.kp_broker.specs.Calls.{Answer, read_answer, write_answer, flush_answer};
ghost use Rattle.kp_broker.specs.Plain.{Passes, passes_nothing, passes_in_order};

use std::io::{self, Read, Write};

/// Both directions of a connection, by calls that wait. A read that comes with no bytes has met the end.
pub trait Connection {
    /// Calls that began in the first state answered this, and left the second.
    ghost answers: { Self → List Answer → Self → Type 0 };

    /// One read into the front of `buf`.
    fn take(&mut self, buf: &mut [u8]) -> io::Result<usize>
        requires room { 0 < length buf.old }
        ensures bound { IfOk result (λ n. n ≤ length buf.new) }
        ensures told { answers self.old (read_answer result buf.new ∷ []) self.new };

    /// One write from the front of `buf`.
    fn give(&mut self, buf: &[u8]) -> io::Result<usize>
        ensures bound { IfOk result (λ n. n ≤ length buf.now) }
        ensures told { answers self.old (write_answer result buf.now ∷ []) self.new };

    /// Leaves no byte in a buffer.
    fn flush(&mut self) -> io::Result<()>
        ensures told { answers self.old (flush_answer result ∷ []) self.new };

    ghost answers_nothing: { (s : Self) → answers s [] s };

    ghost answers_in_order: { (a : Self) (xs : List Answer) (b : Self) (ys : List Answer) (c : Self)
        → answers a xs b → answers b ys c → answers a (xs ++ ys) c };
}

/// A reader and a writer of std's. Their bytes are told as far as they tell them; their faults are not, since std's traits
/// have no name for them.
#[derive(Drop)]
pub struct Plain<R, W> {
    pub reader: R,
    pub writer: W,
}

impl<R, W> Plain<R, W> {
    pub fn new(reader: R, writer: W) -> Plain<R, W>
        ensures { (result.reader ≡ reader) × (result.writer ≡ writer) }
    {
        Plain { reader, writer }
    }
}

impl<R: Read, W: Write> Connection for Plain<R, W> {
    ghost answers = { λ a xs b. Passes (R.remaining a.reader) (R.remaining b.reader) (W.contents a.writer) (W.contents b.writer) xs };

    ghost answers_nothing = { λ s. passes_nothing _ _ };

    ghost answers_in_order = { λ a xs b ys c p q. passes_in_order _ _ _ _ _ _ xs ys p q };

    fn take(&mut self, buf: &mut [u8]) -> io::Result<usize> {
        self.reader.read(buf)
    }

    fn give(&mut self, buf: &[u8]) -> io::Result<usize> {
        self.writer.write(buf)
    }

    fn flush(&mut self) -> io::Result<()> {
        self.writer.flush()
    }
}
