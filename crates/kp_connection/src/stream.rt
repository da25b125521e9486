//! A stream that tells what each of its calls answered.

ghost use Rattle.std.specs.Prelude.{◌≡◌, ℕ, ◌≤◌, ◌++◌, ◌∷◌, [], List, length};
ghost use Rattle.futures.specs.Task.{Covers, Keeps};
ghost use Rattle.futures.specs.Poll.{OnPending};
ghost use Rattle.tokio.specs.Io.Moved.{count_moved};
ghost use Rattle.kp_connection.specs.Answers.{Answer, read_answer, write_answer, came, gone};
ghost use Rattle.kp_connection.specs.Moves.{Moves, moves_in_order};

use futures::task::{Context, Poll};
use std::io;
use tokio::io::{AsyncRead, AsyncWrite};

/// Both directions of a connection. A buffer is lent for one poll; a read that comes with no bytes has met the end.
pub trait Stream: Drop {
    /// Holds of each source that a pending read waits for.
    ghost reader: { Self → ℕ → Type 0 } = { λ _ _. ⊥ };

    /// Holds of each source that a pending write waits for.
    ghost writer: { Self → ℕ → Type 0 } = { λ _ _. ⊥ };

    /// Calls that began in the first state answered this, and left the second.
    ghost answers: { Self → List Answer → Self → Type 0 };

    /// One read into the front of `buf`.
    fn poll_take(&mut self, cx: &mut Context<'_>, buf: &mut [u8]) -> Poll<io::Result<usize>>
        ensures bound { count_moved result ≤ length buf.new }
        ensures told { answers self.old (read_answer result buf.new ∷ []) self.new }
        ensures registered { OnPending result (Covers cx.new (reader self.new)) }
        ensures kept { Keeps cx.old cx.new };

    /// One write from the front of `buf`.
    fn poll_give(&mut self, cx: &mut Context<'_>, buf: &[u8]) -> Poll<io::Result<usize>>
        ensures bound { count_moved result ≤ length buf.now }
        ensures told { answers self.old (write_answer result buf.now ∷ []) self.new }
        ensures registered { OnPending result (Covers cx.new (writer self.new)) }
        ensures kept { Keeps cx.old cx.new };

    ghost answers_nothing: { (s : Self) → answers s [] s };

    ghost answers_in_order: { (a : Self) (xs : List Answer) (b : Self) (ys : List Answer) (c : Self)
        → answers a xs b → answers b ys c → answers a (xs ++ ys) c };
}

/// A reader and writer of tokio's. Its bytes are told as far as it tells them; its faults and waits are not, since
/// tokio's traits have no name for them.
#[derive(Drop)]
pub struct Plain<S> {
    pub inner: S,
}

impl<S: AsyncRead + AsyncWrite> Stream for Plain<S> {
    ghost reader = { λ p. S.AsyncRead.needs p.inner };

    ghost writer = { λ p. S.AsyncWrite.needs p.inner };

    ghost answers = { λ a xs b. Moves S.reads S.writes a.inner (came xs) (gone xs) b.inner };

    ghost answers_nothing = { λ _. Moves.untouched };

    ghost answers_in_order = { λ a xs b ys c p q. moves_in_order _ _ _ _ _ xs ys p q };

    fn poll_take(&mut self, cx: &mut Context<'_>, buf: &mut [u8]) -> Poll<io::Result<usize>> {
        self.inner.poll_read(cx, buf)
    }

    fn poll_give(&mut self, cx: &mut Context<'_>, buf: &[u8]) -> Poll<io::Result<usize>> {
        self.inner.poll_write(cx, buf)
    }
}
