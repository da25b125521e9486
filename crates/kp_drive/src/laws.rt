//! Laws of the definitions that this crate's contracts cite.

ghost use Rattle.std.specs.Prelude.{◌≡◌, ℕ, List};
ghost use Rattle.kp_connection.specs.Answers.{Answer};
ghost use Rattle.kp_drive.specs.Connection.{Carries, HasCarried, Since};
ghost use Rattle.kp_drive.specs.Links.{link_at};
ghost use Rattle.kp_drive.specs.Turning.{Turns};
ghost use Rattle.kp_drive.specs.Using.{Uses};
ghost use Rattle.kp_drive.specs.declared.link.Link.{Link};
ghost use Rattle.kp_drive.specs.declared.link.Link.TheVariants.{Open};
ghost use Rattle.kp_drive.specs.declared.pipe.Pipe.{Pipe};
ghost use Rattle.kp_embed.specs.Going.{Acts};
ghost use Rattle.kp_embed.specs.Producer.{Producer};
ghost use Rattle.kp_rules.specs.Calls.{Call};

use kp_connection::Stream;

/// A turn is a list of calls on the producer, so the laws of any calls on it hold of any turns.
pub fn a_turn_is_calls<K, S: Stream>()
    ensures { (now : ℕ) (p q : Producer) (ls ms : List (Link K S)) → Turns S.answers now p ls q ms → (calls : List Call) × Acts p calls q }
{}

/// Over a connection, since it was made, what was written, and behind it what is unwritten, is all that was taken for it.
pub fn a_connection_carries_what_was_taken<S: Stream>()
    ensures { (node : ℕ) (first : S) (xs : List Answer) (taken : List ℕ) (q : Producer) (b : Pipe S) → Since S.answers node first xs taken q b
        → Carries S.answers first xs taken b }
{}

/// Whatever use is made of a driven producer, so does each connection that is open then.
pub fn open_connections_carry_what_was_taken<K, S: Stream>()
    ensures { (first p : Producer) (links : List (Link K S)) → Uses S.answers first p links → (node : ℕ) (b : Pipe S) → link_at node links ≡ Open b
        → HasCarried S.answers node p b }
{}
