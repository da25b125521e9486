//! Laws of every use of a driven producer: with any streams, and whatever its turns come to.

ghost use Rattle.std.specs.Prelude.{◌≡◌, ℕ, List};
ghost use Rattle.kp_accum.specs.declared.config.Config.{Config};
ghost use Rattle.kp_cluster.specs.Cluster.{Cluster};
ghost use Rattle.kp_drive.specs.Links.{link_at};
ghost use Rattle.kp_drive.specs.Using.{Uses};
ghost use Rattle.kp_drive.specs.declared.link.Link.{Link};
ghost use Rattle.kp_drive.specs.declared.link.Link.TheVariants.{Open};
ghost use Rattle.kp_drive.specs.declared.pipe.Pipe.{Pipe};
ghost use Rattle.kp_drive_laws.specs.Carrying.{CarriesOn};
ghost use Rattle.kp_embed.specs.Producer.{Producer, new_producer};
ghost use Rattle.kp_embed_laws.specs.Running.{Runs};
ghost use Rattle.kp_rules.specs.Calls.{Call};
ghost use Rattle.kp_rules.specs.declared.names.Names.{Names};

use kp_connection::Stream;

/// Any use of it is calls on the producer, of which the laws of `kp_embed_laws` speak.
pub fn any_use_is_calls<K, S: Stream>()
    ensures { (config : Config) (names : Names) (cluster : Cluster) (p : Producer) (links : List (Link K S)) → Uses S.answers (new_producer config names cluster) p links
        → (calls : List Call) × Runs config names calls p }
{}

/// Over each open connection that was not given up, since it was made: the bytes that were written, behind them those that are
/// unwritten, and behind them those that wait to be taken, are the frames of all that was asked over it, in order; the frames that
/// were heard, and behind them the bytes that are held, are all that came, however cut.
pub fn open_connections_carry_frames<K, S: Stream>()
    ensures { (first p : Producer) (links : List (Link K S)) → Uses S.answers first p links → (node : ℕ) (b : Pipe S) → link_at node links ≡ Open b
        → CarriesOn S.answers node p b }
{}
