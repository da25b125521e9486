//! Whose turn it is, of a node's partitions.

ghost use Rattle.std.specs.Prelude.{◌≡◌, ◌==◌, find, None, OnErr, OnOk};
ghost use Rattle.std.specs.List.{last_or};
ghost use Rattle.std.specs.Option.{option_copied};
ghost use Rattle.kp_rules.specs.Next.{used_up_to};
ghost use Rattle.kp_rules.specs.Requesting.{turned};

use std::alloc::AllocError;
use std::marker::Model;

/// Where the turn of a node's partitions begins.
#[derive(Debug, Drop)]
pub(crate) struct Turn {
    node: u32,
    /// The partition whose batch was the last to go out to the node.
    last_used: u32,
}

impl Model for Turn {
    ghost use Rattle.kp_rules.specs.Records as seen;

    ghost Value = { seen.Turn };

    ghost view = { λ t. record {
      node = t.node;
      last_used = t.last_used;
    } };
}

impl Turn {
    fn is_of(&self, node: u32) -> bool
        ensures { result ≡ (self.now.node == node) }
    {
        self.node == node
    }
}

/// How many partitions stand up to the last one used for this node.
pub(crate) fn used_up_to(turns: &[Turn], node: u32) -> usize
    ensures { result ≡ used_up_to node turns.now }
{
    match turn_of(turns, node) {
        None => 0,
        Some(turn) => turn.last_used as usize + 1,
    }
}

/// Where the turn of this node's partitions begins.
fn turn_of(turns: &[Turn], node: u32) -> Option<&Turn>
    ensures { option_copied result ≡ find (λ x. x.node == node) turns.now }
{
    turns.iter().find(|turn| turn.is_of(node))
}

/// The batches of these partitions go out to this node, the last one last. Where memory is refused nothing has changed.
pub(crate) fn turn_to(turns: &mut Vec<Turn>, node: u32, chosen: &[u32]) -> Result<(), AllocError>
    ensures ok { OnOk result (turns.new.items ≡ turned node chosen.now turns.old.items) }
    ensures err { OnErr result (turns.new.items ≡ turns.old.items) }
{
    match last_chosen(chosen) {
        None => Ok(()),
        Some(last_used) => {
            turns.reserve(1)?;
            turns.retain(|turn| !turn.is_of(node));
            turns.push_reserved(Turn { node, last_used });
            Ok(())
        }
    }
}

/// The last of these partitions.
fn last_chosen(chosen: &[u32]) -> Option<u32>
    ensures { result ≡ last_or None chosen.now }
{
    match chosen {
        [] => None,
        [.., last] => Some(*last),
    }
}
