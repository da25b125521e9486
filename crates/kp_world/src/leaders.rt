//! Leaders that move, and what goes to which node: runs, with what they print.

ghost use Rattle.kp_world.specs.Leaders.{Prints, late_at_one, lost_at_one, moved_in_part, stored_and_moved, windows_apart};

/// What was stored at the old leader, and whose answer was lost, is sent to the new one and told its offset; a late answer
/// is heard for the partitions that have not moved; each node has a window of its own; and a lost connection, or a request
/// that takes too long, is of one node.
pub fn leaders_move()
    ensures repeated { Prints stored_and_moved }
    ensures in_part { Prints moved_in_part }
    ensures windows { Prints windows_apart }
    ensures lost { Prints lost_at_one }
    ensures late { Prints late_at_one }
{}
