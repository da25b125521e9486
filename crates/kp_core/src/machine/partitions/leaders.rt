//! The numbers of the partitions that have something to do, by the nodes that lead them.

ghost use Rattle.std.specs.Prelude.{◌≡◌, ◌<◌, ◌==◌, not, filter, List, vec_capacity, vec_len};
ghost use Rattle.std.specs.List.{AllByRecursion, list_all};
ghost use Rattle.kp_rules.specs.Partitions.{leads, partition_at};
ghost use Rattle.kp_core.specs.ByLeader.{Led, Rises, by_leader, is_before, led_at, places_in, put, work_in};

use kp_parts::Partition;

/// Those that this node leads, of all that have something to do, upwards.
pub(super) fn led_by<'a>(places: &'a [u32], partitions: &[Partition], node: u32) -> &'a [u32]
    requires { places.now ≡ by_leader partitions.now }
    ensures { result.now ≡ work_in node partitions.now }
{
    if leads_all(places, partitions, node) {
        return places;
    }
    let below = places.partition_point(|place| leader_of(partitions, *place) < node);
    let (_, others) = places.split_at(below);
    let count = others.partition_point(|place| leader_of(partitions, *place) <= node);
    let (its, _) = others.split_at(count);
    its
}

/// Whether this node leads all of them. They stand by their leaders, so it does where it leads the first and the last.
fn leads_all(places: &[u32], partitions: &[Partition], node: u32) -> bool
    requires { places.now ≡ by_leader partitions.now }
    ensures { result ≡ list_all (λ p. leads node (partition_at p partitions.now)) places.now }
{
    let (Some(first), Some(last)) = (places.first(), places.last()) else {
        return true;
    };
    leader_of(partitions, *first) == node && leader_of(partitions, *last) == node
}

/// The number of this partition joins those, at its leader's.
pub(super) fn put_led(places: &mut Vec<u32>, partitions: &[Partition], place: u32)
    requires { vec_len places.old < vec_capacity places.old }
    ensures items { (leds : List Led) → Rises leds → AllByRecursion (λ l. (partition_at l.place partitions.now).leader ≡ l.leader) leds
        → places.old.items ≡ places_in leds → places.new.items ≡ places_in (put (led_at place (partition_at place partitions.now)) leds) }
    ensures capacity { vec_capacity places.new ≡ vec_capacity places.old }
{
    if places
        .last()
        .is_none_or(|last| stands_before(partitions, *last, place))
    {
        places.push_reserved(place);
        return;
    }
    let at = places.partition_point(|other| stands_before(partitions, *other, place));
    // There is room, so it is never refused.
    let _inserted = places.insert(at, place);
}

/// The number of this partition leaves those.
pub(super) fn remove_led(places: &mut Vec<u32>, place: u32)
    ensures items { places.new.items ≡ filter (λ p. not (p == place)) places.old.items }
    ensures capacity { vec_capacity places.new ≡ vec_capacity places.old }
{
    places.retain(|other| *other != place);
}

/// Whether the one partition stands before the other, by their leaders.
fn stands_before(partitions: &[Partition], place: u32, other: u32) -> bool
    ensures { result ≡ is_before (led_at place (partition_at place partitions.now)) (led_at other (partition_at other partitions.now)) }
{
    let its = leader_of(partitions, place);
    let others = leader_of(partitions, other);
    its < others || (its == others && place < other)
}

/// The node that leads this partition; 0 where there is none.
#[inline]
fn leader_of(partitions: &[Partition], place: u32) -> u32
    ensures { result ≡ (partition_at place partitions.now).leader }
{
    match partitions.get(place as usize) {
        None => 0,
        Some(partition) => partition.leader(),
    }
}
