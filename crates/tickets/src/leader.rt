// How the groups of a listing lie to a ticket's place. A group is a leader, which is the node that
// the order sorts by first, with each of its followers.
ghost use Rattle.std.specs.Prelude.{◌≡◌};
ghost use Rattle.nodes.specs.Words.{nodes};
ghost use Rattle.tickets.specs.Leaders.{past_from, servedb, served_in};

use crate::ticket::Place;
use nodes::node::{NODE_WORDS, Node, node_at, node_count};

// The number of words that a pair takes in an output: the ancestor's and then the descendant's.
pub const PAIR_WORDS: usize = 2 * NODE_WORDS;

// Returns the least start of a follower whose pair with `leader` lies past `place`. It is one more
// than the place's follower if `leader` is the place's own; otherwise it is 0, which is every
// follower. It is 0 for an earlier leader too, though none of its pairs lies past the place:
// `is_served` tells those apart.
pub fn past_from(place: Place, leader: Node) -> u64
    ensures { result ≡ past_from place leader }
{
    match place {
        Place::After(key) if key.document == leader.document && key.leader == leader.start => {
            u64::from(key.follower) + 1
        }
        _ => 0,
    }
}

// Returns whether `leader` stands before the leader of `place`; then none of its pairs lies past
// `place`.
pub fn is_served(place: Place, leader: Node) -> bool
    ensures { result ≡ servedb place leader }
{
    match place {
        Place::Fresh => false,
        Place::After(key) => (leader.document, leader.start) < (key.document, key.leader),
    }
}

// Returns the index of the first of `leaders` that doesn't stand before the leader of `place`, or
// the number of leaders.
pub fn served_count(place: Place, leaders: &[u32]) -> usize
    ensures { result ≡ served_in place (nodes leaders.now) }
{
    let count = node_count(leaders);
    // Rests on Search: search_found, search_on, search_end.
    for k in 0..count {
        if !is_served(place, node_at(leaders, k)) {
            return k;
        }
    }
    count
}
