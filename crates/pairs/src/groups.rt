// The groups of a listing: a leader, which is the node that the order sorts by first, with each of
// its followers. Nodes are found by the word at which they start.
ghost use Rattle.std.specs.Prelude.{◌≡◌, true, ◌⊎◌, ◌+◌, ◌/◌, ◌%◌, ◌≤◌, ◌<◌, length};
ghost use Rattle.std.proofs.lemmas.List.Edits.{sets};
ghost use Rattle.laws.specs.Choose.{first_at};
ghost use Rattle.nodes.specs.Words.{NODE_WORDS, nodes, count, node_at, words_of};
ghost use Rattle.paging.specs.Private.Serve.{store};
ghost use Rattle.tickets.specs.Listing.{pair_of};
ghost use Rattle.tickets.specs.PairWords.{PAIR_WORDS, pair_words, room};
ghost use Rattle.pairs.specs.Private.Sweep.{Placed, stretch, starts_from, served_group};

use nodes::node::{NODE_WORDS, Node, node_at, node_count};
use tickets::leader::PAIR_WORDS;
use tickets::ticket::Order;

// How far a listing was handed out: the pairs written so far, and whether all that were to be
// written found room.
// By hand: a Result costs up to three instructions a leader, and no listing may get dearer.
#[derive(Clone, Copy)]
pub(crate) struct Handed {
    pub count: usize,
    pub done: bool,
}

// What is handed out before the first leader.
pub(crate) const NOTHING: Handed = Handed {
    count: 0,
    done: true,
};

// Returns the node that starts at the word `at`.
// By hand: shared, it would be public, and no public function asks where an index lies.
pub(crate) fn node_from(words: &[u32], at: usize) -> Node
    requires { Placed words.now at × (at < length words.now) }
    ensures { result ≡ node_at words.now (at / NODE_WORDS) }
{
    Node {
        document: words[at],
        start: words[at + 1],
        end: words[at + 2],
        level: words[at + 3],
    }
}

// Writes the four words of `node` from the word `at` on.
// By hand: shared, it would be public, and no public function asks where an index lies.
pub(crate) fn put_words(words: &mut [u32], at: usize, node: Node)
    requires { at + 3 < length words.old }
    ensures { words.new ≡ sets words.old at (words_of node) }
{
    words[at] = node.document;
    words[at + 1] = node.start;
    words[at + 2] = node.end;
    words[at + 3] = node.level;
}

// Writes the words of `ancestor` and then those of `descendant`, as the pair at `index` of the
// output `out`.
fn put_nodes(out: &mut [u32], index: usize, ancestor: Node, descendant: Node)
    requires { index < room out.old }
    ensures { out.new ≡ store pair_words PAIR_WORDS out.old index (record { ancestor = ancestor; descendant = descendant }) }
{
    let at = PAIR_WORDS * index;
    put_words(out, at, ancestor);
    put_words(out, at + NODE_WORDS, descendant);
}

// Writes the pair of `leader` and `follower` at `index` of the output `out`.
fn put_pair(out: &mut [u32], index: usize, order: Order, leader: Node, follower: Node)
    requires { index < room out.old }
    ensures { out.new ≡ store pair_words PAIR_WORDS out.old index (pair_of order leader follower) }
{
    match order {
        Order::Descendant => put_nodes(out, index, follower, leader),
        Order::Ancestor => put_nodes(out, index, leader, follower),
    }
}

// Writes the pairs of `leader` with all `followers`, after the `written` pairs that `out` holds
// already. There is room for them.
fn put_group(out: &mut [u32], written: usize, order: Order, leader: Node, followers: &[u32])
    requires { written + count followers.now ≤ room out.old }
    ensures { (out.new, written + count followers.now, true)
        ≡ served_group order out.old written leader (nodes followers.now) }
{
    // Rests on Stretches: turned, ended.
    for k in 0..node_count(followers) {
        put_pair(out, written + k, order, leader, node_at(followers, k));
    }
}

// Hands out the pairs of `leader` with the followers from the word `from` to the word `to`, as many
// as fit. These are counted first, so that the loop that copies them asks nothing.
fn hand_stretch(
    out: &mut [u32],
    written: usize,
    order: Order,
    leader: Node,
    followers: &[u32],
    from: usize,
    to: usize,
) -> Handed
    requires { (written ≤ room out.old) × Placed followers.now from × Placed followers.now to × (from ≤ to) }
    ensures { (out.new, result.count, result.done)
        ≡ served_group order out.old written leader (stretch followers.now from to) }
{
    let wanted = (to - from) / NODE_WORDS;
    let fit = wanted.min(out.len() / PAIR_WORDS - written);
    put_group(
        out,
        written,
        order,
        leader,
        &followers[from..from + NODE_WORDS * fit],
    );
    Handed {
        count: written + fit,
        done: fit == wanted,
    }
}

// Hands out the pairs of the leader at the word `at` with the followers from the word `from` to the
// word `to`, as many as fit. Many groups have one pair, so the first is written by itself. For the
// others the leader is read again: a node that is held while another is stored would be copied word
// by word.
#[inline(always)]
pub(crate) fn hand_group(
    out: &mut [u32],
    written: usize,
    order: Order,
    leaders: &[u32],
    at: usize,
    followers: &[u32],
    from: usize,
    to: usize,
) -> Handed
    requires { Placed leaders.now at × (at < length leaders.now) × Placed followers.now from × Placed followers.now to }
    ensures { (out.new, result.count, result.done)
        ≡ served_group order out.old written (node_at leaders.now (at / NODE_WORDS))
        (stretch followers.now from to) }
{
    if to <= from {
        return Handed {
            count: written,
            done: true,
        };
    }
    if out.len() / PAIR_WORDS <= written {
        return Handed {
            count: written,
            done: false,
        };
    }
    put_pair(
        out,
        written,
        order,
        node_from(leaders, at),
        node_from(followers, from),
    );
    if to - from == NODE_WORDS {
        return Handed {
            count: written + 1,
            done: true,
        };
    }
    hand_stretch(
        out,
        written + 1,
        order,
        node_from(leaders, at),
        followers,
        from + NODE_WORDS,
        to,
    )
}

// Returns the word of the first follower, from `from` up to `to`, that starts at `start` or later,
// or `to`.
pub(crate) fn first_from(followers: &[u32], from: usize, to: usize, start: u64) -> usize
    requires { Placed followers.now from × Placed followers.now to × (from ≤ to) }
    ensures { record {
      aligned : result % NODE_WORDS ≡ 0;
      index : result / NODE_WORDS ≡ first_at (starts_from start) (stretch followers.now from to) + from / NODE_WORDS;
    } }
{
    if start == 0 {
        return from;
    }
    // Rests on Stretches: start_found, start_later, start_none.
    for k in (from..to).step_by(NODE_WORDS) {
        if start <= node_from(followers, k).start as u64 {
            return k;
        }
    }
    to
}
