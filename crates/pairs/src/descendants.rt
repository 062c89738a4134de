// The listing in descendant order: each descendant in turn with the ancestors that are open at it.
// The sweep is compiled twice, with jumps and without. What would not become part of both by itself
// is marked.
ghost use Rattle.std.specs.Prelude.{◌≡◌, reverse, ◌/◌, ◌%◌, ◌≤◌, ◌<◌, length};
ghost use Rattle.answers.specs.Answer.{TAKEN};
ghost use Rattle.nodes.specs.Words.{NODE_WORDS, count, node_at};
ghost use Rattle.lists.specs.Two.{check_two};
ghost use Rattle.lists.specs.Private.Walk.{Chain, Upon};
ghost use Rattle.tickets.specs.Private.Group.{matches};
ghost use Rattle.tickets.specs.Ticket.{asked};
ghost use Rattle.pairs.specs.Private.Stack.{opened, Fits};
ghost use Rattle.pairs.specs.Private.Sweep.{Placed, stretch, from_start, Started, served_group, served_all};

use crate::groups::{Handed, NOTHING, first_from, hand_group, node_from};
use crate::open::{STACK_WORDS, open_before, still_open};
use nodes::node::{NODE_WORDS, Node, is_one_deeper};
use tickets::ticket::{Order, Place, Relation};

// Returns the word of `stack` from which on the ancestors have the relation with `descendant`,
// which lies inside all of them. It can lie directly inside only the innermost, as the levels rise
// towards it.
fn first_match(relation: Relation, stack: &[u32], used: usize, descendant: Node) -> usize
    requires { Placed stack.now used × Chain (opened used stack.now) × Upon descendant (opened used stack.now) }
    ensures { record {
      aligned : result % NODE_WORDS ≡ 0;
      within : result ≤ used;
      matches : reverse (matches (asked relation Order.Descendant) descendant (opened used stack.now)) ≡ stretch stack.now result used;
    } }
{
    match relation {
        Relation::Inside => 0,
        Relation::Directly => {
            if used == 0 {
                return 0;
            }
            if is_one_deeper(descendant, node_from(stack, used - NODE_WORDS)) {
                return used - NODE_WORDS;
            }
            used
        }
    }
}

// Hands out the pairs of the descendant at the word `at` with those ancestors on `stack` that start
// at `past` or later. All ancestors on `stack` contain it.
#[inline(always)]
fn hand_descendant(
    out: &mut [u32],
    written: usize,
    relation: Relation,
    past: u64,
    descendants: &[u32],
    at: usize,
    stack: &[u32; STACK_WORDS],
    used: usize,
) -> Handed
    requires { Placed descendants.now at × (at < length descendants.now) × Fits used
        × Chain (opened used stack.now) × Upon (node_at descendants.now (at / NODE_WORDS)) (opened used stack.now) }
    ensures { (out.new, result.count, result.done)
        ≡ served_group Order.Descendant out.old written (node_at descendants.now (at / NODE_WORDS))
        (from_start past (reverse (matches (asked relation Order.Descendant) (node_at descendants.now (at / NODE_WORDS))
        (opened used stack.now)))) }
{
    let from = first_match(relation, stack, used, node_from(descendants, at));
    let ahead = first_from(stack, from, used, past);
    hand_group(
        out,
        written,
        Order::Descendant,
        descendants,
        at,
        stack,
        ahead,
        used,
    )
}

// Hands out the listing in descendant order, from the descendant at the index `first` on. Of that
// descendant's group only the pairs with ancestors that start at `past` or later are handed out.
// Each descendant finds on the stack the ancestors that started before it and have not ended. First
// those that ended are taken off; then those that started in between and are still open are put on.
// With `JUMPS` each that ended in between is passed together with everything inside it. It is a
// function of its own, so that its stack isn't taken up while the lists are checked.
#[inline(never)]
pub(crate) fn sweep_descendants<const JUMPS: bool>(
    ancestors: &[u32],
    descendants: &[u32],
    links: &[u32],
    relation: Relation,
    first: usize,
    past: u64,
    out: &mut [u32],
) -> Handed
    requires { ((check_two ancestors.now descendants.now).answer ≡ TAKEN) × (first ≤ count descendants.now) }
    ensures { (place : Place) → Started place descendants.now first past
        → (out.new, result.count, result.done) ≡ served_all (asked relation Order.Descendant) place
        out.old ancestors.now descendants.now }
{
    let mut stack = [0u32; STACK_WORDS];
    let mut used = 0;
    let mut passed = 0;
    let mut handed = NOTHING;
    let mut least = past;
    // By hand: a `for` costs three instructions a descendant, and no listing may get dearer.
    let mut j = NODE_WORDS * first;
    // Rests on Descending: descend_on, descend_stop, ready_next.
    'samples: while j < descendants.len() {
        let descendant = node_from(descendants, j);
        let left = still_open(&stack, used, descendant);
        let opened = open_before::<JUMPS>(&mut stack, left, passed, ancestors, links, descendant);
        used = opened.used;
        passed = opened.passed;
        handed = hand_descendant(
            out,
            handed.count,
            relation,
            least,
            descendants,
            j,
            &stack,
            used,
        );
        if !handed.done {
            return handed;
        }
        least = 0;
        j += NODE_WORDS;
    }
    handed
}
