// The listing in ancestor order: each ancestor in turn with the run of descendants that start in
// it. The sweep is compiled twice, with jumps and without. What would not become part of both by
// itself is marked.
ghost use Rattle.std.specs.Prelude.{◌≡◌, true, false, ℕ, ◌+◌, ◌-◌, ◌*◌, ◌/◌, ◌%◌, ◌≤◌, ◌<◌, length, drop};
ghost use Rattle.answers.specs.Answer.{TAKEN};
ghost use Rattle.laws.specs.Choose.{first_at};
ghost use Rattle.nodes.specs.Node.{afterb, insideb};
ghost use Rattle.nodes.specs.Words.{NODE_WORDS, nodes, count, node_at};
ghost use Rattle.lists.specs.Two.{check_two};
ghost use Rattle.pairs.specs.Private.Sweep.{Placed, Running, Further, runningb, run_end, RunFrom, matches_from, from_start, Started, served_group, served_all};
ghost use Rattle.tickets.specs.Ticket.{asked};

use crate::groups::{Handed, NOTHING, first_from, hand_group, node_from};
use crate::jump::past_zone;
use nodes::node::{NODE_WORDS, Node, is_after, is_open};
use tickets::ticket::{Order, Place, Relation};

// The number of words by which the search for the end of a run moves on: eight descendants.
const STRIDE: usize = 8 * NODE_WORDS;

// What was handed out of an ancestor's run, and a guess of where the next run ends.
#[derive(Clone, Copy)]
struct Turn {
    handed: Handed,
    guess: usize,
}

// The words of the zone and of the descendant to look at next.
#[derive(Clone, Copy)]
struct Passed {
    pub zone: usize,
    pub next: usize,
}

// Returns the word of the first descendant, from the word `from` on, that stands after `ancestor`,
// or the end of the list.
fn first_after(descendants: &[u32], from: usize, ancestor: Node) -> usize
    requires { Placed descendants.now from }
    ensures { record {
      aligned : result % NODE_WORDS ≡ 0;
      index : result / NODE_WORDS ≡ first_at (λ d. afterb d ancestor) (drop (from / NODE_WORDS) (nodes descendants.now)) + from / NODE_WORDS;
    } }
{
    // By hand: `step_by` costs two instructions a zone, and no listing may get dearer.
    let mut k = from;
    // Rests on tickets: Search: search_found, search_on, search_end.
    while k < descendants.len() {
        if is_after(node_from(descendants, k), ancestor) {
            return k;
        }
        k += NODE_WORDS;
    }
    k
}

// Returns whether there is a descendant at the word `k` and `ancestor` is open at it.
pub(crate) fn is_running(descendants: &[u32], k: usize, ancestor: Node) -> bool
    requires { (length descendants.now % NODE_WORDS ≡ 0) × (k % NODE_WORDS ≡ 0) }
    ensures { result ≡ runningb descendants.now ancestor (k / NODE_WORDS) }
{
    k < descendants.len() && is_open(node_from(descendants, k), ancestor)
}

// Returns a word up to which `ancestor` stays open: `guess`, the node before it, or `from` where
// neither is confirmed. The descendants ascend, so an ancestor that is open at one is open at all
// between.
fn past_guess(descendants: &[u32], from: usize, ancestor: Node, guess: usize) -> usize
    requires { (from % NODE_WORDS ≡ 0) × (guess % NODE_WORDS ≡ 0) × Running descendants.now ancestor (from / NODE_WORDS) }
    ensures { Further descendants.now ancestor from result }
{
    if guess <= from + NODE_WORDS {
        return from;
    }
    if is_running(descendants, guess - NODE_WORDS, ancestor) {
        return guess;
    }
    if is_running(descendants, guess - 2 * NODE_WORDS, ancestor) {
        return guess - NODE_WORDS;
    }
    from
}

// Returns a word up to which `ancestor` stays open from the word `from` on, found `STEP` words at a
// time. It isn't open at the last descendant of the next step.
fn past_steps<const STEP: usize>(descendants: &[u32], from: usize, ancestor: Node) -> usize
    requires { (0 < STEP) × (STEP ≤ 8 * NODE_WORDS) × (STEP % NODE_WORDS ≡ 0) × (from % NODE_WORDS ≡ 0)
        × Running descendants.now ancestor (from / NODE_WORDS) }
    ensures { record {
      further : Further descendants.now ancestor from result;
      stops : runningb descendants.now ancestor ((result + STEP - NODE_WORDS) / NODE_WORDS) ≡ false;
    } }
{
    let mut k = from;
    // By hand: the search ends where the ancestor does, and no count says before where that is.
    // Rests on Running: further_next, further_trans.
    while is_running(descendants, k + STEP - NODE_WORDS, ancestor) {
        k += STEP;
    }
    k
}

// Returns the end of the run of `ancestor`, looking from the word `from` on at eight descendants at
// a time and then at each.
pub(crate) fn past_run(descendants: &[u32], from: usize, ancestor: Node) -> usize
    requires { (from % NODE_WORDS ≡ 0) × Running descendants.now ancestor (from / NODE_WORDS) }
    ensures { record {
      aligned : result % NODE_WORDS ≡ 0;
      index : result / NODE_WORDS ≡ run_end descendants.now ancestor (from / NODE_WORDS);
    } }
{
    let far = past_steps::<STRIDE>(descendants, from, ancestor);
    past_steps::<NODE_WORDS>(descendants, far, ancestor)
}

// Returns the end of the run that begins at the word `from`: the word of the first descendant at
// which `ancestor` isn't open. The second descendant is tested first, then `guess`, the end of the
// run before: nested zones end their runs together.
#[inline(always)]
fn run_end(descendants: &[u32], from: usize, ancestor: Node, guess: usize) -> usize
    requires { (from % NODE_WORDS ≡ 0) × (guess % NODE_WORDS ≡ 0) × Running descendants.now ancestor (from / NODE_WORDS)
        × (runningb descendants.now ancestor (from / NODE_WORDS) ≡ true) }
    ensures { record {
      aligned : result % NODE_WORDS ≡ 0;
      index : result / NODE_WORDS ≡ run_end descendants.now ancestor (from / NODE_WORDS);
    } }
{
    let second = from + NODE_WORDS;
    if !is_running(descendants, second, ancestor) {
        return second;
    }
    let near = past_guess(descendants, second + NODE_WORDS, ancestor, guess);
    if !is_running(descendants, near, ancestor) {
        return near;
    }
    past_run(descendants, near + NODE_WORDS, ancestor)
}

// Returns a word up to which `zone` holds the descendants from the word `from` on. The end of the
// outer run, `to`, is tried first, then strides.
fn past_held(descendants: &[u32], from: usize, zone: Node, to: usize) -> usize
    requires { (from % NODE_WORDS ≡ 0) × (to % NODE_WORDS ≡ 0) × Running descendants.now zone (from / NODE_WORDS) }
    ensures { Further descendants.now zone from result }
{
    let near = past_guess(descendants, from, zone, to);
    past_steps::<STRIDE>(descendants, near, zone)
}

// Returns what to look at after the descendant at the word `k`, which is no child of the ancestor.
// If more than eight descendants are left, and the zone holds this one and the next, what it holds
// is passed, as it lies deeper still. A zone that starts before the descendant gives way to the one
// after it.
#[inline(always)]
fn past_inner(ancestors: &[u32], zone: usize, descendants: &[u32], k: usize, to: usize) -> Passed
    requires { ((check_two ancestors.now descendants.now).answer ≡ TAKEN) × Placed ancestors.now zone
        × Placed descendants.now k × (k < length descendants.now) × Placed descendants.now to }
    ensures { record {
      zone_placed : Placed ancestors.now result.zone;
      zone_later : zone ≤ result.zone;
      next_placed : Placed descendants.now result.next;
      next_later : k < result.next;
      held : (j : ℕ) → k / NODE_WORDS < j → j < result.next / NODE_WORDS → (zone / NODE_WORDS < count ancestors.now)
          × (insideb (node_at descendants.now j) (node_at ancestors.now (zone / NODE_WORDS)) ≡ true);
    } }
{
    let next = k + NODE_WORDS;
    if to <= k + STRIDE || ancestors.len() <= zone {
        return Passed { zone, next };
    }
    let inner = node_from(ancestors, zone);
    if !is_after(node_from(descendants, k), inner) {
        return Passed { zone, next };
    }
    if !is_running(descendants, next, inner) {
        return Passed {
            zone: zone + NODE_WORDS,
            next,
        };
    }
    Passed {
        zone: zone + NODE_WORDS,
        next: past_held(descendants, next + NODE_WORDS, inner, to),
    }
}

// Hands out the pairs of the ancestor at the word `i` with its children, those of its run that are
// one level deeper. All of the run lies inside the ancestor, so only levels are compared.
#[inline(always)]
fn hand_children(
    out: &mut [u32],
    written: usize,
    ancestors: &[u32],
    i: usize,
    descendants: &[u32],
    from: usize,
    to: usize,
) -> Handed
    requires { RunFrom ancestors.now i descendants.now from to }
    ensures { (out.new, result.count, result.done)
        ≡ served_group Order.Ancestor out.old written (node_at ancestors.now (i / NODE_WORDS))
        (matches_from Relation.Directly ancestors.now i descendants.now from) }
{
    let mut handed = Handed {
        count: written,
        done: true,
    };
    let level = node_from(ancestors, i).level + 1;
    let mut zone = i + NODE_WORDS;
    let mut k = from;
    // By hand: what an inner zone holds is passed in one step.
    // Rests on Children: child_on, child_stop, inner_passed.
    while k < to {
        if node_from(descendants, k).level == level {
            handed = hand_group(
                out,
                handed.count,
                Order::Ancestor,
                ancestors,
                i,
                descendants,
                k,
                k + NODE_WORDS,
            );
            if !handed.done {
                return handed;
            }
            k += NODE_WORDS;
        } else {
            let passed = past_inner(ancestors, zone, descendants, k, to);
            zone = passed.zone;
            k = passed.next;
        }
    }
    handed
}

// Hands out the pairs of the ancestor at the word `i` with its run from the word `from` to its end,
// `to`.
#[inline(always)]
fn hand_run(
    out: &mut [u32],
    written: usize,
    relation: Relation,
    ancestors: &[u32],
    i: usize,
    descendants: &[u32],
    from: usize,
    to: usize,
) -> Handed
    requires { RunFrom ancestors.now i descendants.now from to }
    ensures { (out.new, result.count, result.done)
        ≡ served_group Order.Ancestor out.old written (node_at ancestors.now (i / NODE_WORDS))
        (matches_from relation ancestors.now i descendants.now from) }
{
    match relation {
        Relation::Inside => hand_group(
            out,
            written,
            Order::Ancestor,
            ancestors,
            i,
            descendants,
            from,
            to,
        ),
        Relation::Directly => hand_children(out, written, ancestors, i, descendants, from, to),
    }
}

// Hands out the pairs of the ancestor at the word `i` with those of its run that start at `past` or
// later. The run begins at the word `from`.
#[inline(always)]
fn hand_ancestor(
    out: &mut [u32],
    written: usize,
    relation: Relation,
    past: u64,
    ancestors: &[u32],
    i: usize,
    descendants: &[u32],
    from: usize,
    guess: usize,
) -> Turn
    requires { ((check_two ancestors.now descendants.now).answer ≡ TAKEN) × Placed ancestors.now i × (i < length ancestors.now)
        × Placed descendants.now from × (guess % NODE_WORDS ≡ 0)
        × Running descendants.now (node_at ancestors.now (i / NODE_WORDS)) (from / NODE_WORDS)
        × (runningb descendants.now (node_at ancestors.now (i / NODE_WORDS)) (from / NODE_WORDS) ≡ true) }
    ensures { record {
      guess : result.guess % NODE_WORDS ≡ 0;
      handed : (out.new, result.handed.count, result.handed.done)
          ≡ served_group Order.Ancestor out.old written (node_at ancestors.now (i / NODE_WORDS))
          (from_start past (matches_from relation ancestors.now i descendants.now from));
    } }
{
    let end = run_end(descendants, from, node_from(ancestors, i), guess);
    let ahead = first_from(descendants, from, end, past);
    let handed = hand_run(
        out,
        written,
        relation,
        ancestors,
        i,
        descendants,
        ahead,
        end,
    );
    Turn { handed, guess: end }
}

// Hands out the listing in ancestor order, from the ancestor at the index `first` on. Of that
// ancestor's group only the pairs with descendants that start at `past` or later are handed out.
// The word at which the next ancestor's run begins only moves on, as the ancestors ascend. An
// ancestor without a run is passed, with `JUMPS` together with everything inside it. Where no
// descendant is left, neither is a pair. It is a function of its own, so that its frame isn't laid
// down while the lists are checked.
// By hand: what lies inside a zone is passed in one step.
#[inline(never)]
pub(crate) fn sweep_ancestors<const JUMPS: bool>(
    ancestors: &[u32],
    descendants: &[u32],
    links: &[u32],
    relation: Relation,
    first: usize,
    past: u64,
    out: &mut [u32],
) -> Handed
    requires { ((check_two ancestors.now descendants.now).answer ≡ TAKEN) × (first ≤ count ancestors.now) }
    ensures { (place : Place) → Started place ancestors.now first past
        → (out.new, result.count, result.done) ≡ served_all (asked relation Order.Ancestor) place
        out.old ancestors.now descendants.now }
{
    let mut least = past;
    let mut handed = NOTHING;
    let mut from = 0;
    let mut guess = 0;
    let mut i = NODE_WORDS * first;
    // Rests on Jumps: jump_rest, none_left.
    // Rests on Zones: sweep_on, sweep_next, sweep_stop.
    while i < ancestors.len() {
        let ancestor = node_from(ancestors, i);
        from = first_after(descendants, from, ancestor);
        if descendants.len() <= from {
            return handed;
        }
        if is_running(descendants, from, ancestor) {
            let turn = hand_ancestor(
                out,
                handed.count,
                relation,
                least,
                ancestors,
                i,
                descendants,
                from,
                guess,
            );
            handed = turn.handed;
            if !handed.done {
                return handed;
            }
            guess = turn.guess;
            i += NODE_WORDS;
        } else {
            i = past_zone::<JUMPS>(ancestors, links, i);
        }
        least = 0;
    }
    handed
}
