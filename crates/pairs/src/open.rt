// The ancestors that are open where a sweep along the descendants stands. They lie on a stack, the
// innermost on top. Each lies inside the one below it and has a higher level, so there are never
// more of them than levels.
ghost use Rattle.std.specs.Prelude.{◌≡◌, true, false, cond, ◌∷◌, ◌/◌, ◌≤◌, length, drop};
ghost use Rattle.answers.specs.Answer.{TAKEN};
ghost use Rattle.laws.specs.Choose.{All};
ghost use Rattle.nodes.specs.Node.{afterb, openb, MOST_LEVELS};
ghost use Rattle.nodes.specs.Words.{NODE_WORDS, nodes};
ghost use Rattle.lists.specs.Check.{check_words};
ghost use Rattle.lists.specs.Private.Walk.{unended, Chain};
ghost use Rattle.pairs.specs.Private.Stack.{opened, Fits};
ghost use Rattle.pairs.specs.Private.Sweep.{Opening};

use crate::groups::{node_from, put_words};
use crate::jump::past_zone;
use nodes::node::{MOST_LEVELS, NODE_WORDS, Node, is_after, is_open};

// The number of words in the stack: one node for each level.
pub(crate) const STACK_WORDS: usize = NODE_WORDS * MOST_LEVELS;

// How far a sweep has come along the ancestors: the number of words of the stack in use, and the
// word of the next ancestor.
#[derive(Clone, Copy)]
pub(crate) struct Opened {
    pub used: usize,
    pub passed: usize,
}

// Returns the number of words of `stack` that are left once the ancestors on top that ended before
// `node` are taken off. What lies under an open one contains it and is open too, so the first open
// one ends the search.
pub(crate) fn still_open(stack: &[u32; STACK_WORDS], used: usize, node: Node) -> usize
    requires { Fits used }
    ensures { record {
      fits : Fits result;
      fewer : result ≤ used;
      left : opened result stack.now ≡ unended node (opened used stack.now);
    } }
{
    let mut left = used;
    // By hand: `left` is the answer too, so a range that counts down reads no better.
    // Rests on StackNodes: head_open, head_shut, head_none.
    while 0 < left {
        if is_open(node, node_from(stack, left - NODE_WORDS)) {
            return left;
        }
        left -= NODE_WORDS;
    }
    left
}

// Puts `ancestor` onto `stack` if it is open at `descendant`, and returns the number of words in
// use. All that lie there are open at `descendant` too, so `ancestor`, which starts after them,
// lies inside the innermost.
pub(crate) fn open_next(
    stack: &mut [u32; STACK_WORDS],
    used: usize,
    ancestor: Node,
    descendant: Node,
) -> usize
    requires { Fits used × (ancestor.level ≤ MOST_LEVELS)
        × (openb descendant ancestor ≡ true → Chain (ancestor ∷ opened used stack.old)) }
    ensures { record {
      fits : Fits result;
      long : length stack.new ≡ length stack.old;
      stack : opened result stack.new ≡ cond (openb descendant ancestor) (ancestor ∷ opened used stack.old) (opened used stack.old);
    } }
{
    if !is_open(descendant, ancestor) {
        return used;
    }
    put_words(stack, used, ancestor);
    used + NODE_WORDS
}

// Puts the ancestors that stand before `descendant` and are open at it onto `stack`, one after the
// other. One that has ended is passed, with `JUMPS` together with everything inside it.
pub(crate) fn open_before<const JUMPS: bool>(
    stack: &mut [u32; STACK_WORDS],
    used: usize,
    passed: usize,
    ancestors: &[u32],
    links: &[u32],
    descendant: Node,
) -> Opened
    requires { ((check_words ancestors.now).answer ≡ TAKEN) × Opening ancestors.now descendant used passed stack.old
        × All (λ e. openb descendant e ≡ true) (opened used stack.old) }
    ensures { record {
      opening : Opening ancestors.now descendant result.used result.passed stack.new;
      all_open : All (λ e. openb descendant e ≡ true) (opened result.used stack.new);
      rest : All (λ a. afterb descendant a ≡ false) (drop (result.passed / NODE_WORDS) (nodes ancestors.now));
    } }
{
    let mut reached = used;
    let mut i = passed;
    // By hand: what lies inside a zone is passed in one step.
    // Rests on Jumps: jump_passed.
    // Rests on OpenStack: next_passed, passing_ends, passing_done.
    while i < ancestors.len() {
        if !is_after(descendant, node_from(ancestors, i)) {
            return Opened {
                used: reached,
                passed: i,
            };
        }
        let grown = open_next(stack, reached, node_from(ancestors, i), descendant);
        if grown == reached {
            i = past_zone::<JUMPS>(ancestors, links, i);
        } else {
            i += NODE_WORDS;
        }
        reached = grown;
    }
    Opened {
        used: reached,
        passed: i,
    }
}
