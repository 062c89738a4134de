// The stack of open nodes. It keeps the end and the level of each, the innermost on top. Each lies
// inside the one below it and has a higher level, so there are never more of them than levels.
// Under them all lies the bottom, which is open at every node.
ghost use Rattle.std.specs.Prelude.{◌≡◌, ◌+◌, ◌*◌, ◌%◌, ◌≤◌, ◌<◌, List, [], length, get_or, set};
ghost use Rattle.nodes.specs.declared.node.Node.{Node};
ghost use Rattle.laws.specs.Choose.{All};
ghost use Rattle.nodes.specs.Node.{MOST_LEVELS};
ghost use Rattle.lists.specs.Private.Open.{OPEN_WORDS, LAST_END, Laid};
ghost use Rattle.lists.specs.Private.Walk.{unended};

use nodes::node::MOST_LEVELS;

// How many words an open node takes on the stack: its end and its level.
pub(crate) const OPEN_WORDS: usize = 2;

// How many words the stack has: those of the bottom, and those of a node for each level.
pub(crate) const STACK_WORDS: usize = OPEN_WORDS * (MOST_LEVELS + 1);

// The end of the bottom, as late as a node can end.
const LAST_END: u32 = 4294967295;

// Writes an open node's end and level at word `at` of the stack.
pub(crate) fn put_open(stack: &mut [u32], at: usize, end: u32, level: u32)
    requires { at + 1 < length stack.old }
    ensures { stack.new ≡ set (set stack.old at end) (at + 1) level }
{
    stack[at] = end;
    stack[at + 1] = level;
}

// Writes the bottom of the stack, on which nothing lies yet.
pub(crate) fn put_bottom(stack: &mut [u32; STACK_WORDS])
    ensures { Laid [] 0 stack.new }
{
    put_open(stack, 0, LAST_END, 0);
}

// Returns the word of the innermost node that is open at `start`, or 0, the bottom's. The search
// begins with the node at `top`, and all nodes on the stack are of one document. What lies under an
// open node contains it and is open too, so the first open one ends the search.
pub(crate) fn left_open(stack: &[u32; STACK_WORDS], top: usize, start: u32) -> usize
    requires { (top % OPEN_WORDS ≡ 0) × (top ≤ OPEN_WORDS * MOST_LEVELS) × (get_or stack.now 0 0 ≡ LAST_END) }
    ensures { record {
      even : result % OPEN_WORDS ≡ 0;
      under : result ≤ top;
      left : (n : Node) (s : List Node) → n.start ≡ start → All (λ e. e.document ≡ n.document) s
          → Laid s top stack.now → Laid (unended n s) result stack.now;
    } }
{
    let mut left = top;
    // By hand: the bottom ends the search, so no turn has to test for an end.
    // Rests on StackLaws: peeled_on, peeled_end.
    while stack[left] < start {
        left -= OPEN_WORDS;
    }
    left
}
