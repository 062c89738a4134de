// The walk along a list, a node at a time. Of an open node only the end and the level are kept. The
// place keeps once the document of them all, and the least start that the next node may have in it.
ghost use Rattle.std.specs.Prelude.{◌≡◌, ℕ, List, ◌∷◌, ◌+◌, ◌*◌, ◌≤◌, ◌<◌, Ok, Err, length};
ghost use Rattle.nodes.specs.declared.node.Node.{Node};
ghost use Rattle.nodes.specs.Node.{MOST_LEVELS};
ghost use Rattle.nodes.specs.Words.{MOST_NODES};
ghost use Rattle.answers.specs.Refusal.{fault, verdict_in};
ghost use Rattle.answers.specs.Verdict.{ANCESTORS};
ghost use Rattle.lists.specs.Check.{check_nodes};
ghost use Rattle.lists.specs.Private.Open.{OPEN_WORDS, Laid, Holds, Held};
ghost use Rattle.lists.specs.Private.Stepping.{first_place, place_after, SteppedPast, SteppedOnto, HandsOut};
ghost use Rattle.lists.specs.Private.Walk.{node_from};

use crate::stack::{OPEN_WORDS, STACK_WORDS, left_open, put_bottom, put_open};
use answers::refusal::{Fault, Refusal};
use answers::verdict::ANCESTORS;
use nodes::node::{MOST_LEVELS, Node};

// Where a walk stands: how many nodes it has passed, the word of the last one on the stack, and
// what the next one has to meet. That one is of `document` and starts at `from` or later, or it is
// of a later document.
#[derive(Clone, Copy)]
pub(crate) struct ListPlace {
    index: usize,
    top: usize,
    document: u32,
    from: u64,
}

// Returns the place before the first node of a list, at which any node may come next.
fn first_place() -> ListPlace
    ensures { result ≡ first_place }
{
    ListPlace {
        index: 0,
        top: 0,
        document: 0,
        from: 0,
    }
}

// Refuses the node at `index`.
fn refused(refusal: Refusal, index: usize) -> Result<ListPlace, Fault>
    requires { index < MOST_NODES }
    ensures { result ≡ Err (fault refusal ANCESTORS index) }
{
    Err(Fault {
        refusal: refusal,
        list: ANCESTORS,
        index: index as u32,
    })
}

// Returns the node whose four words start at word `at`. Unlike `node_at`, it tests no index.
// By hand: shared, it would be public, and no public function asks where an index lies.
pub(crate) fn node_from(words: &[u32], at: usize) -> Node
    requires { at + 3 < length words.now }
    ensures { result ≡ node_from words.now at }
{
    Node {
        document: words[at],
        start: words[at + 1],
        end: words[at + 2],
        level: words[at + 3],
    }
}

// Puts `node` on top of what lies at word `left`, an open node or the bottom, and returns the place
// after `node`.
fn push(
    stack: &mut [u32; STACK_WORDS],
    index: usize,
    left: usize,
    node: Node,
) -> Result<ListPlace, Fault>
    requires { (index < MOST_NODES) × (left + OPEN_WORDS ≤ OPEN_WORDS * MOST_LEVELS) }
    ensures { record {
      answer : result ≡ Ok (place_after node (index + 1) (left + OPEN_WORDS));
      stack : (s : List Node) → Laid s left stack.old → Laid (node ∷ s) (left + OPEN_WORDS) stack.new;
    } }
{
    put_open(stack, left + OPEN_WORDS, node.end, node.level);
    Ok(ListPlace {
        index: index + 1,
        top: left + OPEN_WORDS,
        document: node.document,
        from: node.start as u64 + 1,
    })
}

// Puts `node` on top of what lies at word `left`, or refuses it. An open node there has to contain
// `node` and to have a lower level. It is of the same document and starts before `node`, so only
// its end decides. All that lie under it contain it, so no other is tested. The bottom refuses
// nothing.
fn put_on_top(
    stack: &mut [u32; STACK_WORDS],
    index: usize,
    left: usize,
    node: Node,
) -> Result<ListPlace, Fault>
    requires { (index < MOST_NODES) × (1 ≤ node.level) × (node.level ≤ MOST_LEVELS) × (node.start ≤ node.end)
        × Held node.document node.start left stack.old }
    ensures { (s : List Node) → Holds node.document node.start left stack.old s
        → SteppedOnto s node index result stack.new }
{
    if stack[left] < node.end {
        return refused(Refusal::Cross, index);
    }
    if node.level <= stack[left + 1] {
        return refused(Refusal::Depth, index);
    }
    push(stack, index, left, node)
}

// Passes `node`: puts it on top of the stack and returns the place after it, or returns why it is
// refused.
fn pass_node(
    stack: &mut [u32; STACK_WORDS],
    place: ListPlace,
    node: Node,
) -> Result<ListPlace, Fault>
    requires { (place.index < MOST_NODES) × Held place.document place.from place.top stack.old }
    ensures { (s : List Node) → Holds place.document place.from place.top stack.old s
        → SteppedPast place s node result stack.new }
{
    let index = place.index;
    if node.level == 0 {
        return refused(Refusal::Level, index);
    }
    if MOST_LEVELS < node.level as usize {
        return refused(Refusal::Level, index);
    }
    if node.end < node.start {
        return refused(Refusal::Span, index);
    }
    if node.document != place.document {
        if node.document < place.document {
            return refused(Refusal::Order, index);
        }
        return push(stack, index, 0, node);
    }
    if (node.start as u64) < place.from {
        return refused(Refusal::Order, index);
    }
    let left = left_open(stack, place.top, node.start);
    put_on_top(stack, index, left, node)
}

// Walks along `count` nodes, and `node` hands out the one at each index. Returns the place at their
// end, or the first refusal. Open nodes lie on `stack`, whatever lay there before. The function is
// inlined, or else a node in bytes would cost one test more.
#[inline(always)]
pub(crate) fn pass_nodes<F: Fn(usize) -> Node>(
    stack: &mut [u32; STACK_WORDS],
    count: usize,
    node: F,
) -> Result<ListPlace, Fault>
    requires { (count ≤ MOST_NODES) × ((i : ℕ) → i < count → F.pre node i) }
    ensures { (ns : List Node) → length ns ≡ count → HandsOut (F.post node) ns → verdict_in result ≡ check_nodes ns }
{
    put_bottom(stack);
    let mut place = first_place();
    // Rests on Walking: held_on, walk_on, walk_stop, walk_end.
    for index in 0..count {
        // `let .. else` and not `?`: docs/SCOPE.md names that form for the steps of a check.
        let step = pass_node(stack, place, node(index));
        let Ok(reached) = step else {
            return step;
        };
        place = reached;
    }
    Ok(place)
}
