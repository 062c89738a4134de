// A node of a document, how it is read out of a list of words, and how two nodes lie to one
// another.
ghost use Rattle.std.specs.Prelude.{◌≡◌};
ghost use Rattle.nodes.specs.Node.{endsb, insideb, deeperb, afterb, openb, sameb};
ghost use Rattle.nodes.specs.Words.{node_at, put_node, count};

// How many words a node takes in a list.
pub const NODE_WORDS: usize = 4;

// The greatest level; so at most this many nodes lie one inside the other.
pub const MOST_LEVELS: usize = 64;

// The most nodes, rows or marks that one list may have.
pub const MOST_NODES: usize = 4096;

// An element or a text of a document: where it starts and ends there, and how deep it stands.
#[derive(Clone, Copy, Default, PartialEq, Eq)]
pub struct Node {
    pub document: u32,
    pub start: u32,
    pub end: u32,
    pub level: u32,
}

// Returns whether `y` ends within `x`, as a node inside `x` does.
pub fn ends_within(y: Node, x: Node) -> bool
    ensures { result ≡ endsb y x }
{
    y.end <= x.end
}

// Returns whether `y` is inside `x`: of its document, starting after `x` starts and ending no later
// than `x` ends.
pub fn is_inside(y: Node, x: Node) -> bool
    ensures { result ≡ insideb y x }
{
    y.document == x.document && x.start < y.start && ends_within(y, x)
}

// Returns whether `y` stands one level below `x`, as a node directly inside `x` does.
pub fn is_one_deeper(y: Node, x: Node) -> bool
    ensures { result ≡ deeperb y x }
{
    y.level as u64 == x.level as u64 + 1
}

// Returns whether `y` stands after `x`: in a later document, or later in the same one.
// By hand: `<` of two tuples costs five instructions a pair more in a listing, and misses a bar.
#[tactic(auto, unfolding(crate::specs::Node::afterb))]
pub fn is_after(y: Node, x: Node) -> bool
    ensures { result ≡ afterb y x }
{
    if x.document < y.document {
        return true;
    }
    if y.document != x.document {
        return false;
    }
    x.start < y.start
}

// Returns whether `e` is open at `n`: it is of the document of `n` and doesn't end before `n`
// starts.
pub fn is_open(n: Node, e: Node) -> bool
    ensures { result ≡ openb n e }
{
    e.document == n.document && n.start <= e.end
}

// Returns whether `x` and `y` are identical in all four words.
pub fn is_same(x: Node, y: Node) -> bool
    ensures { result ≡ sameb x y }
{
    x == y
}

// Returns the number of whole nodes in `words`.
pub fn node_count(words: &[u32]) -> usize
    ensures { result ≡ count words.now }
{
    words.len() / NODE_WORDS
}

// Returns the node at `index` of the list, or a node of zeros where the list has none there.
pub fn node_at(words: &[u32], index: usize) -> Node
    ensures { result ≡ node_at words.now index }
{
    if node_count(words) <= index {
        return Node::default();
    }
    let at = NODE_WORDS * index;
    Node {
        document: words[at],
        start: words[at + 1],
        end: words[at + 2],
        level: words[at + 3],
    }
}

// Writes `node` at `index` of the list; where the list has no node there, no word changes.
pub fn put_node(words: &mut [u32], index: usize, node: Node)
    ensures { words.new ≡ put_node words.old index node }
{
    if node_count(words) <= index {
        return;
    }
    let at = NODE_WORDS * index;
    // By hand: copy_from_slice takes 22 instructions here, and these four stores 13.
    words[at] = node.document;
    words[at + 1] = node.start;
    words[at + 2] = node.end;
    words[at + 3] = node.level;
}
