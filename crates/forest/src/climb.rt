// Finds a node's elder without a stack. What contains a node also contains the node before it, or
// is that node. So the way up from there, along the parents already written, meets every node that
// contains it, the innermost first. All nodes on the way are of one document, which is tested once,
// at the node before. After that a node on the way contains the given one unless it ended before
// it.
ghost use Rattle.std.specs.Prelude.{◌≡◌, ◌/◌, ◌≤◌, ◌<◌, length};
ghost use Rattle.answers.specs.Answer.{TAKEN};
ghost use Rattle.nodes.specs.Words.{nodes, node_at, count};
ghost use Rattle.lists.specs.Check.{check_words};
ghost use Rattle.forest.specs.Private.Climb.{Linking, Ended, Elder, firstb};
ghost use Rattle.forest.specs.Links.{LINK_WORDS};

use crate::link::parent_at;
use nodes::node::{NODE_WORDS, node_at};

// Returns whether the node at `index`, which isn't the list's first one, is the first one of its
// document in an accepted list.
pub(crate) fn is_first(list: &[u32], index: usize) -> bool
    requires { 0 < index }
    ensures { result ≡ firstb (nodes list.now) index }
{
    node_at(list, index - 1).document != node_at(list, index).document
}

// Returns the end of the node at `index`.
fn end_at(list: &[u32], index: usize) -> u32
    requires { index < count list.now }
    ensures { result ≡ (node_at list.now index).end }
{
    list[NODE_WORDS * index + 2]
}

// Returns the index of the elder of the node at `index`: the last node before it, in its document,
// that has the same parent. The node before has ended, and the links of all nodes before are
// written.
pub(crate) fn elder_of(list: &[u32], links: &[u32], index: usize) -> usize
    requires { ((check_words list.now).answer ≡ TAKEN) × (index < count list.now) × (index ≤ length links.now / LINK_WORDS)
        × Linking (nodes list.now) index links.now × Ended (nodes list.now) index }
    ensures { Elder (nodes list.now) index result }
{
    let start = node_at(list, index).start;
    let mut elder = index - 1;
    // Rests on Climbing: pass_parent, elder_passed.
    while let Some(parent) = parent_at(links, elder) {
        if start <= end_at(list, parent as usize) {
            return elder;
        }
        elder = parent as usize;
    }
    elder
}
