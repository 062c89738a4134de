// Whether words are the links of a list. Each word is compared once, with what the list tells. A
// parent is compared at its node, a first child at the node after it, and a next sibling where the
// node has ended. What has ended where a node starts is found by the way up from the node before,
// along parents that were compared already, so no stack is needed. The words come from anyone and
// the list need not be accepted, so each index is tested before it is used.
ghost use Rattle.std.specs.Prelude.{◌≡◌, ℕ, suc, ◌-◌, ◌*◌, ◌/◌, ◌<◌, List, length};
ghost use Rattle.answers.specs.Answer.{TAKEN};
ghost use Rattle.nodes.specs.Words.{nodes, count};
ghost use Rattle.lists.specs.Check.{check_words};
ghost use Rattle.forest.specs.Links.{LINK_WORDS};
ghost use Rattle.forest.specs.Private.Climb.{Ended};
ghost use Rattle.linked.specs.Check.{linkedb};
ghost use Rattle.linked.specs.Private.Told.{LastOfDocument, sibling_toldb, ChildTold, Told, AllTold, Shows};

use forest::link::{LINK_WORDS, NONE};
use nodes::node::{MOST_NODES, NODE_WORDS, node_count};

// Returns whether the links say that the node at `index` is the next sibling of the one at `elder`,
// and that both have the same parent.
fn is_sibling_told(links: &[u32], elder: usize, index: usize) -> bool
    requires { (elder < length links.now / LINK_WORDS) × (index < length links.now / LINK_WORDS) }
    ensures { result ≡ sibling_toldb links.now elder index }
{
    links[LINK_WORDS * elder + 2] as usize == index
        && links[LINK_WORDS * index] == links[LINK_WORDS * elder]
}

// Returns whether the links tell the elder of the node at `index`, and no next sibling of the other
// nodes that ended before it. The way up begins at the node before, which has ended. A word that is
// no index of a node before ends the way, as NONE does.
fn is_elder_told(list: &[u32], links: &[u32], index: usize) -> bool
    requires { (0 < index) × (index < count list.now) × (length links.now ≡ LINK_WORDS * count list.now) }
    ensures { (check_words list.now).answer ≡ TAKEN → Ended (nodes list.now) index
        → Told (nodes list.now) links.now (index - 1) → ChildTold (nodes list.now) links.now (index - 1)
        → Shows (nodes list.now) links.now (Told (nodes list.now) links.now index) result }
{
    let start = list[NODE_WORDS * index + 1];
    let mut elder = index - 1;
    let mut parent = links[LINK_WORDS * elder] as usize;
    // Rests on WayUp: way_up, elder_shows.
    while parent < elder {
        if start <= list[NODE_WORDS * parent + 2] {
            return is_sibling_told(links, elder, index);
        }
        if links[LINK_WORDS * elder + 2] != NONE {
            return false;
        }
        elder = parent;
        parent = links[LINK_WORDS * elder] as usize;
    }
    is_sibling_told(links, elder, index)
}

// Returns whether the links say that the node at `index` is the last one of its document. Then it
// has no child, and neither it nor any node around it has a next sibling.
fn is_last_told(links: &[u32], index: usize) -> bool
    requires { index < length links.now / LINK_WORDS }
    ensures { (list : List ℕ) → (check_words list).answer ≡ TAKEN → index < count list → LastOfDocument (nodes list) index
        → Told (nodes list) links.now index
        → Shows (nodes list) links.now (AllTold (nodes list) links.now (suc index)) result }
{
    if links[LINK_WORDS * index + 1] != NONE {
        return false;
    }
    let mut i = index;
    // Rests on WayUp: way_up, way_ends.
    while links[LINK_WORDS * i + 2] == NONE {
        let parent = links[LINK_WORDS * i] as usize;
        if i <= parent {
            return true;
        }
        i = parent;
    }
    false
}

// Returns whether the links tell what the list tells at the node at `index`, which isn't the first
// one. That is its parent, the first child of the node before, and the next siblings of those that
// have ended.
fn is_node_told(list: &[u32], links: &[u32], index: usize) -> bool
    requires { (0 < index) × (index < count list.now) × (length links.now ≡ LINK_WORDS * count list.now) }
    ensures { (check_words list.now).answer ≡ TAKEN → Told (nodes list.now) links.now (index - 1)
        → Shows (nodes list.now) links.now (Told (nodes list.now) links.now index) result }
{
    let before = index - 1;
    if list[NODE_WORDS * before] != list[NODE_WORDS * index] {
        return links[LINK_WORDS * index] == NONE && is_last_told(links, before);
    }
    if list[NODE_WORDS * index + 1] <= list[NODE_WORDS * before + 2] {
        return links[LINK_WORDS * before + 1] as usize == index
            && links[LINK_WORDS * index] as usize == before;
    }
    links[LINK_WORDS * before + 1] == NONE && is_elder_told(list, links, index)
}

// Returns whether `links` are the links of `list`, if that is accepted. Of a list that isn't, the
// answer tells nothing. One that is too long is not even read.
pub(crate) fn are_links(list: &[u32], links: &[u32]) -> bool
    ensures { (check_words list.now).answer ≡ TAKEN → result ≡ linkedb list.now links.now }
{
    let count = node_count(list);
    if MOST_NODES < count || links.len() != LINK_WORDS * count {
        return false;
    }
    if count == 0 {
        return true;
    }
    if links[0] != NONE {
        return false;
    }
    // Rests on InWords: all_linked, not_linked.
    // Rests on Telling: told_first.
    for index in 1..count {
        if !is_node_told(list, links, index) {
            return false;
        }
    }
    is_last_told(links, count - 1)
}
