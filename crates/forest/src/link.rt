// The links of a node, and how they lie in words.
ghost use Rattle.std.specs.Prelude.{◌≡◌, ◌*◌, ◌+◌, ◌/◌, ◌<◌, length, get_or, set};
ghost use Rattle.std.proofs.lemmas.List.Edits.{sets};
ghost use Rattle.forest.specs.Links.{LINK_WORDS, link_words};
ghost use Rattle.forest.specs.Private.Climb.{index_in};

// How many words a node's links take.
pub const LINK_WORDS: usize = 3;

// Which of these words are the first child and the next sibling.
pub(crate) const CHILD: usize = 1;

pub(crate) const NEXT: usize = 2;

// The word that says there is no such node.
pub const NONE: u32 = u32::MAX;

// The links of a node, each the index of another node of the list or NONE. The parent is the
// innermost node that contains it, the child the first node whose parent it is. The next is the
// next node in its document that has the same parent.
// By hand: the links stay words, as C reads them, and so NONE stands for no index.
#[derive(Clone, Copy)]
pub struct Link {
    pub parent: u32,
    pub child: u32,
    pub next: u32,
}

// Returns the parent of the node at `index`, if it has one.
pub(crate) fn parent_at(links: &[u32], index: usize) -> Option<u32>
    requires { index < length links.now / LINK_WORDS }
    ensures { result ≡ index_in (get_or links.now (LINK_WORDS * index) 0) }
{
    match links[LINK_WORDS * index] {
        NONE => None,
        parent => Some(parent),
    }
}

// Writes the links of the node at `index`.
pub(crate) fn put_link(links: &mut [u32], index: usize, link: Link)
    requires { index < length links.old / LINK_WORDS }
    ensures { links.new ≡ sets links.old (LINK_WORDS * index) (link_words link) }
{
    let at = LINK_WORDS * index;
    links[at] = link.parent;
    links[at + 1] = link.child;
    links[at + 2] = link.next;
}

// Writes the index `kin` as one link of the node at `index`: CHILD or NEXT.
pub(crate) fn put_kin<const LINK: usize>(links: &mut [u32], index: usize, kin: u32)
    requires { (index < length links.old / LINK_WORDS) × (LINK < LINK_WORDS) }
    ensures { links.new ≡ set links.old (LINK_WORDS * index + LINK) kin }
{
    links[LINK_WORDS * index + LINK] = kin;
}
