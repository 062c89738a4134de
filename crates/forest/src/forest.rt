// The links of one list.
ghost use Rattle.std.specs.Prelude.{◌≡◌, ◌+◌, ◌*◌, ◌/◌, ◌≤◌, ◌<◌, length};
ghost use Rattle.std.proofs.lemmas.List.Edits.{sets};
ghost use Rattle.answers.specs.Answer.{TAKEN};
ghost use Rattle.nodes.specs.Words.{nodes, count};
ghost use Rattle.answers.specs.Output.{written};
ghost use Rattle.answers.specs.Refusal.{counted_in};
ghost use Rattle.lists.specs.Check.{check_words};
ghost use Rattle.forest.specs.Private.Climb.{Linking, link, links_to, word_of};
ghost use Rattle.forest.specs.Linked.{links_in, linked_of, links_output};
ghost use Rattle.forest.specs.Links.{NONE, LINK_WORDS, link_words};

use crate::climb::{elder_of, is_first};
use crate::link::{CHILD, LINK_WORDS, Link, NEXT, NONE, parent_at, put_kin, put_link};
use answers::refusal::{Fault, Refusal};
use lists::list::check_list;
use nodes::node::{node_at, node_count};

// Writes the links of the node at `index`, which has the parent `parent`, if any, and neither child
// nor next sibling yet.
fn put_leaf(out: &mut [u32], index: usize, parent: Option<u32>)
    requires { index < length out.old / LINK_WORDS }
    ensures { out.new ≡ sets out.old (LINK_WORDS * index) (link_words (link (word_of parent) NONE NONE)) }
{
    put_link(
        out,
        index,
        Link {
            parent: parent.unwrap_or(NONE),
            child: NONE,
            next: NONE,
        },
    );
}

// Links the node at `index`, which isn't the list's first one. The first node of a document has no
// parent and no elder (the elder is the last sibling before a node). Any other is the first child
// of the node before, if that hasn't ended, or else the next sibling of its elder.
fn link_node(list: &[u32], out: &mut [u32], index: usize)
    requires { ((check_words list.now).answer ≡ TAKEN) × (index < count list.now) × (count list.now ≤ length out.old / LINK_WORDS)
        × Linking (nodes list.now) index out.old × (0 < index) }
    ensures { out.new ≡ written (links_to (nodes list.now) (index + 1)) out.old }
{
    if is_first(list, index) {
        put_leaf(out, index, None);
        return;
    }
    let before = index - 1;
    if node_at(list, index).start <= node_at(list, before).end {
        put_leaf(out, index, Some(before as u32));
        put_kin::<CHILD>(out, before, index as u32);
        return;
    }
    let elder = elder_of(list, out, index);
    let parent = parent_at(out, elder);
    put_leaf(out, index, parent);
    put_kin::<NEXT>(out, elder, index as u32);
}

// Writes the links of an accepted list's nodes one after the other. A node's parent and elder come
// before it, so each turn leaves the links as far as the nodes passed tell them. The list's first
// node has neither. It is linked before the loop, so that no turn tests for it.
fn link_all(list: &[u32], out: &mut [u32])
    requires { ((check_words list.now).answer ≡ TAKEN) × (count list.now ≤ length out.old / LINK_WORDS) }
    ensures { out.new ≡ written (links_in list.now) out.old }
{
    let linked = node_count(list);
    if linked == 0 {
        return;
    }
    put_leaf(out, 0, None);
    // Rests on LinkLaws: links_over, links_more, links_all.
    for index in 1..linked {
        link_node(list, out, index);
    }
}

// Writes the links of the list's nodes into `out`, three words a node in list order. Returns the
// list's verdict or ROOM, and the number of nodes linked. On refusal `out` stays as it was.
pub fn link_list(list: &[u32], out: &mut [u32]) -> Result<usize, Fault>
    ensures { record {
      answer : counted_in result ≡ linked_of list.now out.old;
      output : out.new ≡ links_output list.now out.old;
    } }
{
    check_list(list)?;
    let linked = node_count(list);
    if out.len() / LINK_WORDS < linked {
        return Err(Refusal::Room.into());
    }
    link_all(list, out);
    Ok(linked)
}
