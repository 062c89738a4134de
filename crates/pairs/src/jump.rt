// Passing over a zone together with everything inside it, as the links of the ancestors tell where
// that ends. The words may be wrong or missing. A zone is passed only up to a node that was seen to
// lie inside it, and all between lie inside it too, as the ancestors ascend.
ghost use Rattle.std.specs.Prelude.{◌≡◌, ◌+◌, ◌*◌, ◌/◌, ◌%◌, ◌<◌, length, IfSome};
ghost use Rattle.answers.specs.Answer.{TAKEN};
ghost use Rattle.nodes.specs.Words.{NODE_WORDS};
ghost use Rattle.lists.specs.Check.{check_words};
ghost use Rattle.forest.specs.Links.{LINK_WORDS};
ghost use Rattle.pairs.specs.Private.Sweep.{Placed, Jumped};

use crate::ancestors::{is_running, past_run};
use crate::groups::node_from;
use forest::link::{LINK_WORDS, NONE};
use nodes::node::NODE_WORDS;

// Returns the word of the ancestor that `links` name after the one at the index `zone` and
// everything inside it, if they name one. It is the next sibling, or that of the nearest zone
// around it that has one.
fn named_after(links: &[u32], zone: usize) -> Option<usize>
    requires { LINK_WORDS * zone + 2 < length links.now }
    ensures { IfSome result (λ word. word % NODE_WORDS ≡ 0) }
{
    let mut i = zone;
    // Rests on arithmetic alone: `i` falls, so its links lie in `links` too.
    while links[LINK_WORDS * i + 2] == NONE {
        let parent = links[LINK_WORDS * i] as usize;
        if i <= parent {
            return None;
        }
        i = parent;
    }
    Some(NODE_WORDS * links[LINK_WORDS * i + 2] as usize)
}

// Returns a word after the zone at the word `i`, which has zones inside it; all nodes between lie
// inside it. The last zone of a document has none named after it. There the zones inside it are
// passed by strides.
fn past_family(ancestors: &[u32], links: &[u32], i: usize) -> usize
    requires { ((check_words ancestors.now).answer ≡ TAKEN) × Placed ancestors.now i × (i < length ancestors.now)
        × (LINK_WORDS * (i / NODE_WORDS) + 2 < length links.now) }
    ensures { Jumped ancestors.now i result }
{
    let zone = node_from(ancestors, i);
    let next = i + NODE_WORDS;
    let Some(named) = named_after(links, i / NODE_WORDS) else {
        return past_run(ancestors, next, zone);
    };
    if named <= next {
        return next;
    }
    if is_running(ancestors, named - NODE_WORDS, zone) {
        return named;
    }
    next
}

// Returns the word of an ancestor after the one at the word `i`; all between lie inside that one.
// With `JUMPS` it is the first that doesn't, if `links` are the links of the ancestors. Without, it
// is the next.
pub(crate) fn past_zone<const JUMPS: bool>(ancestors: &[u32], links: &[u32], i: usize) -> usize
    requires { ((check_words ancestors.now).answer ≡ TAKEN) × Placed ancestors.now i × (i < length ancestors.now) }
    ensures { Jumped ancestors.now i result }
{
    if !JUMPS {
        return i + NODE_WORDS;
    }
    let at = LINK_WORDS * (i / NODE_WORDS);
    if links.len() <= at + 2 {
        return i + NODE_WORDS;
    }
    if links[at + 1] == NONE {
        return i + NODE_WORDS;
    }
    past_family(ancestors, links, i)
}
