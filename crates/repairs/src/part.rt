// The part of a list that starts at its faulty node.
ghost use Rattle.std.specs.Prelude.{◌≡◌, ◌*◌, drop};
ghost use Rattle.nodes.specs.Words.{NODE_WORDS};
ghost use Rattle.answers.specs.Refusal.{verdict_of};
ghost use Rattle.repairs.specs.Part.{showsb, faulty_part, place_from, faulty_place};

use answers::refusal::{Fault, Refusal};
use answers::verdict::DESCENDANTS;
use lists::two::check_two;
use nodes::node::{NODE_WORDS, node_count};

// Returns whether `fault` is one of a node, whose index it carries.
fn is_at_node(fault: Fault) -> bool
    ensures { result ≡ showsb (verdict_of fault) }
{
    matches!(
        fault.refusal,
        Refusal::Level | Refusal::Span | Refusal::Order | Refusal::Cross | Refusal::Depth
    )
}

// Returns the part of a list from the node at `index` on, or an empty one where the list ends
// before. By hand: the library doesn't say where the part lies that `get` returns.
fn part_from(words: &[u32], index: u32) -> &[u32]
    ensures { record {
      contents : result.now ≡ drop (NODE_WORDS * index) words.now;
      place : result.ref_ptr ≡ place_from words.entry.ref_ptr words.now index;
    } }
{
    if node_count(words) < index as usize {
        return &words[..0];
    }
    &words[NODE_WORDS * index as usize..]
}

// Returns the part from the faulty node to the end of its list, as a part of the very list that was
// lent. Where no node is at fault, that is the empty part at the beginning of `ancestors`.
pub fn faulty_part<'a>(ancestors: &'a [u32], descendants: &'a [u32]) -> &'a [u32]
    ensures { record {
      contents : result.now ≡ faulty_part ancestors.now descendants.now;
      place : result.ref_ptr ≡ faulty_place ancestors.entry.ref_ptr descendants.entry.ref_ptr ancestors.now descendants.now;
    } }
{
    match check_two(ancestors, descendants) {
        Err(fault) if is_at_node(fault) => {
            if fault.list == DESCENDANTS {
                part_from(descendants, fault.index)
            } else {
                part_from(ancestors, fault.index)
            }
        }
        _ => &ancestors[..0],
    }
}
