// The step along the contents, from list to list.
ghost use Rattle.std.specs.Prelude.{◌≡◌};
ghost use Rattle.answers.specs.Refusal.{answer_in};
ghost use Rattle.contents.specs.Passing.{start_of, step_of, step_answer};

use crate::entry::{Entry, contents_end};
use answers::refusal::Refusal;
use nodes::node::MOST_NODES;
use numbers::little::NODE_BYTES;

// Where a walk along the contents stands: the tag of the list that it passed last, if any, and
// where the next body has to start.
#[derive(Clone, Copy)]
pub struct ContentsPlace {
    pub tag: Option<u32>,
    pub end: usize,
}

// Returns the place before the first of `lists` lists.
pub fn start_of(lists: u32) -> ContentsPlace
    ensures { result ≡ start_of lists }
{
    ContentsPlace {
        tag: None,
        end: contents_end(lists),
    }
}

// Passes the list of `entry` and returns the place after it, or the refusal Contents. Its body has
// to start where the last one ended. It may not be too long, and its tag has to be above the last
// one's.
pub fn pass_entry(place: ContentsPlace, entry: Entry) -> Result<ContentsPlace, Refusal>
    ensures { result ≡ step_of place entry }
{
    if entry.offset as usize != place.end || MOST_NODES < entry.count as usize {
        return Err(Refusal::Contents);
    }
    if place.tag.is_some_and(|tag| entry.tag <= tag) {
        return Err(Refusal::Contents);
    }
    Ok(ContentsPlace {
        tag: Some(entry.tag),
        end: place.end + NODE_BYTES * entry.count as usize,
    })
}

// Checks the end of a walk along the contents of a book of `size` bytes. `step` is its last step. A
// refusal is returned as it is. At a place the last body has to end with the book, or else the
// refusal is Contents.
pub fn check_end(step: Result<ContentsPlace, Refusal>, size: usize) -> Result<(), Refusal>
    ensures { answer_in result ≡ step_answer step size }
{
    let place = step?;
    if place.end != size {
        return Err(Refusal::Contents);
    }
    Ok(())
}
