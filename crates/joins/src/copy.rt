// Copies the lists under two tags of a book as words.
ghost use Rattle.std.specs.Prelude.{◌≡◌};
ghost use Rattle.joins.specs.Join.{lengths_of, first_after, second_after};

use answers::refusal::Refusal;
use books::find::{has_tag, tag_body};
use nodes::node::{MOST_NODES, NODE_WORDS};
use numbers::little::NUMBER_BYTES;
use numbers::part::copy_numbers;

// The words that the longest list has.
pub const LIST_WORDS: usize = NODE_WORDS * MOST_NODES;

// How many words each of two copied lists has.
#[derive(Clone, Copy)]
pub struct Lengths {
    pub ancestors: usize,
    pub descendants: usize,
}

// Copies the lists under the tags `ancestors` and `descendants` of a book that was opened before
// and has `lists` lists. Each goes to the beginning of the words lent for it, `first` and `second`.
// Returns how many words each list has. The refusal is Absent if one of the tags isn't there, and
// Room if fewer words were lent than a list has; then no word changes. Nothing is checked again.
pub fn copy_lists(
    book: &[u8],
    lists: u32,
    ancestors: u32,
    descendants: u32,
    first: &mut [u32],
    second: &mut [u32],
) -> Result<Lengths, Refusal>
    ensures { record {
      answer : result ≡ lengths_of book.now lists ancestors descendants first.old second.old;
      first_output : first.new ≡ first_after book.now lists ancestors descendants first.old second.old;
      second_output : second.new ≡ second_after book.now lists ancestors descendants first.old second.old;
    } }
{
    if !has_tag(book, lists, ancestors) {
        return Err(Refusal::Absent);
    }
    if !has_tag(book, lists, descendants) {
        return Err(Refusal::Absent);
    }
    let one = tag_body(book, lists, ancestors);
    let two = tag_body(book, lists, descendants);
    let lengths = Lengths {
        ancestors: one.len() / NUMBER_BYTES,
        descendants: two.len() / NUMBER_BYTES,
    };
    if first.len() < lengths.ancestors {
        return Err(Refusal::Room);
    }
    if second.len() < lengths.descendants {
        return Err(Refusal::Room);
    }
    copy_numbers(one, first);
    copy_numbers(two, second);
    Ok(lengths)
}
