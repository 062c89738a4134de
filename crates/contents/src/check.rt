// The check of a book's contents.
ghost use Rattle.std.specs.Prelude.{◌≡◌, ◌≤◌, length, take};
ghost use Rattle.answers.specs.Refusal.{answer_in};
ghost use Rattle.contents.specs.Contents.{entries_in, contents_end, contents_fault};
ghost use Rattle.contents.specs.Passing.{start_of};
ghost use Rattle.contents.specs.Private.Walk.{Kept};

use crate::entry::{MOST_LISTS, contents_end, entry_at};
use crate::step::{ContentsPlace, check_end, pass_entry, start_of};
use answers::refusal::Refusal;
use numbers::little::number_at;

// Walks along the entries of a `book` that is long enough to hold `lists` of them, and returns the
// place after the last, or the first refusal.
fn pass_contents(book: &[u8], lists: u32) -> Result<ContentsPlace, Refusal>
    requires { contents_end lists ≤ length book.now }
    ensures { Kept (start_of lists) (take lists (entries_in book.now)) result }
{
    let mut place = start_of(lists);
    // Rests on ContentLaws: kept_on, kept_stop, kept_end.
    for index in 0..lists as usize {
        // `let .. else` and not `?`: docs/SCOPE.md names that form for the steps of a check.
        let step = pass_entry(place, entry_at(book, index));
        let Ok(reached) = step else {
            return step;
        };
        place = reached;
    }
    Ok(place)
}

// Checks the contents of `book`. The refusal is Contents where they break a rule.
pub fn check_contents(book: &[u8]) -> Result<(), Refusal>
    ensures { answer_in result ≡ contents_fault book.now }
{
    let lists = number_at(book, 0);
    if MOST_LISTS < lists || book.len() < contents_end(lists) {
        return Err(Refusal::Contents);
    }
    check_end(pass_contents(book, lists), book.len())
}
