// Checks what a book is to be written from.
ghost use Rattle.std.specs.Prelude.{◌≡◌, ◌/◌, ◌%◌, ◌≤◌, length};
ghost use Rattle.answers.specs.Answer.{TAKEN};
ghost use Rattle.answers.specs.Refusal.{answer_in, verdict_in};
ghost use Rattle.nodes.specs.Words.{NODE_WORDS, nodes};
ghost use Rattle.contents.specs.Contents.{MOST_LISTS};
ghost use Rattle.contents.specs.Passing.{start_of};
ghost use Rattle.contents.specs.Private.Walk.{Kept};
ghost use Rattle.books.specs.Book.{check_bodies};
ghost use Rattle.writing.specs.Wanted.{WANTED_WORDS, wanted, contents_for, bodies_for, wanted_fault};
ghost use Rattle.writing.specs.WriteCall.{check_wanted};

use crate::wanted::{WANTED_WORDS, wanted_at, wanted_count};
use answers::refusal::{Fault, Refusal};
use contents::entry::{Entry, MOST_LISTS, contents_end};
use contents::step::{ContentsPlace, check_end, pass_entry, start_of};
use lists::list::check_list;
use nodes::node::NODE_WORDS;
use numbers::little::NUMBER_BYTES;

// Walks along the contents that the book will have: each body starts where the last one ends.
// Returns the place after them, or the first refusal.
fn pass_wanted(entries: &[u32]) -> Result<ContentsPlace, Refusal>
    requires { length entries.now / WANTED_WORDS ≤ MOST_LISTS }
    ensures { Kept (start_of (length entries.now / WANTED_WORDS)) (contents_for (wanted entries.now)) result }
{
    let lists = wanted_count(entries);
    let mut place = start_of(lists as u32);
    // Rests on contents: ContentLaws: kept_on, kept_stop, kept_end.
    for index in 0..lists {
        let wanted = wanted_at(entries, index);
        let entry = Entry {
            tag: wanted.tag,
            offset: place.end as u32,
            count: wanted.count,
        };
        // `let .. else` and not `?`: docs/SCOPE.md names that form for the steps of a check.
        let step = pass_entry(place, entry);
        let Ok(reached) = step else {
            return step;
        };
        place = reached;
    }
    Ok(place)
}

// Checks that the contents that the book will have keep the rules, and that the last body ends
// where the nodes do. The refusal is Contents.
fn check_entries(entries: &[u32], list: &[u32]) -> Result<(), Refusal>
    requires { length list.now % NODE_WORDS ≡ 0 }
    ensures { answer_in result ≡ wanted_fault (wanted entries.now) (nodes list.now) }
{
    let lists = wanted_count(entries);
    if (MOST_LISTS as usize) < lists {
        return Err(Refusal::Contents);
    }
    let size = contents_end(lists as u32) + NUMBER_BYTES * list.len();
    check_end(pass_wanted(entries), size)
}

// Checks the bodies and returns the fault of the first one that isn't accepted. The counts add up
// to the nodes.
fn check_bodies(entries: &[u32], list: &[u32]) -> Result<(), Fault>
    requires { (length list.now % NODE_WORDS ≡ 0) × (wanted_fault (wanted entries.now) (nodes list.now) ≡ TAKEN) }
    ensures { verdict_in result ≡ check_bodies 0 (bodies_for (wanted entries.now) (nodes list.now)) }
{
    let mut from = 0;
    // Rests on books: BookLaws: bodies_on, bodies_stop, bodies_end.
    for index in 0..wanted_count(entries) {
        let wanted = wanted_at(entries, index);
        let to = from + NODE_WORDS * wanted.count as usize;
        let number = index as u32;
        check_list(&list[from..to]).map_err(|fault| Fault {
            list: number,
            ..fault
        })?;
        from = to;
    }
    Ok(())
}

// Checks what is to be written, apart from the room for it.
pub(crate) fn check_wanted(entries: &[u32], list: &[u32]) -> Result<(), Fault>
    ensures { verdict_in result ≡ check_wanted entries.now list.now }
{
    if entries.len() % WANTED_WORDS != 0 {
        return Err(Refusal::Ragged.into());
    }
    if list.len() % NODE_WORDS != 0 {
        return Err(Refusal::Ragged.into());
    }
    check_entries(entries, list)?;
    check_bodies(entries, list)
}
