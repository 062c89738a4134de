// The check of a book.
ghost use Rattle.std.specs.Prelude.{◌≡◌, map};
ghost use Rattle.answers.specs.Answer.{TAKEN};
ghost use Rattle.answers.specs.Refusal.{verdict_in};
ghost use Rattle.contents.specs.Contents.{contents_of, contents_fault};
ghost use Rattle.books.specs.Book.{body_of, body_place, nodes_of, check_bodies, check_book, opened_in};

use answers::refusal::Fault;
use answers::verdict::Verdict;
use contents::check::check_contents;
use contents::entry::{Entry, entry_at};
use lists::bytes::check_bytes;
use numbers::little::{NODE_BYTES, number_at};
use numbers::part::part_of;

// What opening a book answers: the verdict, and how many lists the book has, 0 when it is refused.
#[repr(C)]
#[derive(Clone, Copy)]
pub struct Opened {
    pub verdict: Verdict,
    pub lists: u32,
}

impl From<Result<u32, Fault>> for Opened {
    ghost from_gives = { λ checked opened. opened ≡ opened_in checked };

    fn from(checked: Result<u32, Fault>) -> Opened {
        match checked {
            Ok(lists) => Opened {
                verdict: Ok(()).into(),
                lists,
            },
            Err(fault) => Opened {
                verdict: fault.into(),
                lists: 0,
            },
        }
    }
}

// Returns the body that `entry` names, as far as the book goes.
pub(crate) fn body_of(book: &[u8], entry: Entry) -> &[u8]
    ensures { record {
      contents : result.now ≡ body_of book.now entry;
      place : result.ref_ptr ≡ body_place book.entry.ref_ptr book.now entry;
    } }
{
    part_of(
        book,
        entry.offset as usize,
        NODE_BYTES * entry.count as usize,
    )
}

// Checks the bodies of a book whose contents keep the rules, and returns the fault of the first one
// that isn't accepted.
fn check_bodies(book: &[u8]) -> Result<(), Fault>
    requires { contents_fault book.now ≡ TAKEN }
    ensures { verdict_in result ≡ check_bodies 0 (map (nodes_of book.now) (contents_of book.now)) }
{
    // Rests on BookLaws: bodies_on, bodies_stop, bodies_end.
    for list in 0..number_at(book, 0) {
        let body = body_of(book, entry_at(book, list as usize));
        check_bytes(body).map_err(|fault| Fault { list, ..fault })?;
    }
    Ok(())
}

// Checks whether the bytes are a book and returns how many lists it has. Where they aren't one, the
// fault says why, and which node of which list it is.
pub fn check_book(book: &[u8]) -> Result<u32, Fault>
    ensures { opened_in result ≡ check_book book.now }
{
    check_contents(book)?;
    check_bodies(book)?;
    Ok(number_at(book, 0))
}
