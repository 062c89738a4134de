// Checks a book and prints the pairs of its first two lists.
ghost use Rattle.std.specs.Prelude.{◌≡◌, ◌<◌};
ghost use Rattle.answers.specs.Answer.{TAKEN};
ghost use Rattle.answers.specs.Refusal.{answer_in};
ghost use Rattle.contents.specs.Contents.{lists_in};
ghost use Rattle.lists.specs.Two.{check_two};
ghost use Rattle.books.specs.Book.{book_verdict, list_at};
ghost use Rattle.printing.specs.Print.{printed_answer};

use crate::pages::{print_pages, print_refusal};
use answers::refusal::Refusal;
use books::book::check_book;
use contents::entry::entry_at;
use joins::copy::{LIST_WORDS, copy_lists};
use std::io::Stdout;

// The most bytes of the program's input.
pub const MOST_BYTES: usize = 61440;

// How many lists are joined.
const JOINED_LISTS: u32 = 2;

// Prints the pairs of the first two lists of a checked book, and returns their refusal, if there is
// one. The page call takes words, so the two lists are copied, each once.
fn print_two(stdout: Stdout, book: &[u8], lists: u32) -> Result<(), Refusal>
    requires { ((book_verdict book.now).answer ≡ TAKEN) × (lists ≡ lists_in book.now) × (1 < lists) }
    ensures { answer_in result ≡ (check_two (list_at book.now 0) (list_at book.now 1)).answer }
{
    let mut first = [0u32; LIST_WORDS];
    let mut second = [0u32; LIST_WORDS];
    let ancestors = entry_at(book, 0).tag;
    let descendants = entry_at(book, 1).tag;
    let lengths = copy_lists(book, lists, ancestors, descendants, &mut first, &mut second)?;
    print_pages(
        stdout,
        &first[..lengths.ancestors],
        &second[..lengths.descendants],
    )
}

// Checks `book` and prints the pairs of its first two lists, or returns why it doesn't.
fn print_lists(stdout: Stdout, book: &[u8]) -> Result<(), Refusal>
    ensures { answer_in result ≡ printed_answer book.now }
{
    if MOST_BYTES < book.len() {
        return Err(Refusal::Long);
    }
    let lists = check_book(book).map_err(|fault| fault.refusal)?;
    if lists < JOINED_LISTS {
        return Err(Refusal::Absent);
    }
    print_two(stdout, book, lists)
}

// Joins the first list of a book with the second, relation inside, in descendant order. Prints a
// line for each pair on standard output and then their number, or on refusal the one line that says
// why. Returns the refusal.
pub fn print_book(stdout: Stdout, book: &[u8]) -> Result<(), Refusal>
    ensures { answer_in result ≡ printed_answer book.now }
{
    if let Err(refusal) = print_lists(stdout, book) {
        return Err(print_refusal(stdout, refusal));
    }
    Ok(())
}
