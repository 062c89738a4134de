// Books: their check, the body of a list by its tag, and writing.
ghost use Rattle.std.specs.Prelude.{◌≡◌};
ghost use Rattle.books.specs.Book.{check_book};
ghost use Rattle.books.specs.Find.{found_tag};
ghost use Rattle.writing.specs.WriteCall.{written_of, written_output};

use answers::verdict::Counted;
use books::book::{Opened, check_book};
use books::find::{Found, find_tag};
use writing::write::write_book;

// Checks `book` and returns what `check_book` returns.
pub fn belfry_book_check(book: &[u8]) -> Opened
    ensures { result ≡ check_book book.now }
{
    check_book(book).into()
}

// Returns where the body of the list with `tag` lies in `book`, as `find_tag` does.
pub fn belfry_book_body(book: &[u8], tag: u32) -> Found
    ensures { result ≡ found_tag book.now tag }
{
    find_tag(book, tag).into()
}

// Writes the book of `entries` and `nodes` into `out`, and returns what `write_book` returns.
pub fn belfry_book_write(entries: &[u32], nodes: &[u32], out: &mut [u8]) -> Counted
    ensures { record {
      answer : result ≡ written_of entries.now nodes.now out.old;
      output : out.new ≡ written_output entries.now nodes.now out.old;
    } }
{
    write_book(entries, nodes, out).into()
}
