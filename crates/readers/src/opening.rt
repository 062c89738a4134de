// The work of a reader's functions, on plain slices.
ghost use Rattle.std.specs.Prelude.{◌≡◌};
ghost use Rattle.contents.specs.Contents.{lists_in};
ghost use Rattle.readers.specs.Reader.{kept_of};

use books::book::check_book;
use numbers::little::number_at;

// Returns all of an accepted book, or the empty part at the beginning of a refused one.
pub(crate) fn kept_part(book: &[u8]) -> &[u8]
    ensures { record {
      contents : result.now ≡ kept_of book.now;
      place : result.ref_ptr ≡ book.entry.ref_ptr;
    } }
{
    if check_book(book).is_ok() {
        book
    } else {
        &book[..0]
    }
}

// Returns the number of lists that `book` says it has, or 0 for an empty part.
pub(crate) fn list_count(book: &[u8]) -> u32
    ensures { result ≡ lists_in book.now }
{
    number_at(book, 0)
}
