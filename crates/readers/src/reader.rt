// A reader over a field book.
ghost use Rattle.std.specs.Prelude.{◌≡◌};
ghost use Rattle.books.specs.Find.{tag_body, tag_place};
ghost use Rattle.readers.specs.Reader.{kept_of, kept_lists, kept_body, kept_place};

use crate::opening::{kept_part, list_count};
use books::find::tag_body;

// An opened book: the caller's own bytes, and how many lists they have. It copies nothing, and is
// passed by value.
#[derive(Clone, Copy)]
pub struct Reader<'a> {
    pub book: &'a [u8],
    pub lists: u32,
}

impl<'a> Reader<'a> {
    // Returns a reader over a `book` that was opened before and has `lists` lists. Nothing is
    // checked again.
    pub fn over(book: &'a [u8], lists: u32) -> Reader<'a>
        ensures { record {
          book : result.book ≡ book.entry;
          lists : result.lists ≡ lists;
        } }
    {
        Reader { book, lists }
    }

    // Returns a reader over `bytes` where they are a book. Where they aren't, it is a reader over
    // the empty part at their beginning, with no lists.
    pub fn open(bytes: &'a [u8]) -> Reader<'a>
        ensures { record {
          contents : result.book.now ≡ kept_of bytes.now;
          place : result.book.ref_ptr ≡ bytes.entry.ref_ptr;
          lists : result.lists ≡ kept_lists bytes.now;
        } }
    {
        let part = kept_part(bytes);
        Reader::over(part, list_count(part))
    }

    // Returns the number of lists of the book.
    pub fn lists(self) -> u32
        ensures { result ≡ self.entry.lists }
    {
        self.lists
    }

    // Returns the bytes of the book, as the very part that the reader holds.
    pub fn book(self) -> &'a [u8]
        ensures { result ≡ self.entry.book }
    {
        self.book
    }

    // Returns the body of `tag` as a part of the book, or the empty part at its beginning where no
    // list has the tag. Nothing is checked again.
    pub fn body(self, tag: u32) -> &'a [u8]
        ensures { record {
          contents : result.now ≡ tag_body self.entry.book.now self.entry.lists tag;
          place : result.ref_ptr ≡ tag_place self.entry.book.ref_ptr self.entry.book.now self.entry.lists tag;
        } }
    {
        tag_body(self.book, self.lists, tag)
    }
}

// Returns the body of `tag` out of any bytes, as a part of them. Where they are no book, or it has
// no such list, that is the empty part at their beginning.
pub fn body_in(bytes: &[u8], tag: u32) -> &[u8]
    ensures { record {
      contents : result.now ≡ kept_body bytes.now tag;
      place : result.ref_ptr ≡ kept_place bytes.entry.ref_ptr bytes.now tag;
    } }
{
    Reader::open(bytes).body(tag)
}
