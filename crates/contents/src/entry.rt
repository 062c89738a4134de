// The entries of a book's contents, read where they lie.
ghost use Rattle.std.specs.Prelude.{◌≡◌};
ghost use Rattle.contents.specs.Contents.{entry_count, entry_at, contents_end};

use numbers::little::{NUMBER_BYTES, number_at};

// The most lists that a book may have.
pub const MOST_LISTS: u32 = 64;

// How many numbers an entry takes in a book.
pub const ENTRY_NUMBERS: usize = 3;

// What the contents say of a list: its tag, where its body starts in the book, and how many nodes
// it has.
#[derive(Clone, Copy, Default)]
pub struct Entry {
    pub tag: u32,
    pub offset: u32,
    pub count: u32,
}

// Returns how many bytes the contents of `lists` lists take; the first body starts there.
pub fn contents_end(lists: u32) -> usize
    ensures { result ≡ contents_end lists }
{
    NUMBER_BYTES * (1 + ENTRY_NUMBERS * lists as usize)
}

// Returns how many whole entries the bytes after the book's first number could hold.
pub fn entry_count(book: &[u8]) -> usize
    ensures { result ≡ entry_count book.now }
{
    (book.len() / NUMBER_BYTES).saturating_sub(1) / ENTRY_NUMBERS
}

// Returns the entry at `index` of the book's contents, or an entry of zeros where there could be
// none.
pub fn entry_at(book: &[u8], index: usize) -> Entry
    ensures { result ≡ entry_at book.now index }
{
    if entry_count(book) <= index {
        return Entry::default();
    }
    let at = 1 + ENTRY_NUMBERS * index;
    Entry {
        tag: number_at(book, at),
        offset: number_at(book, at + 1),
        count: number_at(book, at + 2),
    }
}
