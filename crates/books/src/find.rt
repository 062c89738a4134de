// A book's lists, by tag and by position.
ghost use Rattle.std.specs.Prelude.{◌≡◌, take};
ghost use Rattle.contents.specs.Contents.{entries_in};
ghost use Rattle.books.specs.Find.{tag_index, body_at, found_in, found_at, found_tag, has_tag, tag_body, tag_place};

use crate::book::{body_of, check_book};
use answers::refusal::{Fault, Refusal};
use answers::verdict::Verdict;
use contents::entry::{entry_at, entry_count};
use numbers::little::NODE_BYTES;

// Where a list's body lies in the book: its first byte and its number of bytes.
#[derive(Clone, Copy)]
pub struct Body {
    pub from: usize,
    pub bytes: usize,
}

// What looking for a list answers: the verdict, and where the list's body lies in the book. That is
// its first byte and its number of bytes, both 0 on refusal.
#[repr(C)]
#[derive(Clone, Copy)]
pub struct Found {
    pub verdict: Verdict,
    pub from: usize,
    pub bytes: usize,
}

impl From<Result<Body, Fault>> for Found {
    ghost from_gives = { λ sought found. found ≡ found_in sought };

    fn from(sought: Result<Body, Fault>) -> Found {
        match sought {
            Ok(body) => Found {
                verdict: Ok(()).into(),
                from: body.from,
                bytes: body.bytes,
            },
            Err(fault) => Found {
                verdict: fault.into(),
                from: 0,
                bytes: 0,
            },
        }
    }
}

// Returns the index of the list of `tag` among the first `lists` entries, or None where there is
// none.
fn tag_at(book: &[u8], lists: u32, tag: u32) -> Option<usize>
    ensures { result ≡ tag_index tag (take lists (entries_in book.now)) }
{
    let count = entry_count(book).min(lists as usize);
    // Rests on contents: ContentLaws: entry_from.
    for index in 0..count {
        if entry_at(book, index).tag == tag {
            return Some(index);
        }
    }
    None
}

// Returns where the body of the entry at `position` lies.
fn body_at(book: &[u8], position: usize) -> Body
    ensures { result ≡ body_at book.now position }
{
    let entry = entry_at(book, position);
    Body {
        from: entry.offset as usize,
        bytes: NODE_BYTES * entry.count as usize,
    }
}

// Returns where the body of the list at `position` lies, the first list having position 0; or the
// book's refusal, or Absent.
pub fn find_list(book: &[u8], position: usize) -> Result<Body, Fault>
    ensures { found_in result ≡ found_at book.now position }
{
    let lists = check_book(book)?;
    if lists as usize <= position {
        return Err(Refusal::Absent.into());
    }
    Ok(body_at(book, position))
}

// Returns where the body of the list of `tag` lies; or the book's refusal, or Absent.
pub fn find_tag(book: &[u8], tag: u32) -> Result<Body, Fault>
    ensures { found_in result ≡ found_tag book.now tag }
{
    let lists = check_book(book)?;
    let position = tag_at(book, lists, tag).ok_or(Refusal::Absent)?;
    Ok(body_at(book, position))
}

// Returns whether one of the `lists` lists of a book that was opened before has `tag`. Nothing is
// checked again.
pub fn has_tag(book: &[u8], lists: u32, tag: u32) -> bool
    ensures { result ≡ has_tag book.now lists tag }
{
    tag_at(book, lists, tag).is_some()
}

// Returns the body of `tag` out of a book that was opened before and has `lists` lists, as a part
// of the very bytes that were lent. Where no list has the tag, that is the empty part at their
// beginning. Nothing is checked again.
pub fn tag_body(book: &[u8], lists: u32, tag: u32) -> &[u8]
    ensures { record {
      contents : result.now ≡ tag_body book.now lists tag;
      place : result.ref_ptr ≡ tag_place book.entry.ref_ptr book.now lists tag;
    } }
{
    match tag_at(book, lists, tag) {
        Some(position) => body_of(book, entry_at(book, position)),
        None => &book[..0],
    }
}
