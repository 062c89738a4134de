// Writes a book.
ghost use Rattle.std.specs.Prelude.{◌≡◌};
ghost use Rattle.answers.specs.Refusal.{counted_in};
ghost use Rattle.writing.specs.WriteCall.{written_of, written_output};

use crate::check::check_wanted;
use crate::put::{put_contents, put_numbers};
use crate::wanted::wanted_count;
use answers::refusal::{Fault, Refusal};
use contents::entry::{ENTRY_NUMBERS, contents_end};
use numbers::little::NUMBER_BYTES;

// Writes the book of the lists into `out` and returns its length. `entries` has a tag and a count
// for each list. `list` has all nodes one after the other, and each list takes as many of them as
// its count says. On refusal `out` stays as it was.
pub fn write_book(entries: &[u32], list: &[u32], out: &mut [u8]) -> Result<usize, Fault>
    ensures { record {
      answer : counted_in result ≡ written_of entries.now list.now out.old;
      output : out.new ≡ written_output entries.now list.now out.old;
    } }
{
    check_wanted(entries, list)?;
    let lists = wanted_count(entries);
    let size = contents_end(lists as u32) + NUMBER_BYTES * list.len();
    if out.len() < size {
        return Err(Refusal::Room.into());
    }
    put_contents(entries, out);
    put_numbers(list, out, 1 + ENTRY_NUMBERS * lists);
    Ok(size)
}
