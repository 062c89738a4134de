// Writes the numbers of a book.
ghost use Rattle.std.specs.Prelude.{◌≡◌, ◌+◌, ◌*◌, ◌/◌, ◌≤◌, ◌∷◌, length};
ghost use Rattle.std.proofs.lemmas.List.Edits.{sets};
ghost use Rattle.laws.specs.Choose.{All};
ghost use Rattle.nodes.specs.Words.{MOST_NODES};
ghost use Rattle.answers.specs.Output.{words_in, written};
ghost use Rattle.numbers.specs.Little.{NUMBER_BYTES, number_count, bytes_of};
ghost use Rattle.contents.specs.Contents.{MOST_LISTS, ENTRY_NUMBERS, entry_numbers};
ghost use Rattle.writing.specs.Wanted.{WANTED_WORDS, wanted, contents_for};

use crate::wanted::{wanted_at, wanted_count};
use contents::entry::{ENTRY_NUMBERS, Entry, contents_end};
use numbers::little::{NODE_BYTES, put_number};

// Writes `words` into `out` as numbers, one after the other, from the number at the index `from`
// on.
pub(crate) fn put_numbers(words: &[u32], out: &mut [u8], from: usize)
    requires { from + length words.now ≤ number_count out.old }
    ensures { out.new ≡ sets out.old (NUMBER_BYTES * from) (words_in bytes_of words.now) }
{
    // Rests on Putting: put_on.
    for (index, word) in words.iter().enumerate() {
        put_number(out, from + index, *word);
    }
}

// Writes the three numbers of the entry at `index` of the contents.
fn put_entry(out: &mut [u8], index: usize, entry: Entry)
    requires { 1 + ENTRY_NUMBERS * index + ENTRY_NUMBERS ≤ number_count out.old }
    ensures { out.new ≡ sets out.old (NUMBER_BYTES * (1 + ENTRY_NUMBERS * index))
        (words_in bytes_of (entry_numbers entry)) }
{
    let at = 1 + ENTRY_NUMBERS * index;
    put_number(out, at, entry.tag);
    put_number(out, at + 1, entry.offset);
    put_number(out, at + 2, entry.count);
}

// Writes the number of lists and the contents into `out`. Each body starts where the last one ends.
pub(crate) fn put_contents(entries: &[u32], out: &mut [u8])
    requires { (length entries.now / WANTED_WORDS ≤ MOST_LISTS) × All (λ w. w.count ≤ MOST_NODES) (wanted entries.now)
        × (1 + ENTRY_NUMBERS * (length entries.now / WANTED_WORDS) ≤ number_count out.old) }
    ensures { out.new ≡ written (words_in bytes_of (length (wanted entries.now)
        ∷ words_in entry_numbers (contents_for (wanted entries.now)))) out.old }
{
    let lists = wanted_count(entries);
    put_number(out, 0, lists as u32);
    let mut end = contents_end(lists as u32);
    // Rests on Putting: laid_on.
    for index in 0..lists {
        let wanted = wanted_at(entries, index);
        put_entry(
            out,
            index,
            Entry {
                tag: wanted.tag,
                offset: end as u32,
                count: wanted.count,
            },
        );
        end += NODE_BYTES * wanted.count as usize;
    }
}
