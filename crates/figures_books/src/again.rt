// Writing a book's parts anew, into a painted output.
ghost use Rattle.std.specs.Prelude.{◌*◌, ◌+◌, ◌≤◌, length};
ghost use Rattle.contents.specs.Contents.{MOST_LISTS};

use crate::say::{Named, Printed};
use answers::refusal::Fault;
use answers::verdict::Counted;
use contents::entry::{MOST_LISTS, contents_end, entry_at, entry_count};
use numbers::little::{NUMBER_BYTES, number_at};
use numbers::part::{copy_numbers, part_of};
use std::io::Stdout;
use writing::write::write_book;

// The most entries that are taken over: one more than a book may have.
const MOST_ENTRIES: usize = MOST_LISTS as usize + 1;

// The number of words of nodes that there is room for.
const MOST_WORDS: usize = 16400;

// The number of bytes of the output.
const OUTPUT_BYTES: usize = 65700;

// The byte that the output is painted with.
const PAINT: u8 = 165;

// Returns the number of entries of `book` that are taken over: as many as it says it has, as there
// are, and as there is room for.
fn taken_over(book: &[u8]) -> usize
    ensures { result ≤ MOST_LISTS + 1 }
{
    let said = number_at(book, 0) as usize;
    said.min(entry_count(book)).min(MOST_ENTRIES)
}

// Copies the tags and counts of the first `count` entries of `book` into `entries`, two words for
// each.
fn copy_entries(book: &[u8], count: usize, entries: &mut [u32])
    requires { 2 * count ≤ length entries.old }
{
    for index in 0..count {
        let entry = entry_at(book, index);
        entries[2 * index] = entry.tag;
        entries[2 * index + 1] = entry.count;
    }
}

// Returns whether all `bytes` have the paint.
fn is_painted(bytes: &[u8]) -> bool {
    bytes.iter().all(|byte| *byte == PAINT)
}

// Prints the answer `written`, and says if a byte of `out` beyond what was written has changed.
fn say_written(stdout: Stdout, written: Result<usize, Fault>, out: &[u8]) {
    let Counted { verdict, count } = written.into();
    let verdict = Printed(verdict);
    let _ = print!(stdout; "written {verdict} bytes {count}");
    if !is_painted(part_of(out, count, out.len())) {
        let _ = print!(stdout; ", altered beyond");
    }
}

// Prints what writing into `out`, which is too short, answers, and says if a byte of it has
// changed.
fn say_short(stdout: Stdout, entries: &[u32], list: &[u32], out: &mut [u8]) {
    let written = Counted::from(write_book(entries, list, out));
    let answer = Named(written.verdict.answer);
    let _ = print!(stdout; "; in one byte less {answer}");
    if !is_painted(out) {
        let _ = print!(stdout; ", altered");
    }
}

// Writes a book of `size` bytes into an output of one byte less, and prints what comes of it.
fn write_short(stdout: Stdout, entries: &[u32], list: &[u32], size: usize) {
    let mut out = [PAINT; OUTPUT_BYTES];
    if size == 0 || OUTPUT_BYTES < size {
        return;
    }
    say_short(stdout, entries, list, &mut out[..size - 1]);
}

// Writes the book of `entries` and `list`, and prints what comes of it and whether it is `book`
// again.
fn write_and_say(stdout: Stdout, book: &[u8], entries: &[u32], list: &[u32]) {
    let mut out = [PAINT; OUTPUT_BYTES];
    let written = write_book(entries, list, &mut out);
    say_written(stdout, written, &out);
    if let Ok(size) = written {
        let again = book == part_of(&out, 0, size);
        let _ = print!(stdout; "{}", if again { ", as read" } else { ", not as read" });
        write_short(stdout, entries, list, size);
    }
    let _ = println!(stdout; "");
}

// Writes the parts of `book` anew: the entries of its contents and the numbers after them.
pub(crate) fn write_parts(stdout: Stdout, book: &[u8]) {
    let mut entries = [0u32; 2 * MOST_ENTRIES];
    let mut list = [0u32; MOST_WORDS];
    let count = taken_over(book);
    copy_entries(book, count, &mut entries);
    let rest = part_of(book, contents_end(count as u32), book.len());
    copy_numbers(rest, &mut list);
    let words = rest.len() / NUMBER_BYTES;
    if MOST_WORDS < words {
        return;
    }
    write_and_say(stdout, book, &entries[..2 * count], &list[..words]);
}

// Writes a book of three words of entries, which make no whole entries.
pub(crate) fn write_odd(stdout: Stdout) {
    let _ = println!(stdout; "== entries of three words");
    write_and_say(stdout, b"", &[2, 0, 3], &[]);
}
