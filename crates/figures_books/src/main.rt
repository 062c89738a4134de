// The scope's figures of the field book and of the printing program. Each argument names a book.
// For each this program prints what opening it answers, and where its lists lie. It also prints
// what writing its parts anew answers, and what the printing program prints of it.
#![tactic(auto)]

mod again;
mod say;

ghost use Rattle.std.specs.Prelude.{◌≤◌, length};

use crate::again::{write_odd, write_parts};
use crate::say::Printed;
use books::book::{Opened, check_book};
use books::find::{Found, find_list, find_tag};
use contents::entry::entry_at;
use numbers::part::part_of;
use printing::print::print_book;
use readers::reader::body_in;
use std::env::FillError;
use std::io::{Read, Stdout};
use std::rt::{Env, Files};
use std::{fs, str};

// The number of bytes of a book that there is room for.
const MOST_BYTES: usize = 65600;

// Returns whether `by_tag` and `by_place` name the same part of `book`, and the reader shows it for
// `tag`.
fn is_agreed(book: &[u8], tag: u32, by_tag: Found, by_place: Found) -> bool {
    (by_tag.from, by_tag.bytes) == (by_place.from, by_place.bytes)
        && body_in(book, tag) == part_of(book, by_tag.from, by_tag.bytes)
}

// Prints where the list at `position` lies when it is looked for by its tag. Says so if it lies
// elsewhere by its place or in the reader.
fn say_list(stdout: Stdout, book: &[u8], position: usize) {
    let tag = entry_at(book, position).tag;
    let by_tag = Found::from(find_tag(book, tag));
    let by_place = Found::from(find_list(book, position));
    let _ = print!(stdout; "tag {tag} from {} bytes {}", by_tag.from, by_tag.bytes);
    if !is_agreed(book, tag, by_tag, by_place) {
        let _ = print!(stdout; ", elsewhere by its place");
    }
    let _ = println!(stdout; "");
}

// Prints where each of the `lists` of `book` lies.
fn say_lists(stdout: Stdout, book: &[u8], lists: u32) {
    for position in 0..lists as usize {
        say_list(stdout, book, position);
    }
}

// Runs the case of `book`, which the file `name` holds. Where standard output can't be written, the
// rest of the run goes on all the same.
fn run_case(stdout: Stdout, name: &str, book: &[u8]) {
    let _ = println!(stdout; "== {name}: {} bytes", book.len());
    let Opened { verdict, lists } = check_book(book).into();
    let verdict = Printed(verdict);
    let _ = println!(stdout; "read {verdict} lists {lists}");
    say_lists(stdout, book, lists);
    write_parts(stdout, book);
    let _ = print_book(stdout, book);
}

// Reads until `buffer` is full, the input ends or a read fails, and returns how many bytes that
// put at the start of `buffer`.
// By hand: `read_to_end` wants a heap, and `read_exact` doesn't tell how many bytes came.
fn read_full(input: &mut impl Read, buffer: &mut [u8]) -> usize
    ensures { result ≤ length buffer.new }
{
    let mut done = 0;
    // Rests on arithmetic alone: `done` rises to the length of `buffer`, which stays.
    while done < buffer.len() {
        let count = input.read(&mut buffer[done..]).unwrap_or(0);
        if count == 0 {
            break;
        }
        done += count;
    }
    done
}

// Runs the case of the book `name`, which `input` reads.
fn read_case(stdout: Stdout, input: &mut impl Read, name: &str) {
    let mut book = [0u8; MOST_BYTES];
    let length = read_full(input, &mut book);
    run_case(stdout, name, &book[..length]);
}

// Runs the case of the book that the file `name` holds, or says on standard error why it can't be
// opened.
fn run_file(rt: &(impl Eprint + Files), stdout: Stdout, name: &str) {
    match fs::open(rt, name) {
        Ok(mut file) => read_case(stdout, &mut file, name),
        Err(error) => {
            let _ = eprintln!(rt; "{name}: {error}");
        }
    }
}

// Runs the case of the book that the argument at `index` names. Returns whether there is such an
// argument.
// By hand: `env::args` makes a String of each argument, which wants a heap.
fn run_argument(rt: &(impl Env + Eprint + Files), stdout: Stdout, index: usize) -> bool {
    let mut path = [0u8; 4096];
    match rt.arg(index, &mut path) {
        Ok(length) => {
            run_file(rt, stdout, str::from_utf8(&path[..length]).unwrap_or(""));
            true
        }
        Err(FillError::TooLong) => {
            run_file(rt, stdout, "");
            true
        }
        Err(FillError::NotPresent) => false,
    }
}

// Runs the case of each book that an argument names, and last that of entries of three words.
fn main(rt: HostRuntime) {
    for index in 1..usize::MAX {
        if !run_argument(&rt, rt.stdout(), index) {
            break;
        }
    }
    write_odd(rt.stdout());
}
