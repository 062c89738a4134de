// The printing program: it reads a field book on standard input and prints which nodes of its
// second list lie inside which of its first.
#![tactic(auto)]

ghost use Rattle.std.specs.Prelude.{◌≤◌, length};

use printing::print::{MOST_BYTES, print_book};
use std::io::Read;

// Reads one byte more than a book may have, so that a longer one is seen to be too long, and prints
// the book. A refusal is printed, and the program ends as always.
fn main(rt: HostRuntime) {
    let mut book = [0u8; MOST_BYTES + 1];
    let length = read_full(&mut rt.stdin(), &mut book);
    let _ = print_book(rt.stdout(), &book[..length]);
}

// Reads until `buffer` is full, the input ends or a read fails, and returns how many bytes that
// put at the start of `buffer`.
// By hand: `read_to_end` wants a heap, and `read_exact` doesn't tell how many bytes came.
fn read_full(input: &mut impl Read, buffer: &mut [u8]) -> usize
    ensures { result ≤ length buffer.new }
{
    let mut done = 0;
    // Rests on arithmetic alone: `done` rises to the length of `buffer`, which stays.
    while done < buffer.len() {
        let count = input.read(&mut buffer[done..]).unwrap_or(0);
        if count == 0 {
            break;
        }
        done += count;
    }
    done
}
