// A part of the bytes, and the numbers of bytes as words.
ghost use Rattle.std.specs.Prelude.{◌≡◌, length};
ghost use Rattle.numbers.specs.Part.{part_of, place_in, copied};

use crate::little::{NUMBER_BYTES, number_at};

// Returns at most `count` of the bytes, from byte `from` on, as a part of the very bytes that were
// lent. Where the bytes end before, the part ends there as well.
pub fn part_of(bytes: &[u8], from: usize, count: usize) -> &[u8]
    ensures { record {
      contents : result.now ≡ part_of bytes.now from count;
      place : result.ref_ptr ≡ place_in bytes.entry.ref_ptr (length bytes.now) from;
    } }
{
    if bytes.len() < from {
        return &bytes[..0];
    }
    &bytes[from..from + count.min(bytes.len() - from)]
}

// Copies the numbers in `bytes` to the beginning of `words`, as many as there is room for; no word
// after them changes.
pub fn copy_numbers(bytes: &[u8], words: &mut [u32])
    ensures { words.new ≡ copied bytes.now words.old }
{
    // Rests on answers: OutputLaws: written_more.
    for index in 0..words.len().min(bytes.len() / NUMBER_BYTES) {
        words[index] = number_at(bytes, index);
    }
}
