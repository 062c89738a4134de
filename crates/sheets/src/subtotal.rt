// A row of the sheet, and how it lies in words.
ghost use Rattle.std.specs.Prelude.{◌≡◌, ◌*◌, ◌/◌, ◌<◌, length};
ghost use Rattle.std.proofs.lemmas.List.Edits.{sets};
ghost use Rattle.sheets.specs.Private.Walk.{SmallSubtotal, of_word};
ghost use Rattle.sheets.specs.Sheet.{SUBTOTAL_WORDS, plus, subtotal_words};

use crate::hundredths::reading_of;

// How many words a row takes.
pub const SUBTOTAL_WORDS: usize = 3;

// What a row says of some samples: how many they are, how many of them have a reading, and the sum
// of those readings in hundredths of a percent. The default is the row of no samples.
#[derive(Clone, Copy, Default)]
pub struct Subtotal {
    pub samples: u32,
    pub present: u32,
    pub sum: u32,
}

// Returns the sum of two subtotals, column by column. Neither may be larger than that of as many
// samples as a call may have.
// By hand: an `Add` would be public, and could not ask that of whoever adds.
pub(crate) fn added(one: Subtotal, other: Subtotal) -> Subtotal
    requires { SmallSubtotal one × SmallSubtotal other }
    ensures { result ≡ plus one other }
{
    Subtotal {
        samples: one.samples + other.samples,
        present: one.present + other.present,
        sum: one.sum + other.sum,
    }
}

// Returns the subtotal of one sample with the word `word`.
pub(crate) fn of_word(word: u32) -> Subtotal
    ensures { result ≡ of_word word }
{
    match reading_of(word) {
        None => Subtotal {
            samples: 1,
            present: 0,
            sum: 0,
        },
        Some(reading) => Subtotal {
            samples: 1,
            present: 1,
            sum: reading,
        },
    }
}

// Writes the row of the zone at `zone`.
pub(crate) fn put_subtotal(out: &mut [u32], zone: usize, subtotal: Subtotal)
    requires { zone < length out.old / SUBTOTAL_WORDS }
    ensures { out.new ≡ sets out.old (SUBTOTAL_WORDS * zone) (subtotal_words subtotal) }
{
    let at = SUBTOTAL_WORDS * zone;
    out[at] = subtotal.samples;
    out[at + 1] = subtotal.present;
    out[at + 2] = subtotal.sum;
}
