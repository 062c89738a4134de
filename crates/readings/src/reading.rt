// A lab reading, decoded from its two words and turned into percent.
ghost use Rattle.std.specs.Prelude.{◌≡◌, true};
ghost use Rattle.std.specs.Float.{binary32};
ghost use Rattle.std.specs.Float.Ieee.{of_bits};
ghost use Rattle.std.specs.Float.Ieee.Scale.{finite};
ghost use Rattle.readings.specs.Reading.{decode, withinb, percent_of};

// How many words a reading takes: its kind, and the bits of its value.
pub const READING_WORDS: usize = 2;

// The kinds of reading. By hand: they are words of the input, and `Reading` is their enum.
pub const MISSING: u32 = 0;

pub const PERCENT: u32 = 1;

pub const GRAMS: u32 = 2;

// The greatest value in percent, and in grams per kilogram.
const MOST_PERCENT: f32 = 100.0;

const MOST_GRAMS: f32 = 1000.0;

// How many grams per kilogram make one percent.
const GRAMS_A_PERCENT: f32 = 10.0;

// The weight of the sign in the bits of a float, and the bits of the infinity above all numbers.
const SIGN: u32 = 2147483648;

const INFINITY: u32 = 2139095040;

// What the lab found in a sample: organic matter in percent or in grams per kilogram, or nothing.
#[derive(Clone, Copy)]
pub enum Reading {
    Percent(f32),
    Grams(f32),
    Missing,
}

// Returns whether `bits` are those of a number from zero to `most`.
fn is_within(bits: u32, most: f32) -> bool
    requires { finite most ≡ true }
    ensures { result ≡ withinb most (of_bits binary32 bits) }
{
    if INFINITY <= bits % SIGN {
        return false;
    }
    let value = f32::from_bits(bits);
    0.0 <= value && value <= most
}

// Returns the reading of `kind` with the value that `bits` stand for, or nothing where it is
// faulty.
pub fn decode(kind: u32, bits: u32) -> Option<Reading>
    ensures { result ≡ decode kind bits }
{
    match kind {
        MISSING if bits == 0 => Some(Reading::Missing),
        PERCENT if is_within(bits, MOST_PERCENT) => Some(Reading::Percent(f32::from_bits(bits))),
        GRAMS if is_within(bits, MOST_GRAMS) => Some(Reading::Grams(f32::from_bits(bits))),
        _ => None,
    }
}

// Returns `reading` in percent, or nothing where it is missing. Grams are divided by ten, once.
pub fn in_percent(reading: Reading) -> Option<f32>
    ensures { result ≡ percent_of reading }
{
    match reading {
        Reading::Percent(percent) => Some(percent),
        Reading::Grams(grams) => Some(grams / GRAMS_A_PERCENT),
        Reading::Missing => None,
    }
}
