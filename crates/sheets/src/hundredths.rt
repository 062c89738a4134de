// A sample's word: hundredths of a percent, or the word for a missing reading.
ghost use Rattle.std.specs.Prelude.{◌≡◌, position, Some, None, cond};
ghost use Rattle.sheets.specs.Hundredths.{missingb, faulty_wordb};

// The most hundredths of a percent: one hundred percent.
const MOST_HUNDREDTHS: u32 = 10000;

// The word of a sample without a reading.
const NO_HUNDREDTHS: u32 = 65535;

// Returns the reading that `word` stands for, or None where it is missing.
pub(crate) fn reading_of(word: u32) -> Option<u32>
    ensures { result ≡ cond (missingb word) None (Some word) }
{
    if word == NO_HUNDREDTHS {
        return None;
    }
    Some(word)
}

// Returns whether `word` is neither a number of hundredths nor the word for a missing reading.
fn is_faulty(word: u32) -> bool
    ensures { result ≡ faulty_wordb word }
{
    reading_of(word).is_some_and(|reading| MOST_HUNDREDTHS < reading)
}

// Returns the index of the first faulty word, or None where none is faulty.
pub(crate) fn first_faulty(words: &[u32]) -> Option<usize>
    ensures { result ≡ position faulty_wordb words.now }
{
    words.iter().position(|word| is_faulty(*word))
}
