// The names of the answers, in one table.
ghost use Rattle.std.specs.Prelude.{◌≡◌};
ghost use Rattle.answers.specs.Answer.{name_of};

// The number of a call that is taken. `Refusal` has the numbers of all others.
pub const TAKEN: u32 = 0;

// How many rows the table of names has, one for each answer.
const ROWS: usize = 19;

// The name of each answer, in the row of its number, filled up with blanks.
const NAMES: [[u8; 8]; ROWS] = [
    *b"TAKEN   ",
    *b"RAGGED  ",
    *b"LONG    ",
    *b"LEVEL   ",
    *b"SPAN    ",
    *b"ORDER   ",
    *b"CROSS   ",
    *b"DEPTH   ",
    *b"JOINT   ",
    *b"ROOM    ",
    *b"MARK    ",
    *b"STRAY   ",
    *b"DEEP    ",
    *b"UNCLOSED",
    *b"TABLE   ",
    *b"CONTENTS",
    *b"ABSENT  ",
    *b"READING ",
    *b"LINKS   ",
];

// Returns the name of the answer `number`, or eight blanks for a number that no answer has.
pub fn name_of(number: u32) -> [u8; 8]
    ensures { result ≡ name_of number }
{
    NAMES.get(number as usize).copied().unwrap_or([b' '; 8])
}
