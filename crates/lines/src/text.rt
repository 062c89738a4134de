// Writes a text piece by piece.
ghost use Rattle.std.specs.Prelude.{◌≡◌, ◌+◌, ◌≤◌, ◌<◌, ◌∷◌, [], ◌++◌, length};
ghost use Rattle.std.proofs.lemmas.List.Edits.{sets};
ghost use Rattle.lines.specs.Line.{decimal, unfilled};
ghost use Rattle.lines.specs.Private.DigitTable.{two_digits, Tabled};
ghost use Rattle.lines.specs.Private.Puts.{Puts};

// The bytes of a table of two digits for each number below a hundred.
const TABLE_BYTES: usize = 200;

// The table, one number after the other.
static TWO_DIGITS: [u8; TABLE_BYTES] = *b"0001020304050607080910111213141516171819\
    2021222324252627282930313233343536373839\
    4041424344454647484950515253545556575859\
    6061626364656667686970717273747576777879\
    8081828384858687888990919293949596979899";

// The byte that fills up a word.
const FILLING: u8 = b' ';

// Returns how many digits `number` has: one or two, and two more for each division by a hundred.
#[tactic(auto, using(crate::proofs::Digits::digit_laws))]
fn digit_count(number: u64) -> usize
    ensures { result ≡ length (decimal number) }
{
    let mut rest = number;
    let mut count = 0;
    // Rests on Digits: length_more, length_one, length_two.
    while 99 < rest {
        rest /= 100;
        count += 2;
    }
    if rest < 10 { count + 1 } else { count + 2 }
}

// Returns the table of two digits.
fn table() -> &'static [u8; TABLE_BYTES]
    ensures { Tabled result.now }
{
    &TWO_DIGITS
}

// Puts the two digits of `number`, which is below a hundred, into `text` at `at`.
fn put_two(text: &mut [u8], at: usize, number: u64)
    requires { (at + 1 < length text.old) × (number < 100) }
    ensures { text.new ≡ sets text.old at (two_digits number) }
{
    let table = table();
    let from = 2 * number as usize;
    text[at] = table[from];
    text[at + 1] = table[from + 1];
}

// A text, and the place up to which it is written.
#[derive(Drop)]
pub(crate) struct Writer<'a> {
    pub(crate) text: &'a mut [u8],
    pub(crate) at: usize,
}

impl Writer<'_> {
    // Puts `byte`.
    pub(crate) fn put_byte(&mut self, byte: u8)
        requires { self.old.at < length self.old.text.now }
        ensures { Puts self.old (byte ∷ []) self.new }
    {
        self.text[self.at] = byte;
        self.at += 1;
    }

    // Puts `bytes`.
    pub(crate) fn put_bytes(&mut self, bytes: &[u8])
        requires { self.old.at + length bytes.now ≤ length self.old.text.now }
        ensures { Puts self.old bytes.now self.new }
    {
        let next = self.at + bytes.len();
        self.text[self.at..next].copy_from_slice(bytes);
        self.at = next;
    }

    // Puts `number`, in decimal. It counts the digits, and then puts them where they belong, from
    // the last two to the first one or two.
    // By hand: `Display` divides for each digit, and the digits are most of what a listing takes.
    #[tactic(auto, using(crate::proofs::Digits::digit_laws))]
    fn put_decimal(&mut self, number: u64)
        requires { self.old.at + length (decimal number) ≤ length self.old.text.now }
        ensures { Puts self.old (decimal number) self.new }
    {
        let end = self.at + digit_count(number);
        let mut rest = number;
        let mut to = end;
        // Rests on Digits: decimal_more, decimal_one, decimal_two.
        while 99 < rest {
            to -= 2;
            put_two(self.text, to, rest % 100);
            rest /= 100;
        }
        if rest < 10 {
            self.text[self.at] = (48 + rest) as u8;
        } else {
            put_two(self.text, self.at, rest);
        }
        self.at = end;
    }

    // Puts `number`, in decimal, and the byte `after` after it.
    pub(crate) fn put_field(&mut self, number: u64, after: u8)
        requires { self.old.at + length (decimal number) < length self.old.text.now }
        ensures { Puts self.old (decimal number ++ after ∷ []) self.new }
    {
        self.put_decimal(number);
        self.put_byte(after);
    }

    // Puts the word `letters` without its blanks.
    pub(crate) fn put_unfilled(&mut self, letters: &[u8])
        requires { self.old.at + length letters.now ≤ length self.old.text.now }
        ensures { Puts self.old (unfilled letters.now) self.new }
    {
        // Rests on Blanks: unfilled_letter, unfilled_blank.
        for letter in letters {
            if *letter != FILLING {
                self.put_byte(*letter);
            }
        }
    }
}
