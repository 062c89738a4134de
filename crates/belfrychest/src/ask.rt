// Several questions to one book.
ghost use Rattle.std.specs.Prelude.{◌≡◌};
ghost use Rattle.questions.specs.Ask.{ask_of, ask_output};

use questions::ask::{Pages, ask};

// Asks `book` the `questions`, writes their pages into `out`, and returns what `ask` returns.
pub fn belfry_ask(book: &[u8], questions: &[u32], out: &mut [u32]) -> Pages
    ensures { record {
      answer : result ≡ ask_of book.now questions.now out.old;
      output : out.new ≡ ask_output book.now questions.now out.old;
    } }
{
    ask(book, questions, out)
}
