// A question as eight words, and the check of all the words of a call.
ghost use Rattle.std.specs.Prelude.{◌≡◌, ◌<◌};
ghost use Rattle.answers.specs.Refusal.{answer_in};
ghost use Rattle.questions.specs.Question.{question_count, question_at, check_questions};

use answers::refusal::Refusal;
use ticket_words::words::TicketWords;

// How many words a question takes: two tags, and the six of a ticket.
const QUESTION_WORDS: usize = 8;

// The most questions of one call.
pub(crate) const MOST_QUESTIONS: usize = 32;

// A question: the tags of the ancestors and of the descendants, and a ticket.
#[derive(Clone, Copy)]
pub struct Question {
    pub ancestors: u32,
    pub descendants: u32,
    pub ticket: TicketWords,
}

// Returns the number of whole questions in `words`.
pub(crate) fn question_count(words: &[u32]) -> usize
    ensures { result ≡ question_count words.now }
{
    words.len() / QUESTION_WORDS
}

// Returns the question at `index`.
pub(crate) fn question_at(words: &[u32], index: usize) -> Question
    requires { index < question_count words.now }
    ensures { result ≡ question_at words.now index }
{
    let from = QUESTION_WORDS * index;
    Question {
        ancestors: words[from],
        descendants: words[from + 1],
        ticket: TicketWords {
            relation: words[from + 2],
            order: words[from + 3],
            placed: words[from + 4],
            document: words[from + 5],
            first: words[from + 6],
            second: words[from + 7],
        },
    }
}

// Checks that the words make whole questions, or else refuses with Ragged, and that there are at
// most 32 of them, or else with Long.
// By hand, as others like it: a shared one would divide by a size that a caller names.
pub(crate) fn check_questions(words: &[u32]) -> Result<(), Refusal>
    ensures { answer_in result ≡ check_questions words.now }
{
    if words.len() % QUESTION_WORDS != 0 {
        return Err(Refusal::Ragged);
    }
    if MOST_QUESTIONS < question_count(words) {
        return Err(Refusal::Long);
    }
    Ok(())
}
