// Several questions to one book. Each writes its page into the output from where the one before
// stopped.
ghost use Rattle.std.specs.Prelude.{◌≡◌, ◌*◌, ◌≤◌, length};
ghost use Rattle.answers.specs.Answer.{TAKEN};
ghost use Rattle.nodes.specs.Words.{NODE_WORDS, MOST_NODES};
ghost use Rattle.contents.specs.Contents.{lists_in};
ghost use Rattle.books.specs.Book.{book_verdict};
ghost use Rattle.questions.specs.Question.{MOST_QUESTIONS, question_count, questions_in};
ghost use Rattle.questions.specs.Ask.{no_page, refused_page, refused_pages, padded, page_to, output_to, pages_to, output_after_all, ask_of, ask_output};

use crate::question::{MOST_QUESTIONS, Question, check_questions, question_at, question_count};
use answers::answer::TAKEN;
use answers::refusal::Fault;
use answers::verdict::Verdict;
use books::book::check_book;
use joins::copy::{LIST_WORDS, copy_lists};
use pairs::page::next_page;
use ticket_words::page::{PageWords, shown_page};
use ticket_words::words::TicketWords;
use tickets::leader::PAIR_WORDS;
use tickets::ticket::Ticket;

// What a call answers. `answer` is the whole call's, and `questions` is how many questions it
// answered, 0 if it is refused as a whole. Each question has its page, in order; the pages after
// the last question are all zeros.
#[repr(C)]
#[derive(Clone, Copy)]
pub struct Pages {
    pub answer: u32,
    pub questions: u32,
    pub pages: [PageWords; MOST_QUESTIONS],
}

// Returns the page of a question that is refused with `verdict`. It keeps its ticket.
fn refused_page(verdict: Verdict, ticket: TicketWords) -> PageWords
    ensures { result ≡ refused_page verdict ticket }
{
    PageWords {
        verdict,
        done: 0,
        count: 0,
        ticket,
    }
}

// Returns a page of zeros, for where there is no question.
// By hand: a `Default` would promise zeros of three of C's structs, and no caller needs that.
fn no_page() -> PageWords
    ensures { result ≡ no_page }
{
    let ticket = TicketWords {
        relation: 0,
        order: 0,
        placed: 0,
        document: 0,
        first: 0,
        second: 0,
    };
    refused_page(Ok(()).into(), ticket)
}

// Returns the pages of a call that refuses each of its first 32 questions with `verdict`.
fn refuse_all(questions: &[u32], verdict: Verdict) -> [PageWords; MOST_QUESTIONS]
    ensures { result ≡ padded (refused_pages verdict (questions_in questions.now)) }
{
    let none = no_page();
    let mut pages = [none; MOST_QUESTIONS];
    // Rests on Padding: padded_next, padded_all, padded_full.
    for index in 0..question_count(questions).min(MOST_QUESTIONS) {
        let question = question_at(questions, index);
        pages[index] = refused_page(verdict, question.ticket);
    }
    pages
}

// Returns the page of one question to a checked book with `lists` lists, and writes its pairs to
// the beginning of `out`. The page call takes words, so the question's two lists are copied to
// `first` and `second`.
fn answer_one(
    book: &[u8],
    lists: u32,
    question: Question,
    first: &mut [u32],
    second: &mut [u32],
    out: &mut [u32],
) -> PageWords
    requires { ((book_verdict book.now).answer ≡ TAKEN) × (lists ≡ lists_in book.now)
        × (NODE_WORDS * MOST_NODES ≤ length first.old) × (NODE_WORDS * MOST_NODES ≤ length second.old) }
    ensures { record {
      answer : result ≡ page_to book.now question out.old;
      output : out.new ≡ output_to book.now question out.old;
    } }
{
    let ticket = question.ticket;
    let copied = copy_lists(
        book,
        lists,
        question.ancestors,
        question.descendants,
        first,
        second,
    );
    match copied {
        Ok(lengths) => {
            let page = next_page(
                &first[0..lengths.ancestors],
                &second[0..lengths.descendants],
                Ticket::from(ticket),
                out,
            );
            shown_page(ticket, page)
        }
        Err(refusal) => refused_page(Fault::from(refusal).into(), ticket),
    }
}

// Asks a checked book all questions, each in turn, and returns their pages. A question is lent the
// rest of the output from where the one before stopped.
fn answer_all(
    book: &[u8],
    lists: u32,
    questions: &[u32],
    first: &mut [u32],
    second: &mut [u32],
    out: &mut [u32],
) -> [PageWords; MOST_QUESTIONS]
    requires { ((book_verdict book.now).answer ≡ TAKEN) × (lists ≡ lists_in book.now) × (question_count questions.now ≤ MOST_QUESTIONS)
        × (NODE_WORDS * MOST_NODES ≤ length first.old) × (NODE_WORDS * MOST_NODES ≤ length second.old) }
    ensures { record {
      answer : result ≡ padded (pages_to book.now (questions_in questions.now) out.old);
      output : out.new ≡ output_after_all book.now (questions_in questions.now) out.old;
    } }
{
    let none = no_page();
    let mut pages = [none; MOST_QUESTIONS];
    let mut from = 0;
    // Rests on Turns: first_turn, next_turn, last_turn.
    for index in 0..question_count(questions) {
        let question = question_at(questions, index);
        let page = answer_one(book, lists, question, first, second, &mut out[from..]);
        pages[index] = page;
        from += PAIR_WORDS * page.count;
    }
    pages
}

// Asks a checked book all questions, with words of its own for the copies of two lists.
fn answer_book(
    book: &[u8],
    lists: u32,
    questions: &[u32],
    out: &mut [u32],
) -> [PageWords; MOST_QUESTIONS]
    requires { ((book_verdict book.now).answer ≡ TAKEN) × (lists ≡ lists_in book.now) × (question_count questions.now ≤ MOST_QUESTIONS) }
    ensures { record {
      answer : result ≡ padded (pages_to book.now (questions_in questions.now) out.old);
      output : out.new ≡ output_after_all book.now (questions_in questions.now) out.old;
    } }
{
    let mut first = [0u32; LIST_WORDS];
    let mut second = [0u32; LIST_WORDS];
    answer_all(book, lists, questions, &mut first, &mut second, out)
}

// Asks `book` the `questions`, eight words each: the tag of the ancestors, the tag of the
// descendants and a ticket. Each in turn writes its page into `out` from where the one before
// stopped, and has all the room left. A question that is refused writes nothing and takes no room.
// Words that don't make whole questions, or more than 32 questions, refuse the whole call. The book
// is checked once.
pub fn ask(book: &[u8], questions: &[u32], out: &mut [u32]) -> Pages
    ensures { record {
      answer : result ≡ ask_of book.now questions.now out.old;
      output : out.new ≡ ask_output book.now questions.now out.old;
    } }
{
    if let Err(refusal) = check_questions(questions) {
        return Pages {
            answer: refusal.into(),
            questions: 0,
            pages: refuse_all(questions, Fault::from(refusal).into()),
        };
    }
    let pages = match check_book(book) {
        Ok(lists) => answer_book(book, lists, questions, out),
        Err(fault) => refuse_all(questions, fault.into()),
    };
    Pages {
        answer: TAKEN,
        questions: question_count(questions) as u32,
        pages,
    }
}
