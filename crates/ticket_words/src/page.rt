// A page of a listing, for callers that keep a ticket as six words.
ghost use Rattle.std.specs.Prelude.{◌≡◌};
ghost use Rattle.pairs.specs.Page.{page_of, output_after};
ghost use Rattle.ticket_words.specs.Page.{shown_page};
ghost use Rattle.ticket_words.specs.Words.{ticket_of};

use crate::words::{TicketWords, ticket_back};
use answers::verdict::Verdict;
use pairs::page::{Page, next_page};
use tickets::ticket::Ticket;

// What a page call answers: the verdict on its two lists, `done`, the number of pairs it wrote, and
// the words of the ticket for the next page. `done` is 1 if the call wrote all that remained;
// otherwise it is 0.
#[repr(C)]
#[derive(Clone, Copy)]
pub struct PageWords {
    pub verdict: Verdict,
    pub done: u32,
    pub count: usize,
    pub ticket: TicketWords,
}

// Returns `page` with its ticket in words, for a call with the ticket `words`.
pub fn shown_page(words: TicketWords, page: Page) -> PageWords
    ensures { result ≡ shown_page words page }
{
    let verdict = page.verdict;
    let next = page.ticket;
    let place = next.place;
    PageWords {
        verdict: verdict,
        done: u32::from(page.done),
        count: page.count,
        ticket: ticket_back(words, page.count, place),
    }
}

// Writes into `out` the page that `next_page` hands out for the ticket that `words` stand for, and
// returns its answer.
pub fn list_page(
    ancestors: &[u32],
    descendants: &[u32],
    words: TicketWords,
    out: &mut [u32],
) -> PageWords
    ensures { record {
      answer : result ≡ shown_page words (page_of ancestors.now descendants.now (ticket_of words) out.old);
      output : out.new ≡ output_after ancestors.now descendants.now (ticket_of words) out.old;
    } }
{
    let asked = Ticket::from(words);
    shown_page(words, next_page(ancestors, descendants, asked, out))
}
