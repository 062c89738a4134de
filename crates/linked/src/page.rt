// A page of a listing, for a caller who lends the links of the ancestors.
ghost use Rattle.std.specs.Prelude.{◌≡◌, cond};
ghost use Rattle.answers.specs.Refusal.{verdict_of};
ghost use Rattle.answers.specs.Verdict.{refusedb};
ghost use Rattle.lists.specs.Two.{check_two};
ghost use Rattle.ticket_words.specs.Page.{shown_page};
ghost use Rattle.ticket_words.specs.Words.{ticket_of};
ghost use Rattle.linked.specs.Check.{unlinked};
ghost use Rattle.linked.specs.Page.{linked_page, linked_output};

use crate::told::are_links;
use answers::refusal::{Fault, Refusal};
use lists::two::check_two;
use pairs::jumping::jumping_page;
use pairs::page::Page;
use ticket_words::page::{PageWords, shown_page};
use ticket_words::words::TicketWords;
use tickets::ticket::Ticket;

// Returns why a call is refused whose links aren't those of the ancestors: the fault of the two
// lists, or LINKS.
fn refusal(ancestors: &[u32], descendants: &[u32]) -> Fault
    ensures { verdict_of result ≡ cond (refusedb (check_two ancestors.now descendants.now))
        (check_two ancestors.now descendants.now) unlinked }
{
    match check_two(ancestors, descendants) {
        Err(fault) => fault,
        Ok(()) => Refusal::Links.into(),
    }
}

// Returns the page that `next_page` returns, and writes what it writes, if `links` are the links of
// `ancestors`. It passes over a zone without descendants together with everything inside it. A
// refusal of the two lists comes first. Then words that aren't the links are refused with LINKS. A
// refused call hands out nothing, returns `ticket` and alters no word of `out`.
pub fn linked_page(
    ancestors: &[u32],
    descendants: &[u32],
    links: &[u32],
    ticket: Ticket,
    out: &mut [u32],
) -> Page
    ensures { record {
      answer : result ≡ linked_page ancestors.now descendants.now links.now ticket out.old;
      output : out.new ≡ linked_output ancestors.now descendants.now links.now ticket out.old;
    } }
{
    if are_links(ancestors, links) {
        return jumping_page(ancestors, descendants, links, ticket, out);
    }
    Page {
        verdict: refusal(ancestors, descendants).into(),
        count: 0,
        done: false,
        ticket: ticket,
    }
}

// Writes into `out` the page that `linked_page` hands out for the ticket that `words` stand for,
// and returns its answer.
pub fn list_linked(
    ancestors: &[u32],
    descendants: &[u32],
    links: &[u32],
    words: TicketWords,
    out: &mut [u32],
) -> PageWords
    ensures { record {
      answer : result ≡ shown_page words (linked_page ancestors.now descendants.now links.now (ticket_of words) out.old);
      output : out.new ≡ linked_output ancestors.now descendants.now links.now (ticket_of words) out.old;
    } }
{
    let asked = Ticket::from(words);
    shown_page(
        words,
        linked_page(ancestors, descendants, links, asked, out),
    )
}
