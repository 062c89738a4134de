// Links that a caller lends: their check, and a page of a listing that uses them.
ghost use Rattle.std.specs.Prelude.{◌≡◌};
ghost use Rattle.linked.specs.Check.{check_links};
ghost use Rattle.linked.specs.Page.{linked_page, linked_output};
ghost use Rattle.ticket_words.specs.Page.{shown_page};
ghost use Rattle.ticket_words.specs.Words.{ticket_of};

use answers::verdict::Verdict;
use linked::check::check_links;
use linked::page::list_linked;
use ticket_words::page::PageWords;
use ticket_words::words::TicketWords;

// Checks `links` against `list` and returns the verdict of `check_links`.
pub fn belfry_links_check(list: &[u32], links: &[u32]) -> Verdict
    ensures { result ≡ check_links list.now links.now }
{
    check_links(list, links).into()
}

// Writes a page into `out` and returns its answer, as `list_linked` does.
pub fn belfry_list_linked(
    ancestors: &[u32],
    descendants: &[u32],
    links: &[u32],
    words: TicketWords,
    out: &mut [u32],
) -> PageWords
    ensures { record {
      answer : result ≡ shown_page words (linked_page ancestors.now descendants.now links.now (ticket_of words) out.old);
      output : out.new ≡ linked_output ancestors.now descendants.now links.now (ticket_of words) out.old;
    } }
{
    list_linked(ancestors, descendants, links, words, out)
}
