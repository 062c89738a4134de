// A page of a listing.
ghost use Rattle.std.specs.Prelude.{◌≡◌};
ghost use Rattle.pairs.specs.Page.{page_of, output_after};
ghost use Rattle.ticket_words.specs.Page.{shown_page};
ghost use Rattle.ticket_words.specs.Words.{ticket_of};

use ticket_words::page::{PageWords, list_page};
use ticket_words::words::TicketWords;

// Writes a page into `out` and returns its answer, as `list_page` does.
pub fn belfry_list(
    ancestors: &[u32],
    descendants: &[u32],
    words: TicketWords,
    out: &mut [u32],
) -> PageWords
    ensures { record {
      answer : result ≡ shown_page words (page_of ancestors.now descendants.now (ticket_of words) out.old);
      output : out.new ≡ output_after ancestors.now descendants.now (ticket_of words) out.old;
    } }
{
    list_page(ancestors, descendants, words, out)
}
