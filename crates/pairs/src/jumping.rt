// The page call with jumps: a zone in which no descendant lies is passed together with everything
// inside it.
ghost use Rattle.std.specs.Prelude.{◌≡◌};
ghost use Rattle.pairs.specs.Page.{page_of, output_after};

use crate::page::{Page, page_after};
use tickets::ticket::Ticket;

// Returns the page that `next_page` returns, and writes what it writes, whatever the words of
// `links` are. If they are the links of the ancestors, each zone in which no descendant lies is
// passed together with everything inside it.
pub fn jumping_page(
    ancestors: &[u32],
    descendants: &[u32],
    links: &[u32],
    ticket: Ticket,
    out: &mut [u32],
) -> Page
    ensures { record {
      answer : result ≡ page_of ancestors.now descendants.now ticket out.old;
      output : out.new ≡ output_after ancestors.now descendants.now ticket out.old;
    } }
{
    page_after::<true>(ancestors, descendants, links, ticket, out)
}
