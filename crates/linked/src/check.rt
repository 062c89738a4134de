// The check of the links of one list.
ghost use Rattle.std.specs.Prelude.{◌≡◌};
ghost use Rattle.answers.specs.Refusal.{verdict_in};
ghost use Rattle.linked.specs.Check.{check_links};

use crate::told::are_links;
use answers::refusal::{Fault, Refusal};
use lists::list::check_list;

// Checks `list` as `check_list` does, and then `links`: they are refused as LINKS unless they are
// the links that `link_list` writes for it.
pub fn check_links(list: &[u32], links: &[u32]) -> Result<(), Fault>
    ensures { verdict_in result ≡ check_links list.now links.now }
{
    check_list(list)?;
    if are_links(list, links) {
        return Ok(());
    }
    Err(Refusal::Links.into())
}
