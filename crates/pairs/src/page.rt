// A page of a listing.
ghost use Rattle.std.specs.Prelude.{◌≡◌, ◌≤◌};
ghost use Rattle.answers.specs.Answer.{TAKEN};
ghost use Rattle.nodes.specs.Words.{nodes, count};
ghost use Rattle.lists.specs.Two.{check_two};
ghost use Rattle.tickets.specs.PairWords.{room};
ghost use Rattle.tickets.specs.Ticket.{asked_by, ticket_at};
ghost use Rattle.pairs.specs.Page.{page_of, output_after};
ghost use Rattle.pairs.specs.Private.Sweep.{Started, key_in, place_reached, served_all};

use crate::ancestors::sweep_ancestors;
use crate::descendants::sweep_descendants;
use crate::groups::Handed;
use answers::verdict::Verdict;
use lists::two::check_two;
use nodes::node::node_at;
use tickets::leader::{past_from, served_count};
use tickets::ticket::{Key, Order, Place, Ticket};

// What a page call answers: the verdict on its two lists, the number of pairs it wrote, whether
// that was all that remained, and the ticket for the next page.
// By hand: a refused page hands its ticket back too, so it is no Result.
#[derive(Clone, Copy)]
pub struct Page {
    pub verdict: Verdict,
    pub count: usize,
    pub done: bool,
    pub ticket: Ticket,
}

// Returns the index of the leader with which a sweep for `place` begins, and the least start of its
// followers that are left.
fn start_of(place: Place, leaders: &[u32]) -> (usize, u64)
    ensures { Started place leaders.now result.0 result.1 × (result.0 ≤ count leaders.now) }
{
    let first = served_count(place, leaders);
    (first, past_from(place, node_at(leaders, first)))
}

// Hands out what remains of the listing that `ticket` asks for, as much as fits into `out`.
#[inline(always)]
fn sweep<const JUMPS: bool>(
    ancestors: &[u32],
    descendants: &[u32],
    links: &[u32],
    ticket: Ticket,
    out: &mut [u32],
) -> Handed
    requires { (check_two ancestors.now descendants.now).answer ≡ TAKEN }
    ensures { (out.new, result.count, result.done) ≡ served_all (asked_by ticket) ticket.place
        out.old ancestors.now descendants.now }
{
    let relation = ticket.relation;
    match ticket.order {
        Order::Descendant => {
            let (first, past) = start_of(ticket.place, descendants);
            sweep_descendants::<JUMPS>(ancestors, descendants, links, relation, first, past, out)
        }
        Order::Ancestor => {
            let (first, past) = start_of(ticket.place, ancestors);
            sweep_ancestors::<JUMPS>(ancestors, descendants, links, relation, first, past, out)
        }
    }
}

// Returns the key of the pair at `index` of the output `out`.
fn key_at(order: Order, out: &[u32], index: usize) -> Key
    requires { index ≤ room out.now }
    ensures { result ≡ key_in order (nodes out.now) index }
{
    let ancestor = node_at(out, 2 * index);
    let descendant = node_at(out, 2 * index + 1);
    match order {
        Order::Descendant => Key {
            document: descendant.document,
            leader: descendant.start,
            follower: ancestor.start,
        },
        Order::Ancestor => Key {
            document: ancestor.document,
            leader: ancestor.start,
            follower: descendant.start,
        },
    }
}

// Returns the ticket after `count` pairs were written to `out`. Its place is the key of the last of
// them, or the place of `old` when there was none.
fn ticket_after(old: Ticket, out: &[u32], count: usize) -> Ticket
    requires { count ≤ room out.now }
    ensures { result ≡ ticket_at (asked_by old) (place_reached old.order old.place (nodes out.now) count) }
{
    if count == 0 {
        return old;
    }
    let key = key_at(old.order, out, count - 1);
    Ticket {
        place: Place::After(key),
        ..old
    }
}

// Returns the next page of a listing and writes its pairs into `out`, for each of the two calls.
// With `JUMPS` each zone in which no descendant lies is passed together with everything inside it,
// as `links` tell.
#[inline(always)]
pub(crate) fn page_after<const JUMPS: bool>(
    ancestors: &[u32],
    descendants: &[u32],
    links: &[u32],
    ticket: Ticket,
    out: &mut [u32],
) -> Page
    ensures { record {
      answer : result ≡ page_of ancestors.now descendants.now ticket out.old;
      output : out.new ≡ output_after ancestors.now descendants.now ticket out.old;
    } }
{
    if let Err(fault) = check_two(ancestors, descendants) {
        return Page {
            verdict: fault.into(),
            count: 0,
            done: false,
            ticket,
        };
    }
    let handed = sweep::<JUMPS>(ancestors, descendants, links, ticket, out);
    Page {
        verdict: Ok(()).into(),
        count: handed.count,
        done: handed.done,
        ticket: ticket_after(ticket, out, handed.count),
    }
}

// Returns the next page of a listing: the first pairs past the place of `ticket`, as many as `out`
// holds, and a ticket for what is left. A call whose lists are refused hands out nothing, returns
// `ticket` and alters no word of `out`.
#[inline(always)]
pub fn next_page(ancestors: &[u32], descendants: &[u32], ticket: Ticket, out: &mut [u32]) -> Page
    ensures { record {
      answer : result ≡ page_of ancestors.now descendants.now ticket out.old;
      output : out.new ≡ output_after ancestors.now descendants.now ticket out.old;
    } }
{
    page_after::<false>(ancestors, descendants, &[], ticket, out)
}
