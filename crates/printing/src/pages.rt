// Prints a listing page by page.
ghost use Rattle.std.specs.Prelude.{◌≡◌, ◌*◌, ◌≤◌, ◌<◌, length, take};
ghost use Rattle.nodes.specs.Words.{nodes};
ghost use Rattle.answers.specs.Output.{words_in};
ghost use Rattle.answers.specs.Refusal.{answer_in};
ghost use Rattle.lists.specs.Two.{check_two};
ghost use Rattle.tickets.specs.declared.ticket.Order.TheVariants.{Descendant};
ghost use Rattle.tickets.specs.declared.ticket.Relation.TheVariants.{Inside};
ghost use Rattle.tickets.specs.Listing.{listing};
ghost use Rattle.tickets.specs.PairWords.{room};
ghost use Rattle.tickets.specs.Ticket.{asked};
ghost use Rattle.pairs.specs.Page.{handed_out, page_of};
ghost use Rattle.lines.specs.Line.{LINE_BYTES, pair_line};
ghost use Rattle.printing.specs.Private.Printed.{CountsAll};

use answers::answer::TAKEN;
use answers::refusal::Refusal;
use lines::line::{LINE_BYTES, NOTE_BYTES, put_lines, put_refusal, put_total};
use lists::two::check_two;
use pairs::page::{Page, next_page};
use std::io::Stdout;
use tickets::leader::PAIR_WORDS;
use tickets::ticket::{Order, Relation, Ticket, fresh};

// How many pairs are printed at a time. A full page is written in one block of 24 to 135 thousand
// bytes. Each page checks both lists again, so larger pages cost less, but their buffers are
// cleared at the start. This size takes 266,240 bytes of stack, out of 458,753 for all arrays of
// the program.
const PAGE_PAIRS: usize = 4096;

// A page of a listing, and how many bytes its lines have.
#[derive(Clone, Copy)]
struct Lines {
    page: Page,
    bytes: usize,
}

// Prints the line of `refusal`, and returns `refusal`. Where standard output can't be written,
// nothing more is tried.
pub(crate) fn print_refusal(stdout: Stdout, refusal: Refusal) -> Refusal
    ensures { result ≡ refusal }
{
    let mut text = [0u8; NOTE_BYTES];
    let bytes = put_refusal(refusal.into(), &mut text);
    let _ = stdout.write_all(&text[..bytes]);
    refusal
}

// Prints the last line, with `count`, the number of all pairs.
fn print_total(stdout: Stdout, count: u64) {
    let mut text = [0u8; NOTE_BYTES];
    let bytes = put_total(count, &mut text);
    let _ = stdout.write_all(&text[..bytes]);
}

// Makes the next page of the listing in `out`. Then `text` begins with the lines of exactly those
// pairs that the page hands out.
fn make_lines(
    ancestors: &[u32],
    descendants: &[u32],
    ticket: Ticket,
    out: &mut [u32],
    text: &mut [u8],
) -> Lines
    requires { LINE_BYTES * room out.old ≤ length text.old }
    ensures { record {
      page : result.page ≡ page_of ancestors.now descendants.now ticket out.old;
      bytes : result.bytes ≤ length text.new;
      lines : take result.bytes text.new ≡ words_in pair_line (handed_out ancestors.now descendants.now ticket out.old);
    } }
{
    let page = next_page(ancestors, descendants, ticket, out);
    let words = PAIR_WORDS * page.count;
    let bytes = put_lines(&out[..words], text);
    Lines { page, bytes }
}

// Prints the lines of all pairs of two lists, page by page, and makes each page in the two buffers.
// Returns the number of pairs once all are printed, or None where standard output can't be written.
fn print_pairs(
    stdout: Stdout,
    ancestors: &[u32],
    descendants: &[u32],
    out: &mut [u32],
    text: &mut [u8],
) -> Result<Option<u64>, Refusal>
    requires { (0 < room out.old) × (LINE_BYTES * room out.old ≤ length text.old) }
    ensures { record {
      answer : answer_in result ≡ (check_two ancestors.now descendants.now).answer;
      count : CountsAll result (length (listing (asked Inside Descendant) (nodes ancestors.now) (nodes descendants.now)));
    } }
{
    let mut ticket = fresh(Relation::Inside, Order::Descendant);
    let mut count = 0u64;
    // Rests on Counting: counted_more, counted_less, counted_all.
    loop {
        let lines = make_lines(ancestors, descendants, ticket, out, text);
        let page = lines.page;
        if page.verdict.answer != TAKEN {
            // By hand: the page has C's verdict, with a number. The check, which refuses here too,
            // says which refusal that is.
            check_two(ancestors, descendants).map_err(|fault| fault.refusal)?;
            return Ok(None);
        }
        if stdout.write_all(&text[..lines.bytes]).is_err() {
            return Ok(None);
        }
        count += page.count as u64;
        if page.done {
            return Ok(Some(count));
        }
        ticket = page.ticket;
    }
}

// Prints the pairs of two lists and their number, and returns their refusal, if there is one.
fn print_all(
    stdout: Stdout,
    ancestors: &[u32],
    descendants: &[u32],
    out: &mut [u32],
    text: &mut [u8],
) -> Result<(), Refusal>
    requires { (0 < room out.old) × (LINE_BYTES * room out.old ≤ length text.old) }
    ensures { answer_in result ≡ (check_two ancestors.now descendants.now).answer }
{
    if let Some(count) = print_pairs(stdout, ancestors, descendants, out, text)? {
        print_total(stdout, count);
    }
    Ok(())
}

// Prints the pairs of two lists, and returns their refusal, JOINT or another, if there is one.
pub(crate) fn print_pages(
    stdout: Stdout,
    ancestors: &[u32],
    descendants: &[u32],
) -> Result<(), Refusal>
    ensures { answer_in result ≡ (check_two ancestors.now descendants.now).answer }
{
    let mut out = [0u32; PAIR_WORDS * PAGE_PAIRS];
    let mut text = [0u8; LINE_BYTES * PAGE_PAIRS];
    print_all(stdout, ancestors, descendants, &mut out, &mut text)
}
