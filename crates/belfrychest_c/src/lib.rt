// The C interface: each function of the crate belfrychest under a name that C can call. Each calls
// that crate's function of the same name and promises the same, in the same words.
#![tactic(auto)]

ghost use Rattle.std.specs.Prelude.{◌≡◌};
ghost use Rattle.belfrychest.specs.Version.{VERSION};
ghost use Rattle.answers.specs.Answer.{name_of};
ghost use Rattle.lists.specs.Check.{check_words};
ghost use Rattle.lists.specs.Two.{check_two};
ghost use Rattle.belfrychest.specs.Shown.{shown_part, shown_range};
ghost use Rattle.pairs.specs.Page.{page_of, output_after};
ghost use Rattle.ticket_words.specs.Page.{shown_page};
ghost use Rattle.ticket_words.specs.Words.{ticket_of};
ghost use Rattle.linked.specs.Check.{check_links};
ghost use Rattle.linked.specs.Page.{linked_page, linked_output};
ghost use Rattle.forest.specs.Linked.{linked_of, links_output};
ghost use Rattle.marks.specs.Outcome.{number_outcome, number_output, unnumber_outcome, unnumber_output, pick_outcome, pick_output};
ghost use Rattle.sheets.specs.Sheet.{sheet_of, sheet_output};
ghost use Rattle.ranges.specs.Range.{zone_range};
ghost use Rattle.questions.specs.Ask.{ask_of, ask_output};
ghost use Rattle.books.specs.Book.{check_book};
ghost use Rattle.books.specs.Find.{found_tag};
ghost use Rattle.writing.specs.WriteCall.{written_of, written_output};

use answers::verdict::{Counted, Verdict};
use belfrychest::list::BelfryPart;
use belfrychest::range::BelfryRange;
use books::book::Opened;
use books::find::Found;
use marks::unnumber::Unnumbered;
use questions::ask::Pages;
use ticket_words::page::PageWords;
use ticket_words::words::TicketWords;

// Returns the number of the interface that this archive was built with.
#[unsafe(no_mangle)]
pub extern "C" fn belfry_version() -> u32
    ensures { result ≡ VERSION }
{
    belfrychest::version::belfry_version()
}

// Writes the eight bytes that `name_of` returns for `answer` into `out`.
#[unsafe(no_mangle)]
pub extern "C" fn belfry_name(answer: u32, out: &mut [u8; 8])
    ensures { out.new ≡ name_of answer }
{
    belfrychest::name::belfry_name(answer, out);
}

// Checks `list` and returns the verdict of `check_list`.
#[unsafe(no_mangle)]
pub extern "C" fn belfry_check(list: &[u32]) -> Verdict
    ensures { result ≡ check_words list.now }
{
    belfrychest::list::belfry_check(list)
}

// Checks `ancestors` and `descendants` together and returns the verdict of `check_two`.
#[unsafe(no_mangle)]
pub extern "C" fn belfry_check_two(ancestors: &[u32], descendants: &[u32]) -> Verdict
    ensures { result ≡ check_two ancestors.now descendants.now }
{
    belfrychest::list::belfry_check_two(ancestors, descendants)
}

// Returns the verdict on `ancestors` and `descendants`, and the place of the part that
// `faulty_part` returns.
#[unsafe(no_mangle)]
pub extern "C" fn belfry_faulty<'a>(ancestors: &'a [u32], descendants: &'a [u32]) -> BelfryPart
    ensures { result ≡ shown_part ancestors.now descendants.now }
{
    belfrychest::list::belfry_faulty(ancestors, descendants)
}

// Writes a page into `out` and returns its answer, as `list_page` does.
#[unsafe(no_mangle)]
pub extern "C" fn belfry_list(
    ancestors: &[u32],
    descendants: &[u32],
    words: TicketWords,
    out: &mut [u32],
) -> PageWords
    ensures { record {
      answer : result ≡ shown_page words (page_of ancestors.now descendants.now (ticket_of words) out.old);
      output : out.new ≡ output_after ancestors.now descendants.now (ticket_of words) out.old;
    } }
{
    belfrychest::page::belfry_list(ancestors, descendants, words, out)
}

// Checks `links` against `list` and returns the verdict of `check_links`.
#[unsafe(no_mangle)]
pub extern "C" fn belfry_links_check(list: &[u32], links: &[u32]) -> Verdict
    ensures { result ≡ check_links list.now links.now }
{
    belfrychest::lent::belfry_links_check(list, links)
}

// Writes a page into `out` and returns its answer, as `list_linked` does.
#[unsafe(no_mangle)]
pub extern "C" fn belfry_list_linked(
    ancestors: &[u32],
    descendants: &[u32],
    links: &[u32],
    words: TicketWords,
    out: &mut [u32],
) -> PageWords
    ensures { record {
      answer : result ≡ shown_page words (linked_page ancestors.now descendants.now links.now (ticket_of words) out.old);
      output : out.new ≡ linked_output ancestors.now descendants.now links.now (ticket_of words) out.old;
    } }
{
    belfrychest::lent::belfry_list_linked(ancestors, descendants, links, words, out)
}

// Numbers `marks` as `document` and writes the table into `out`, as `number` does.
#[unsafe(no_mangle)]
pub extern "C" fn belfry_number(document: u32, marks: &[u32], out: &mut [u32]) -> Counted
    ensures { record {
      answer : result ≡ number_outcome document marks.now out.old;
      output : out.new ≡ number_output document marks.now out.old;
    } }
{
    belfrychest::table::belfry_number(document, marks, out)
}

// Writes the marks of `table` into `out`, as `unnumber` does.
#[unsafe(no_mangle)]
pub extern "C" fn belfry_unnumber(table: &[u32], out: &mut [u32]) -> Unnumbered
    ensures { record {
      answer : result ≡ unnumber_outcome table.now out.old;
      output : out.new ≡ unnumber_output table.now out.old;
    } }
{
    belfrychest::table::belfry_unnumber(table, out)
}

// Picks the nodes with `tag` out of `table` and writes them into `out`, as `pick` does.
#[unsafe(no_mangle)]
pub extern "C" fn belfry_pick(table: &[u32], tag: u32, out: &mut [u32]) -> Counted
    ensures { record {
      answer : result ≡ pick_outcome table.now tag out.old;
      output : out.new ≡ pick_output table.now tag out.old;
    } }
{
    belfrychest::table::belfry_pick(table, tag, out)
}

// Links the nodes of `list` and writes the links into `out`, as `link_list` does.
#[unsafe(no_mangle)]
pub extern "C" fn belfry_links(list: &[u32], out: &mut [u32]) -> Counted
    ensures { record {
      answer : result ≡ linked_of list.now out.old;
      output : out.new ≡ links_output list.now out.old;
    } }
{
    belfrychest::table::belfry_links(list, out)
}

// Writes the sheet of `zones`, `samples` and `hundredths` into `out`, as `write_sheet` does.
#[unsafe(no_mangle)]
pub extern "C" fn belfry_sheet(
    zones: &[u32],
    samples: &[u32],
    hundredths: &[u32],
    out: &mut [u32],
) -> Counted
    ensures { record {
      answer : result ≡ sheet_of zones.now samples.now hundredths.now out.old;
      output : out.new ≡ sheet_output zones.now samples.now hundredths.now out.old;
    } }
{
    belfrychest::sheet::belfry_sheet(zones, samples, hundredths, out)
}

// Returns the low and the high of the readings in the zone at index `zone`, as `zone_range` does.
#[unsafe(no_mangle)]
pub extern "C" fn belfry_zone_range(
    zones: &[u32],
    samples: &[u32],
    readings: &[u32],
    zone: u32,
) -> BelfryRange
    ensures { result ≡ shown_range (zone_range zones.now samples.now readings.now zone) }
{
    belfrychest::range::belfry_zone_range(zones, samples, readings, zone)
}

// Asks `book` the `questions`, writes their pages into `out`, and returns what `ask` returns.
#[unsafe(no_mangle)]
pub extern "C" fn belfry_ask(book: &[u8], questions: &[u32], out: &mut [u32]) -> Pages
    ensures { record {
      answer : result ≡ ask_of book.now questions.now out.old;
      output : out.new ≡ ask_output book.now questions.now out.old;
    } }
{
    belfrychest::ask::belfry_ask(book, questions, out)
}

// Checks `book` and returns what `check_book` returns.
#[unsafe(no_mangle)]
pub extern "C" fn belfry_book_check(book: &[u8]) -> Opened
    ensures { result ≡ check_book book.now }
{
    belfrychest::book::belfry_book_check(book)
}

// Returns where the body of the list with `tag` lies in `book`, as `find_tag` does.
#[unsafe(no_mangle)]
pub extern "C" fn belfry_book_body(book: &[u8], tag: u32) -> Found
    ensures { result ≡ found_tag book.now tag }
{
    belfrychest::book::belfry_book_body(book, tag)
}

// Writes the book of `entries` and `nodes` into `out`, and returns what `write_book` returns.
#[unsafe(no_mangle)]
pub extern "C" fn belfry_book_write(entries: &[u32], nodes: &[u32], out: &mut [u8]) -> Counted
    ensures { record {
      answer : result ≡ written_of entries.now nodes.now out.old;
      output : out.new ≡ written_output entries.now nodes.now out.old;
    } }
{
    belfrychest::book::belfry_book_write(entries, nodes, out)
}
