// Numbering marks, turning a table back into marks, picking a tag, and the links of a list.
ghost use Rattle.std.specs.Prelude.{◌≡◌};
ghost use Rattle.forest.specs.Linked.{linked_of, links_output};
ghost use Rattle.marks.specs.Outcome.{number_outcome, number_output, unnumber_outcome, unnumber_output, pick_outcome, pick_output};

use answers::verdict::Counted;
use forest::forest::link_list;
use marks::number::number;
use marks::pick::pick;
use marks::unnumber::{Unnumbered, unnumber};

// Numbers `marks` as `document` and writes the table into `out`, as `number` does.
pub fn belfry_number(document: u32, marks: &[u32], out: &mut [u32]) -> Counted
    ensures { record {
      answer : result ≡ number_outcome document marks.now out.old;
      output : out.new ≡ number_output document marks.now out.old;
    } }
{
    number(document, marks, out).into()
}

// Writes the marks of `table` into `out`, as `unnumber` does.
pub fn belfry_unnumber(table: &[u32], out: &mut [u32]) -> Unnumbered
    ensures { record {
      answer : result ≡ unnumber_outcome table.now out.old;
      output : out.new ≡ unnumber_output table.now out.old;
    } }
{
    unnumber(table, out).into()
}

// Picks the nodes with `tag` out of `table` and writes them into `out`, as `pick` does.
pub fn belfry_pick(table: &[u32], tag: u32, out: &mut [u32]) -> Counted
    ensures { record {
      answer : result ≡ pick_outcome table.now tag out.old;
      output : out.new ≡ pick_output table.now tag out.old;
    } }
{
    pick(table, tag, out).into()
}

// Links the nodes of `list` and writes the links into `out`, as `link_list` does.
pub fn belfry_links(list: &[u32], out: &mut [u32]) -> Counted
    ensures { record {
      answer : result ≡ linked_of list.now out.old;
      output : out.new ≡ links_output list.now out.old;
    } }
{
    link_list(list, out).into()
}
