// Picks the list of a tag's nodes out of a table.
ghost use Rattle.std.specs.Prelude.{◌≡◌, ◌≤◌, length};
ghost use Rattle.nodes.specs.Words.{count};
ghost use Rattle.answers.specs.Output.{written};
ghost use Rattle.answers.specs.Refusal.{counted_in};
ghost use Rattle.marks.specs.Outcome.{nodes_with, picked_words, pick_outcome, pick_output};
ghost use Rattle.marks.specs.Table.{rows};

use crate::row::{check_rows, row_at, row_count};
use answers::refusal::{Fault, Refusal};
use nodes::node::{node_count, put_node};

// Returns how many rows of `table` have the tag `tag`.
fn count_tag(table: &[u32], tag: u32) -> usize
    ensures { result ≡ length (nodes_with tag (rows table.now)) }
{
    let mut found = 0;
    // By hand: a chain of filter and count takes 13.5 instructions a row, and this loop 10.3.
    // Rests on Picking: firsts_yes, firsts_no, firsts_all.
    for index in 0..row_count(table) {
        let row = row_at(table, index);
        if row.tag == tag {
            found += 1;
        }
    }
    found
}

// Writes the nodes of the rows with the tag `tag` into `out`, one after the other.
fn put_tag(table: &[u32], tag: u32, out: &mut [u32])
    requires { length (nodes_with tag (rows table.now)) ≤ count out.old }
    ensures { out.new ≡ written (picked_words tag table.now) out.old }
{
    let mut found = 0;
    // Rests on Picking: firsts_yes, firsts_no, firsts_all.
    for index in 0..row_count(table) {
        let row = row_at(table, index);
        if row.tag == tag {
            put_node(out, found, row.node);
            found += 1;
        }
    }
}

// Copies words one to four of every row that has the tag `tag` into `out`, in the order of the
// rows, and returns the number of nodes. On refusal `out` stays as it was. The rows may be any.
pub fn pick(table: &[u32], tag: u32, out: &mut [u32]) -> Result<usize, Fault>
    ensures { record {
      answer : counted_in result ≡ pick_outcome table.now tag out.old;
      output : out.new ≡ pick_output table.now tag out.old;
    } }
{
    check_rows(table)?;
    let found = count_tag(table, tag);
    if node_count(out) < found {
        return Err(Refusal::Room.into());
    }
    put_tag(table, tag, out);
    Ok(found)
}
