// Numbers a document's marks into the rows of its table.
ghost use Rattle.std.specs.Prelude.{◌≡◌, ◌/◌, ◌≤◌, ◌<◌, length};
ghost use Rattle.answers.specs.Answer.{TAKEN};
ghost use Rattle.answers.specs.Refusal.{counted_in};
ghost use Rattle.nodes.specs.Node.{MOST_LEVELS};
ghost use Rattle.answers.specs.Output.{written};
ghost use Rattle.marks.specs.Mark.{CLOSE, TEXT, check_marks};
ghost use Rattle.marks.specs.Outcome.{number_outcome, number_output};
ghost use Rattle.marks.specs.Table.{ROW_WORDS, table_words};
ghost use Rattle.marks.specs.Private.Walk.{before_mark, closes_before, output_before, row_count};

use crate::back::{before_node, keep_close, row_here};
use crate::mark::{CLOSE, MarkPlace, pass_marks};
use crate::row::{put_row, row_count};
use answers::refusal::{Fault, Refusal};
use nodes::node::{MOST_LEVELS, MOST_NODES};

// Goes back over `mark`: keeps a close in `closes`, and writes the row of any other mark into `out`
// as the last of the rows still to be written. Returns the place before the mark.
fn write_mark(
    document: u32,
    position: u32,
    mark: u32,
    closes: &mut [u32; MOST_LEVELS],
    place: MarkPlace,
    out: &mut [u32],
) -> MarkPlace
    requires { (mark ≡ CLOSE → place.depth < MOST_LEVELS) × ((mark ≡ CLOSE → ⊥) → (0 < place.rows) × ((mark ≡ TEXT → ⊥) → 0 < place.depth))
        × (place.depth ≤ MOST_LEVELS) × (place.rows ≤ length out.old / ROW_WORDS) }
    ensures { record {
      answer : result ≡ before_mark place mark;
      output : out.new ≡ output_before document position closes.old place mark out.old;
      closes : closes.new ≡ closes_before closes.old position place.depth mark;
    } }
{
    if mark == CLOSE {
        return keep_close(closes, position, place);
    }
    put_row(
        out,
        place.rows - 1,
        row_here(document, position, closes, place.depth, mark),
    );
    before_node(place, mark)
}

// Writes the rows of accepted marks into `out`, the last one first.
fn write_rows(document: u32, marks: &[u32], rows: usize, out: &mut [u32])
    requires { (check_marks marks.now ≡ TAKEN) × (rows ≡ row_count marks.now) × (rows ≤ length out.old / ROW_WORDS) }
    ensures { out.new ≡ written (table_words document marks.now) out.old }
{
    let mut closes = [0u32; MOST_LEVELS];
    let mut place = MarkPlace { depth: 0, rows };
    // Rests on Backward: back_on, back_end.
    for before in (0..marks.len()).rev() {
        let position = before as u32 + 1;
        place = write_mark(document, position, marks[before], &mut closes, place, out);
    }
}

// Writes the rows of a document's nodes into `out`, in start order, and returns their number. On
// refusal `out` stays as it was.
pub fn number(document: u32, marks: &[u32], out: &mut [u32]) -> Result<usize, Fault>
    ensures { record {
      answer : counted_in result ≡ number_outcome document marks.now out.old;
      output : out.new ≡ number_output document marks.now out.old;
    } }
{
    if MOST_NODES < marks.len() {
        return Err(Refusal::Long.into());
    }
    let rows = pass_marks(marks)?.rows;
    if row_count(out) < rows {
        return Err(Refusal::Room.into());
    }
    write_rows(document, marks, rows, out);
    Ok(rows)
}
