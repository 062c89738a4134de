// Turns a table back into marks.
ghost use Rattle.std.specs.Prelude.{◌≡◌, ◌||◌, ◌/◌, ◌≤◌, ◌<◌, ltb, length, replicate};
ghost use Rattle.laws.specs.Choose.{All};
ghost use Rattle.nodes.specs.Node.{MOST_LEVELS};
ghost use Rattle.answers.specs.Output.{written};
ghost use Rattle.marks.specs.Back.{same_rowb, numberedb, tagged};
ghost use Rattle.marks.specs.Mark.{CLOSE, textb};
ghost use Rattle.marks.specs.Outcome.{unnumbered_in, unnumber_outcome, unnumber_output};
ghost use Rattle.marks.specs.Table.{ROW_WORDS, rows};
ghost use Rattle.marks.specs.Private.Walk.{mark_here, fitsb, SteppedBack, all_read_back};

use crate::back::{before_node, keep_close, open_before, row_here};
use crate::mark::{CLOSE, MarkPlace, TEXT, check_mark};
use crate::row::{Row, check_rows, row_at, row_count};
use answers::answer::TAKEN;
use answers::refusal::Refusal;
use nodes::node::{MOST_LEVELS, MOST_NODES};

// The answer of the way back: its number, the document's number and how many marks were written.
// The last two are 0 on refusal.
#[repr(C)]
#[derive(Clone, Copy)]
pub struct Unnumbered {
    pub answer: u32,
    pub document: u32,
    pub count: usize,
}

// What the way back has written: how many marks, and the number of their document.
#[derive(Clone, Copy)]
pub struct Marked {
    pub document: u32,
    pub count: usize,
}

impl From<Result<Marked, Refusal>> for Unnumbered {
    ghost from_gives = { λ wrote unnumbered. unnumbered ≡ unnumbered_in wrote };

    fn from(wrote: Result<Marked, Refusal>) -> Unnumbered {
        match wrote {
            Ok(marked) => Unnumbered {
                answer: TAKEN,
                document: marked.document,
                count: marked.count,
            },
            Err(refusal) => Unnumbered {
                answer: refusal.into(),
                document: 0,
                count: 0,
            },
        }
    }
}

// Returns whether two rows are identical in all five words.
fn is_same_row(x: Row, y: Row) -> bool
    ensures { result ≡ same_rowb x y }
{
    x == y
}

// Returns the mark at `position`, as the last of the first `count` rows tells: its tag where it
// starts there, else a close.
fn mark_here(table: &[u32], count: usize, position: u32) -> u32
    requires { count ≤ length table.now / ROW_WORDS }
    ensures { result ≡ mark_here (rows table.now) count position }
{
    if count == 0 {
        return CLOSE;
    }
    let last = row_at(table, count - 1);
    if last.node.start != position {
        return CLOSE;
    }
    last.tag
}

// Returns whether an element is open after `mark`, an opening; after a text there need be none.
fn is_opened(depth: usize, mark: u32) -> bool
    ensures { result ≡ (textb mark || ltb 0 depth) }
{
    mark == TEXT || 0 < depth
}

// Returns whether `mark`, an opening or a text, is in place and has the last of the rows left as
// its row.
fn is_fitting(
    table: &[u32],
    document: u32,
    position: u32,
    closes: &[u32; MOST_LEVELS],
    place: MarkPlace,
    mark: u32,
) -> bool
    requires { (mark ≡ CLOSE → ⊥) × (place.depth ≤ MOST_LEVELS) × (0 < place.rows) × (place.rows ≤ length table.now / ROW_WORDS) }
    ensures { result ≡ fitsb (rows table.now) document position closes.now place mark }
{
    is_opened(place.depth, mark)
        && check_mark(position as usize, open_before(place.depth, mark), mark).is_ok()
        && is_same_row(
            row_here(document, position, closes, place.depth, mark),
            row_at(table, place.rows - 1),
        )
}

// Steps back over the mark at `position` and returns the place before it, or nothing where the mark
// doesn't fit.
fn step_back(
    table: &[u32],
    document: u32,
    position: u32,
    closes: &mut [u32; MOST_LEVELS],
    place: MarkPlace,
) -> Option<MarkPlace>
    requires { (place.depth ≤ MOST_LEVELS) × (place.rows ≤ length table.now / ROW_WORDS) }
    ensures { SteppedBack (rows table.now) document position closes.old place result closes.new }
{
    let mark = mark_here(table, place.rows, position);
    if mark == CLOSE {
        if place.depth == MOST_LEVELS {
            return None;
        }
        return Some(keep_close(closes, position, place));
    }
    if !is_fitting(table, document, position, closes, place, mark) {
        return None;
    }
    Some(before_node(place, mark))
}

// Returns whether all rows are those of marks up to the position `last`, walked back to the first.
fn reads_back(table: &[u32], document: u32, last: u32) -> bool
    ensures { result ≡ all_read_back (rows table.now) document last }
{
    let mut closes = [0u32; MOST_LEVELS];
    let mut place = MarkPlace {
        depth: 0,
        rows: row_count(table),
    };
    // Rests on unnumber/reads_back/Answers: reads_on, reads_stop, read_all.
    for before in (0..last).rev() {
        let Some(reached) = step_back(table, document, before + 1, &mut closes, place) else {
            return false;
        };
        place = reached;
    }
    place.depth == 0 && place.rows == 0
}

// Returns whether `table` is that of an accepted list of marks, the last of which is the root's
// close. An empty table is refused, since there must be a root.
fn is_numbered(table: &[u32]) -> bool
    ensures { result ≡ numberedb (rows table.now) }
{
    if row_count(table) == 0 {
        return false;
    }
    let root = row_at(table, 0);
    if MOST_NODES < root.node.end as usize {
        return false;
    }
    reads_back(table, root.node.document, root.node.end)
}

// Makes closes of the first `count` words of `out`.
fn put_closes(out: &mut [u32], count: usize)
    requires { count ≤ length out.old }
    ensures { out.new ≡ written (replicate count CLOSE) out.old }
{
    out[..count].fill(CLOSE);
}

// Puts each row's tag into `out`, at the row's start.
fn put_tags(table: &[u32], out: &mut [u32])
    requires { All (λ r. (0 < r.node.start) × (r.node.start ≤ length out.old)) (rows table.now) }
    ensures { out.new ≡ tagged (rows table.now) out.old }
{
    // Rests on unnumber/put_tags/Answers: put_on, put_all.
    for index in 0..row_count(table) {
        let row = row_at(table, index);
        out[row.node.start as usize - 1] = row.tag;
    }
}

// Writes the marks of `table` into `out`, and returns their number and the document's. On refusal
// `out` stays as it was.
pub fn unnumber(table: &[u32], out: &mut [u32]) -> Result<Marked, Refusal>
    ensures { record {
      answer : unnumbered_in result ≡ unnumber_outcome table.now out.old;
      output : out.new ≡ unnumber_output table.now out.old;
    } }
{
    check_rows(table)?;
    if !is_numbered(table) {
        return Err(Refusal::Table);
    }
    let root = row_at(table, 0);
    let count = root.node.end as usize;
    if out.len() < count {
        return Err(Refusal::Room);
    }
    put_closes(out, count);
    put_tags(table, out);
    Ok(Marked {
        document: root.node.document,
        count,
    })
}
