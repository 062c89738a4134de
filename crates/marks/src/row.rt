// A row of a table: a node and its tag, in five words.
ghost use Rattle.std.specs.Prelude.{◌≡◌, ◌*◌, ◌/◌, ◌<◌, length};
ghost use Rattle.std.proofs.lemmas.List.Edits.{sets};
ghost use Rattle.answers.specs.Refusal.{answer_in};
ghost use Rattle.marks.specs.Table.{ROW_WORDS, row_words, rows, row_in, row_fault};

use answers::refusal::Refusal;
use nodes::node::{MOST_NODES, NODE_WORDS, Node};

// How many words a row takes: a node's, and the tag.
pub const ROW_WORDS: usize = NODE_WORDS + 1;

// A node of a numbered document and its tag, which is TEXT for a text.
#[derive(Clone, Copy, PartialEq, Eq)]
pub struct Row {
    pub node: Node,
    pub tag: u32,
}

// Returns the number of whole rows in `words`.
pub(crate) fn row_count(words: &[u32]) -> usize
    ensures { result ≡ length words.now / ROW_WORDS }
{
    words.len() / ROW_WORDS
}

// Checks the words of a table, whatever the rows are. They may be faulty by RAGGED or LONG.
// By hand, as others like it: a shared one would divide by a size that a caller names.
#[tactic(auto, unfolding(crate::specs::Table::row_fault))]
pub(crate) fn check_rows(words: &[u32]) -> Result<(), Refusal>
    ensures { answer_in result ≡ row_fault words.now }
{
    if words.len() % ROW_WORDS != 0 {
        return Err(Refusal::Ragged);
    }
    if MOST_NODES < row_count(words) {
        return Err(Refusal::Long);
    }
    Ok(())
}

// Returns the row at `index` of the table in `words`.
pub(crate) fn row_at(words: &[u32], index: usize) -> Row
    requires { index < length words.now / ROW_WORDS }
    ensures { result ≡ row_in (rows words.now) index }
{
    let at = ROW_WORDS * index;
    Row {
        node: Node {
            document: words[at],
            start: words[at + 1],
            end: words[at + 2],
            level: words[at + 3],
        },
        tag: words[at + 4],
    }
}

// Writes `row` at `index` of `out`.
pub(crate) fn put_row(out: &mut [u32], index: usize, row: Row)
    requires { index < length out.old / ROW_WORDS }
    ensures { out.new ≡ sets out.old (ROW_WORDS * index) (row_words row) }
{
    let at = ROW_WORDS * index;
    out[at] = row.node.document;
    out[at + 1] = row.node.start;
    out[at + 2] = row.node.end;
    out[at + 3] = row.node.level;
    out[at + 4] = row.tag;
}
