// Walks a document's marks backwards. Each close is met before its opening, so an element's end is
// known when its row is made. The closes of the elements that are open at a place are kept, the
// innermost's last. There are never more of them than levels.
ghost use Rattle.std.specs.Prelude.{◌≡◌, ◌≤◌, ◌<◌};
ghost use Rattle.nodes.specs.Node.{MOST_LEVELS};
ghost use Rattle.marks.specs.Mark.{CLOSE, TEXT};
ghost use Rattle.marks.specs.Private.Walk.{open_before, before_mark, closes_before, row_here};

use crate::mark::{CLOSE, MarkPlace, TEXT};
use crate::row::Row;
use nodes::node::{MOST_LEVELS, Node};

// Returns how many elements are open before `mark`, an opening or a text, where `depth` are open
// after it.
#[tactic(auto, unfolding(crate::specs::Private::Walk::open_before))]
pub(crate) fn open_before(depth: usize, mark: u32) -> usize
    requires { (mark ≡ CLOSE → ⊥) × ((mark ≡ TEXT → ⊥) → 0 < depth) }
    ensures { result ≡ open_before depth mark }
{
    if mark == TEXT { depth } else { depth - 1 }
}

// Returns the row of the node that `mark` begins at `position`, an opening or a text, where `depth`
// elements are open after it. A text ends where it starts, an element at the innermost of `closes`.
pub(crate) fn row_here(
    document: u32,
    position: u32,
    closes: &[u32; MOST_LEVELS],
    depth: usize,
    mark: u32,
) -> Row
    requires { (mark ≡ CLOSE → ⊥) × ((mark ≡ TEXT → ⊥) → 0 < depth) × (depth ≤ MOST_LEVELS) }
    ensures { result ≡ row_here document position closes.now depth mark }
{
    let level = open_before(depth, mark) as u32 + 1;
    let end = if mark == TEXT {
        position
    } else {
        closes[depth - 1]
    };
    Row {
        node: Node {
            document,
            start: position,
            end,
            level,
        },
        tag: mark,
    }
}

// Keeps the close at `position` in `closes` and returns the place before it, where the element that
// it closes is open.
pub(crate) fn keep_close(
    closes: &mut [u32; MOST_LEVELS],
    position: u32,
    place: MarkPlace,
) -> MarkPlace
    requires { place.depth < MOST_LEVELS }
    ensures { record {
      answer : result ≡ before_mark place CLOSE;
      closes : closes.new ≡ closes_before closes.old position place.depth CLOSE;
    } }
{
    closes[place.depth] = position;
    MarkPlace {
        depth: place.depth + 1,
        ..place
    }
}

// Returns the place before `mark`, an opening or a text, which begins the last of the rows.
#[tactic(auto, unfolding(crate::specs::Private::Walk::before_mark))]
pub(crate) fn before_node(place: MarkPlace, mark: u32) -> MarkPlace
    requires { (mark ≡ CLOSE → ⊥) × ((mark ≡ TEXT → ⊥) → 0 < place.depth) × (0 < place.rows) }
    ensures { result ≡ before_mark place mark }
{
    MarkPlace {
        depth: open_before(place.depth, mark),
        rows: place.rows - 1,
    }
}
