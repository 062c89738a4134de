// What a mark does, and the walk along a document's marks that checks them, a mark at a time.
ghost use Rattle.std.specs.Prelude.{◌≡◌, ◌≤◌, ◌<◌, length};
ghost use Rattle.answers.specs.Refusal.{answer_in};
ghost use Rattle.nodes.specs.Words.{MOST_NODES};
ghost use Rattle.marks.specs.Mark.{CLOSE, strayb, mark_fault};
ghost use Rattle.marks.specs.Private.Walk.{mark_place, numbered, passed, after_mark, walked};

use answers::refusal::Refusal;
use nodes::node::MOST_LEVELS;

// The mark that closes an element.
pub const CLOSE: u32 = 0;

// The mark that is a text; each number between the two opens an element of that tag.
// By hand: a mark stays a word, as C lends it, since a row's tag is the same word.
pub const TEXT: u32 = 65536;

// Where a walk stands: how many elements are open, and how many rows begin before.
#[derive(Clone, Copy)]
pub(crate) struct MarkPlace {
    pub depth: usize,
    pub rows: usize,
}

// Returns whether `mark` is out of place at `position`, where `depth` elements are open. With
// nothing open only the first mark may come, and it has to open the root.
#[tactic(auto, unfolding(crate::specs::Mark::strayb))]
fn is_stray(position: usize, depth: usize, mark: u32) -> bool
    ensures { result ≡ strayb position depth mark }
{
    depth == 0 && (mark == CLOSE || mark == TEXT || 1 < position)
}

// Checks `mark` at `position`, where `depth` elements are open before it. It may be faulty by MARK,
// STRAY or DEEP, in this order.
#[tactic(auto, unfolding(crate::specs::Mark::mark_fault, crate::specs::Mark::deepb))]
pub(crate) fn check_mark(position: usize, depth: usize, mark: u32) -> Result<(), Refusal>
    ensures { answer_in result ≡ mark_fault position depth mark }
{
    if TEXT < mark {
        return Err(Refusal::Mark);
    }
    if is_stray(position, depth, mark) {
        return Err(Refusal::Stray);
    }
    if mark != CLOSE && MOST_LEVELS <= depth {
        return Err(Refusal::Deep);
    }
    Ok(())
}

// Returns the place after `mark`, which isn't stray.
#[tactic(auto, unfolding(crate::specs::Private::Walk::after_mark, crate::specs::Mark::open_after))]
fn place_after(place: MarkPlace, mark: u32) -> MarkPlace
    requires { (place.depth < MOST_NODES) × (place.rows < MOST_NODES) × (mark ≡ CLOSE → 0 < place.depth) }
    ensures { result ≡ after_mark place mark }
{
    match mark {
        CLOSE => MarkPlace {
            depth: place.depth - 1,
            ..place
        },
        TEXT => MarkPlace {
            rows: place.rows + 1,
            ..place
        },
        _ => MarkPlace {
            depth: place.depth + 1,
            rows: place.rows + 1,
        },
    }
}

// Passes `mark` at `position`: returns the place after it, or its refusal.
fn pass_mark(position: usize, place: MarkPlace, mark: u32) -> Result<MarkPlace, Refusal>
    requires { (place.depth < MOST_NODES) × (place.rows < MOST_NODES) }
    ensures { numbered result ≡ passed position place mark }
{
    check_mark(position, place.depth, mark)?;
    Ok(place_after(place, mark))
}

// Walks along all `marks`, which are not too many, and returns the place at their end or the first
// refusal.
pub(crate) fn pass_marks(marks: &[u32]) -> Result<MarkPlace, Refusal>
    requires { length marks.now ≤ MOST_NODES }
    ensures { numbered result ≡ walked 1 (mark_place 0 0) marks.now }
{
    let mut place = MarkPlace { depth: 0, rows: 0 };
    // Rests on Passing: walk_on, walk_stop, all_closed.
    for (passed, mark) in marks.iter().enumerate() {
        // `let .. else` and not `?`: docs/SCOPE.md names that form for the steps of a check.
        let step = pass_mark(passed + 1, place, *mark);
        let Ok(reached) = step else {
            return step;
        };
        place = reached;
    }
    if marks.is_empty() || 0 < place.depth {
        return Err(Refusal::Unclosed);
    }
    Ok(place)
}
