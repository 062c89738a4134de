// The walk along two lists at once, document by document. It tells whether anything is wrong with
// them, alone or together. The lists take turns: each passes its nodes up to where the other's next
// node starts.
ghost use Rattle.std.specs.Prelude.{◌≡◌, ◌⊎◌, List, ◌≤◌, ◌<◌, eqb, length};
ghost use Rattle.nodes.specs.declared.node.Node.{Node};
ghost use Rattle.answers.specs.Answer.{TAKEN};
ghost use Rattle.lists.specs.Private.Both.{PAST, Ahead, ReachedAt, PassedNext, RunTo, TakesAlong, Ran, SameTo, NextDocument, whole_of, BetweenDocuments, DocumentTo};
ghost use Rattle.lists.specs.Private.Merge.{Whole, Cut};
ghost use Rattle.lists.specs.Private.Open.{Holds, Held};

use crate::stack::{OPEN_WORDS, STACK_WORDS, left_open, put_bottom, put_open};
use nodes::node::{MOST_LEVELS, NODE_WORDS};

// A number above every start. It is the start of the next node where a list has no more nodes of
// the document. By hand: in the order of `Option<u32>` a `None` comes before all starts.
const PAST: u64 = 4294967296;

// Where a list stands in a document. `at` is the word of its next node, and `start` is where that
// node starts, or PAST. `top` is the word of the stack at which the last node passed lies, or the
// bottom where none was passed. That node may be of the other list.
#[derive(Clone, Copy)]
struct RunPlace {
    at: usize,
    start: u64,
    top: usize,
}

// The words at which both lists go on after a document.
#[derive(Clone, Copy)]
struct BothPlace {
    first: usize,
    second: usize,
}

// Returns the place at the word `at` of a list in `document`, with the word `top` of the stack, or
// None at a fault. A node of an earlier document is one, and so is one of `document` that starts
// before `from`.
fn reach(words: &[u32], at: usize, document: u32, from: u64, top: usize) -> Option<RunPlace>
    requires { Cut at words.now × (from ≤ PAST) }
    ensures { ReachedAt words.now at document from top result }
{
    let none = RunPlace {
        at: at,
        start: PAST,
        top: top,
    };
    if words.len() <= at {
        return Some(none);
    }
    if words[at] != document {
        if words[at] < document {
            return None;
        }
        return Some(none);
    }
    let start = words[at + 1] as u64;
    if start < from {
        return None;
    }
    Some(RunPlace {
        at: at,
        start: start,
        top: top,
    })
}

// Passes the node at `place`: puts it on top of the stack and returns the place after it. A node
// that ends before it starts is a fault, and so is a level above the greatest. The innermost node
// that is open at it has to end no earlier than it does, and to have a lower level. The bottom's
// level is 0, so level 0 is a fault too. So is a next node that is out of order (`reach`).
fn pass_next(
    stack: &mut [u32; STACK_WORDS],
    words: &[u32],
    document: u32,
    place: RunPlace,
) -> Option<RunPlace>
    requires { Cut place.at words.now × Ahead words.now place.at document place.start × (place.start < PAST)
        × Held document place.start place.top stack.old }
    ensures { (s : List Node) → Holds document place.start place.top stack.old s
        → PassedNext words.now document place s result stack.new }
{
    let at = place.at;
    let start = place.start as u32;
    let end = words[at + 2];
    let level = words[at + 3];
    if end < start {
        return None;
    }
    if MOST_LEVELS < level as usize {
        return None;
    }
    let left = left_open(stack, place.top, start);
    if stack[left] < end {
        return None;
    }
    if level <= stack[left + 1] {
        return None;
    }
    put_open(stack, left + OPEN_WORDS, end, level);
    reach(
        words,
        at + NODE_WORDS,
        document,
        place.start + 1,
        left + OPEN_WORDS,
    )
}

// Passes the nodes of one list, from `begun` on, that start before `limit`, and returns the place
// after them. The other list's next node starts at `limit`.
fn pass_run(
    stack: &mut [u32; STACK_WORDS],
    words: &[u32],
    document: u32,
    begun: RunPlace,
    limit: u64,
) -> Option<RunPlace>
    requires { Cut begun.at words.now × Ahead words.now begun.at document begun.start × (limit ≤ PAST)
        × Held document begun.start begun.top stack.old }
    ensures { record {
      moved : RunTo words.now document begun limit result;
      walked : TakesAlong words.now document limit begun stack.old
          (λ rest whole. Ran document limit rest whole result stack.new);
    } }
{
    let mut place = begun;
    // Rests on Runs: along_on, along_stop.
    while place.start < limit {
        // `let .. else` and not `?`: docs/SCOPE.md names that form for the steps of a check.
        let Some(reached) = pass_next(stack, words, document, place) else {
            return None;
        };
        // The list has no more nodes of the document. No limit is above PAST, so none is tested.
        if reached.start == PAST {
            return Some(reached);
        }
        place = reached;
    }
    Some(place)
}

// Returns where the second list goes on, given where both stand. If their next nodes start
// together, they have to be identical. Then the second list's is passed over, and the node comes
// once, in the first list's next run.
fn pass_same(
    first: &[u32],
    a: RunPlace,
    second: &[u32],
    b: RunPlace,
    document: u32,
) -> Option<RunPlace>
    requires { Cut a.at first.now × Ahead first.now a.at document a.start
        × Cut b.at second.now × Ahead second.now b.at document b.start × (b.start < PAST) }
    ensures { SameTo first.now a second.now b document result }
{
    if a.start != b.start {
        return Some(b);
    }
    let i = a.at;
    let j = b.at;
    if first[i + 2] != second[j + 2] {
        return None;
    }
    if first[i + 3] != second[j + 3] {
        return None;
    }
    reach(second, j + NODE_WORDS, document, b.start + 1, b.top)
}

// Returns the document that comes next: the lesser of those at word `i` of `first` and at word `j`
// of `second`. At most one list is at its end.
fn next_document(first: &[u32], i: usize, second: &[u32], j: usize) -> u32
    requires { Cut i first.now × Cut j second.now × ((i < length first.now) ⊎ (j < length second.now)) }
    ensures { NextDocument first.now i second.now j result }
{
    if second.len() <= j {
        return first[i];
    }
    if first.len() <= i {
        return second[j];
    }
    first[i].min(second[j])
}

// Passes the next document, of which one list or both have nodes, and returns where the lists go on
// after it. Nothing is open where it begins.
fn pass_document(
    stack: &mut [u32; STACK_WORDS],
    first: &[u32],
    second: &[u32],
    begun: BothPlace,
) -> Option<BothPlace>
    requires { BetweenDocuments first.now begun.first second.now begun.second stack.old
        × ((begun.first < length first.now) ⊎ (begun.second < length second.now)) }
    ensures { DocumentTo first.now second.now begun result stack.new }
{
    let document = next_document(first, begun.first, second, begun.second);
    let Some(one) = reach(first, begun.first, document, 0, 0) else {
        return None;
    };
    let Some(other) = reach(second, begun.second, document, 0, 0) else {
        return None;
    };
    let mut a = one;
    let mut b = other;
    // Rests on Documents: first_run, same_on, second_run, document_ends.
    loop {
        let Some(passed) = pass_run(stack, first, document, a, b.start) else {
            return None;
        };
        // Neither list has more nodes of the document.
        if passed.start == PAST && b.start == PAST {
            return Some(BothPlace {
                first: passed.at,
                second: b.at,
            });
        }
        let beside = RunPlace {
            top: passed.top,
            ..b
        };
        let Some(next) = pass_same(first, passed, second, beside, document) else {
            return None;
        };
        let Some(turned) = pass_run(stack, second, document, next, passed.start) else {
            return None;
        };
        a = RunPlace {
            top: turned.top,
            ..passed
        };
        b = turned;
    }
}

// Returns whether nothing is wrong with two lists, both of whole nodes and neither too long. Open
// nodes lie on `stack`, whatever lay there before.
pub(crate) fn pass_both(stack: &mut [u32; STACK_WORDS], first: &[u32], second: &[u32]) -> bool
    requires { Whole first.now × Whole second.now }
    ensures { result ≡ eqb (whole_of first.now second.now).answer TAKEN }
{
    put_bottom(stack);
    let mut place = BothPlace {
        first: 0,
        second: 0,
    };
    // Rests on Documents: both_start, both_stop, both_end.
    while place.first < first.len() || place.second < second.len() {
        let Some(reached) = pass_document(stack, first, second, place) else {
            return false;
        };
        place = reached;
    }
    true
}
