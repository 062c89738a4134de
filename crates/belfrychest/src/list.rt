// The checks of one list and of two, and the place of the part at fault.
ghost use Rattle.std.specs.Prelude.{◌≡◌};
ghost use Rattle.lists.specs.Check.{check_words};
ghost use Rattle.lists.specs.Two.{check_two};
ghost use Rattle.belfrychest.specs.Shown.{shown_part};

use answers::verdict::Verdict;
use lists::list::check_list;
use lists::two::check_two;
use nodes::node::NODE_WORDS;
use repairs::part::faulty_part;

// The verdict on two lists, and the part of the list at fault that starts at the faulty node. The
// part is given by the index of its first word in that list and by its number of words. Both are 0
// if the part is empty.
#[repr(C)]
#[derive(Clone, Copy)]
pub struct BelfryPart {
    pub verdict: Verdict,
    pub from: usize,
    pub words: usize,
}

// Checks `list` and returns the verdict of `check_list`.
pub fn belfry_check(list: &[u32]) -> Verdict
    ensures { result ≡ check_words list.now }
{
    check_list(list).into()
}

// Checks `ancestors` and `descendants` together and returns the verdict of `check_two`.
pub fn belfry_check_two(ancestors: &[u32], descendants: &[u32]) -> Verdict
    ensures { result ≡ check_two ancestors.now descendants.now }
{
    check_two(ancestors, descendants).into()
}

// Returns the verdict on `ancestors` and `descendants`, and the place of the part that
// `faulty_part` returns.
pub fn belfry_faulty<'a>(ancestors: &'a [u32], descendants: &'a [u32]) -> BelfryPart
    ensures { result ≡ shown_part ancestors.now descendants.now }
{
    let verdict = Verdict::from(check_two(ancestors, descendants));
    let words = faulty_part(ancestors, descendants).len();
    let from = if words == 0 {
        0
    } else {
        NODE_WORDS * verdict.index as usize
    };
    BelfryPart {
        verdict,
        from,
        words,
    }
}
