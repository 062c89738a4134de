// The check of two lists that are to be joined.
ghost use Rattle.std.specs.Prelude.{◌≡◌, not};
ghost use Rattle.lists.specs.Two.{check_two};
ghost use Rattle.answers.specs.Refusal.{verdict_in};
ghost use Rattle.answers.specs.Verdict.{refusedb};

use crate::both::pass_both;
use crate::list::{check_on, check_whole};
use crate::stack::STACK_WORDS;
use answers::refusal::{Fault, Refusal};
use answers::verdict::DESCENDANTS;

// Returns whether both lists are accepted and agree. One walk along both settles it, with `stack`
// for the open nodes.
fn are_agreeing(stack: &mut [u32; STACK_WORDS], ancestors: &[u32], descendants: &[u32]) -> bool
    ensures { result ≡ not (refusedb (check_two ancestors.now descendants.now)) }
{
    check_whole(ancestors).is_ok()
        && check_whole(descendants).is_ok()
        && pass_both(stack, ancestors, descendants)
}

// Checks two lists: says why they are refused, in which list and at which node. Where they don't
// both pass at once, they are checked one after the other to say why. Where both pass alone, they
// are refused as JOINT. No two walks are under way at once, so one stack serves them all.
pub fn check_two(ancestors: &[u32], descendants: &[u32]) -> Result<(), Fault>
    ensures { verdict_in result ≡ check_two ancestors.now descendants.now }
{
    let mut stack = [0u32; STACK_WORDS];
    if are_agreeing(&mut stack, ancestors, descendants) {
        return Ok(());
    }
    check_on(&mut stack, ancestors)?;
    check_on(&mut stack, descendants).map_err(|fault| Fault {
        list: DESCENDANTS,
        ..fault
    })?;
    Err(Refusal::Joint.into())
}
