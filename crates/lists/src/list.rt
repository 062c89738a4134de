// The check of one list.
ghost use Rattle.std.specs.Prelude.{◌≡◌};
ghost use Rattle.answers.specs.Refusal.{answer_in, verdict_in};
ghost use Rattle.lists.specs.Check.{check_words, word_fault};

use crate::stack::STACK_WORDS;
use crate::walk::{node_from, pass_nodes};
use answers::refusal::{Fault, Refusal};
use nodes::node::{MOST_NODES, NODE_WORDS, node_count};

// Checks the words, whatever their nodes are: they are refused as RAGGED or as LONG.
// By hand, as others like it: a shared one would divide by a size that a caller names.
pub(crate) fn check_whole(words: &[u32]) -> Result<(), Refusal>
    ensures { answer_in result ≡ word_fault words.now }
{
    if words.len() % NODE_WORDS != 0 {
        return Err(Refusal::Ragged);
    }
    if MOST_NODES < node_count(words) {
        return Err(Refusal::Long);
    }
    Ok(())
}

// Checks a list as `check_list` does, with `stack` for its open nodes.
pub(crate) fn check_on(stack: &mut [u32; STACK_WORDS], words: &[u32]) -> Result<(), Fault>
    ensures { verdict_in result ≡ check_words words.now }
{
    check_whole(words)?;
    pass_nodes(stack, node_count(words), |index| {
        node_from(words, NODE_WORDS * index)
    })?;
    Ok(())
}

// Checks a list: says why it isn't accepted and at which node.
pub fn check_list(words: &[u32]) -> Result<(), Fault>
    ensures { verdict_in result ≡ check_words words.now }
{
    let mut stack = [0u32; STACK_WORDS];
    check_on(&mut stack, words)
}
