// The check of a list that lies in bytes.
ghost use Rattle.std.specs.Prelude.{◌≡◌};
ghost use Rattle.answers.specs.Refusal.{verdict_in};
ghost use Rattle.lists.specs.Check.{check_bytes};

use crate::stack::STACK_WORDS;
use crate::walk::pass_nodes;
use answers::refusal::{Fault, Refusal};
use nodes::node::MOST_NODES;
use numbers::little::{NODE_BYTES, node_in};

// Checks a list that lies in bytes as `check_list` checks its words; bytes that make no whole nodes
// are RAGGED. Each node is read where it lies.
pub fn check_bytes(bytes: &[u8]) -> Result<(), Fault>
    ensures { verdict_in result ≡ check_bytes bytes.now }
{
    if bytes.len() % NODE_BYTES != 0 {
        return Err(Refusal::Ragged.into());
    }
    if MOST_NODES < bytes.len() / NODE_BYTES {
        return Err(Refusal::Long.into());
    }
    let mut stack = [0u32; STACK_WORDS];
    pass_nodes(&mut stack, bytes.len() / NODE_BYTES, |index| {
        node_in(bytes, index)
    })?;
    Ok(())
}
