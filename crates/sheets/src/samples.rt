// Passes along the samples.
ghost use Rattle.std.specs.Prelude.{◌≡◌, ◌≤◌};
ghost use Rattle.std.proofs.Math.Seq.{slice};
ghost use Rattle.nodes.specs.Words.{nodes, count};
ghost use Rattle.sheets.specs.Private.Walk.{Measured, NoneAfter, FirstAfter};
ghost use Rattle.sheets.specs.Sheet.{subtotal_over, lab_samples};

use crate::subtotal::{Subtotal, added, of_word};
use nodes::node::{Node, is_after, node_at, node_count};

// A stretch of samples: the index of the sample after it, and its subtotal.
#[derive(Clone, Copy)]
pub(crate) struct Stretch {
    pub next: usize,
    pub subtotal: Subtotal,
}

// Returns the stretch of samples from `from` on that don't stand after `limit`. No sample before
// `from` may stand after it.
pub(crate) fn pass_samples(samples: &[u32], hundredths: &[u32], from: usize, limit: Node) -> Stretch
    requires { Measured samples.now hundredths.now × (from ≤ count samples.now) × NoneAfter samples.now limit from }
    ensures { record {
      later : from ≤ result.next;
      reached : FirstAfter samples.now limit result.next;
      subtotal : result.subtotal ≡ subtotal_over (slice from result.next (lab_samples (nodes samples.now) hundredths.now));
    } }
{
    let count = node_count(samples);
    let mut subtotal = Subtotal::default();
    // Rests on SampleLaws: no_stretch, stretch_more, by_more.
    for next in from..count {
        if is_after(node_at(samples, next), limit) {
            return Stretch {
                next: next,
                subtotal: subtotal,
            };
        }
        subtotal = added(subtotal, of_word(hundredths[next]));
    }
    Stretch {
        next: count,
        subtotal: subtotal,
    }
}
