// Walks down through the zones, at most 64 deep. A zone's samples are those of its child zones and
// its own, which stand before, between and after the children. One call for each child gives its
// subtotal, so each zone and each sample is passed once.
ghost use Rattle.std.specs.Prelude.{◌≡◌, ◌&&◌, ◌+◌, ◌/◌, ◌≤◌, ◌<◌, ltb, length};
ghost use Rattle.std.proofs.Math.Seq.{slice};
ghost use Rattle.answers.specs.Answer.{TAKEN};
ghost use Rattle.answers.specs.Output.{written};
ghost use Rattle.nodes.specs.Node.{MOST_LEVELS, openb};
ghost use Rattle.nodes.specs.Words.{node_at, count};
ghost use Rattle.lists.specs.Two.{check_two};
ghost use Rattle.sheets.specs.Private.Walk.{Measured, InsideUpTo, FirstAfter, end_text, subtotals_from};
ghost use Rattle.sheets.specs.Sheet.{SUBTOTAL_WORDS, subtotal_over, sheet_samples, sheet_in};

use crate::samples::pass_samples;
use crate::subtotal::{Subtotal, added, put_subtotal};
use nodes::node::{MOST_LEVELS, Node, is_open, node_at, node_count};

// How far the walk of a zone came. `zone` and `sample` are the indices of the first zone and the
// first sample after those inside it, and `subtotal` is its row.
#[derive(Clone, Copy)]
struct Walked {
    zone: usize,
    sample: usize,
    subtotal: Subtotal,
}

// Returns a text at the end of `zone`. What stands after it stands after all that is inside the
// zone.
fn end_of(zone: Node) -> Node
    ensures { result ≡ end_text zone }
{
    Node {
        start: zone.end,
        ..zone
    }
}

// Returns whether there is a zone at `index`, and `around` is open at it.
fn is_within(zones: &[u32], index: usize, around: Node) -> bool
    ensures { result ≡ (ltb index (count zones.now) && openb (node_at zones.now index) around) }
{
    index < node_count(zones) && is_open(node_at(zones, index), around)
}

// Writes the rows of the zone at `zone` and of all zones inside it. `sample` is the index of the
// first sample after the zone's start, and `depth` is how many levels the walk may still go down,
// this one included. Returns how far it came.
fn walk_zone(
    zones: &[u32],
    samples: &[u32],
    hundredths: &[u32],
    out: &mut [u32],
    zone: usize,
    sample: usize,
    depth: usize,
) -> Walked
    requires { record {
      lists : (check_two zones.now samples.now).answer ≡ TAKEN;
      measured : Measured samples.now hundredths.now;
      room : count zones.now ≤ length out.old / SUBTOTAL_WORDS;
      there : zone < count zones.now;
      started : FirstAfter samples.now (node_at zones.now zone) sample;
      deep : MOST_LEVELS < (node_at zones.now zone).level + depth;
    } }
    ensures { record {
      below : InsideUpTo zones.now zone result.zone;
      later : sample ≤ result.sample;
      reached : FirstAfter samples.now (end_text (node_at zones.now zone)) result.sample;
      subtotal : result.subtotal ≡ subtotal_over (slice sample result.sample (sheet_samples samples.now hundredths.now));
      output : out.new ≡ subtotals_from zones.now samples.now hundredths.now zone result.zone out.old;
    } }
{
    let around = node_at(zones, zone);
    let mut next = zone + 1;
    let mut place = sample;
    let mut subtotal = Subtotal::default();
    // Rests on Walking: walk_start, walk_child, child_none.
    while is_within(zones, next, around) {
        let own = pass_samples(samples, hundredths, place, node_at(zones, next));
        let child = walk_zone(zones, samples, hundredths, out, next, own.next, depth - 1);
        let passed = added(subtotal, own.subtotal);
        subtotal = added(passed, child.subtotal);
        next = child.zone;
        place = child.sample;
    }
    let last = pass_samples(samples, hundredths, place, end_of(around));
    let whole = added(subtotal, last.subtotal);
    put_subtotal(out, zone, whole);
    Walked {
        zone: next,
        sample: last.next,
        subtotal: whole,
    }
}

// Writes the rows of all zones, one outermost zone after the other. Samples outside of these count
// in no row.
pub(crate) fn walk_all(zones: &[u32], samples: &[u32], hundredths: &[u32], out: &mut [u32])
    requires { record {
      lists : (check_two zones.now samples.now).answer ≡ TAKEN;
      measured : Measured samples.now hundredths.now;
      room : count zones.now ≤ length out.old / SUBTOTAL_WORDS;
    } }
    ensures { out.new ≡ written (sheet_in zones.now samples.now hundredths.now) out.old }
{
    let mut zone = 0;
    let mut sample = 0;
    // Rests on Walking: by_left.
    // Rests on RowPlaces: rows_join, rows_all.
    while zone < node_count(zones) {
        let outside = pass_samples(samples, hundredths, sample, node_at(zones, zone));
        let walked = walk_zone(
            zones,
            samples,
            hundredths,
            out,
            zone,
            outside.next,
            MOST_LEVELS,
        );
        zone = walked.zone;
        sample = walked.sample;
    }
}
