// The zone sheet.
ghost use Rattle.std.specs.Prelude.{◌≡◌};
ghost use Rattle.answers.specs.Refusal.{verdict_in, counted_in};
ghost use Rattle.sheets.specs.Sheet.{check_sheet, sheet_of, sheet_output};

use crate::hundredths::first_faulty;
use crate::subtotal::SUBTOTAL_WORDS;
use crate::walk::walk_all;
use answers::refusal::{Fault, Refusal};
use answers::verdict::ANCESTORS;
use lists::two::check_two;
use nodes::node::node_count;

// Checks the zones, the samples and their words, before the room is looked at.
fn check_sheet(zones: &[u32], samples: &[u32], hundredths: &[u32]) -> Result<(), Fault>
    ensures { verdict_in result ≡ check_sheet zones.now samples.now hundredths.now }
{
    check_two(zones, samples)?;
    if hundredths.len() != node_count(samples) {
        return Err(Refusal::Ragged.into());
    }
    if let Some(index) = first_faulty(hundredths) {
        return Err(Fault {
            refusal: Refusal::Reading,
            list: ANCESTORS,
            index: index as u32,
        });
    }
    Ok(())
}

// Writes a row of three words for each zone into `out`, in list order. The words are how many
// samples are inside the zone, how many of these have a reading, and the sum of those readings.
// `hundredths` has one word a sample. Returns the number of zones. On refusal `out` stays as it
// was.
pub fn write_sheet(
    zones: &[u32],
    samples: &[u32],
    hundredths: &[u32],
    out: &mut [u32],
) -> Result<usize, Fault>
    ensures { record {
      answer : counted_in result ≡ sheet_of zones.now samples.now hundredths.now out.old;
      output : out.new ≡ sheet_output zones.now samples.now hundredths.now out.old;
    } }
{
    check_sheet(zones, samples, hundredths)?;
    if out.len() / SUBTOTAL_WORDS < node_count(zones) {
        return Err(Refusal::Room.into());
    }
    walk_all(zones, samples, hundredths, out);
    Ok(node_count(zones))
}
