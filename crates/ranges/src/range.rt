// The lowest and the highest lab reading in a zone.
ghost use Rattle.std.specs.Prelude.{◌≡◌, ◌*◌, ◌+◌, ◌≤◌, ◌<◌, length, get_or};
ghost use Rattle.answers.specs.Refusal.{fault};
ghost use Rattle.answers.specs.Verdict.{ANCESTORS};
ghost use Rattle.nodes.specs.Words.{count, MOST_NODES};
ghost use Rattle.readings.specs.Reading.{decode};
ghost use Rattle.readings.specs.Sample.{READING_WORDS, samples_in};
ghost use Rattle.ranges.specs.Private.Passing.{lower, higher, taken_in, passed};
ghost use Rattle.ranges.specs.Range.{range_in, zone_range};

use answers::refusal::{Fault, Refusal};
use answers::verdict::ANCESTORS;
use lists::two::check_two;
use nodes::node::{Node, is_inside, node_at, node_count};
use readings::reading::{READING_WORDS, Reading, decode, in_percent};

// The lowest and the highest of some percentages.
#[derive(Clone, Copy)]
pub struct Range {
    pub low: f32,
    pub high: f32,
}

// Returns the lower of `low` and `percent`. Where they are equal, `low` stays.
// By hand: of 0.0 and -0.0, `f32::min` may return either.
fn lower_of(low: f32, percent: f32) -> f32
    ensures { result ≡ lower low percent }
{
    if percent < low { percent } else { low }
}

// Returns the higher of `high` and `percent`. Where they are equal, `high` stays.
// By hand: of 0.0 and -0.0, `f32::max` may return either.
fn higher_of(high: f32, percent: f32) -> f32
    ensures { result ≡ higher high percent }
{
    if high < percent { percent } else { high }
}

// Returns `range` with `percent` taken in. Where there was no range before, `percent` is its low
// and its high.
fn taken_in(range: Option<Range>, percent: f32) -> Range
    ensures { result ≡ taken_in range percent }
{
    match range {
        Some(Range { low, high }) => Range {
            low: lower_of(low, percent),
            high: higher_of(high, percent),
        },
        None => Range {
            low: percent,
            high: percent,
        },
    }
}

// Returns the reading of the sample at `index`, or nothing where it is faulty.
fn reading_at(readings: &[u32], index: usize) -> Option<Reading>
    requires { READING_WORDS * index + 1 < length readings.now }
    ensures { result ≡ decode (get_or readings.now (READING_WORDS * index) 0) (get_or readings.now (READING_WORDS * index + 1) 0) }
{
    let at = READING_WORDS * index;
    decode(readings[at], readings[at + 1])
}

// Returns the fault of the sample at `index`, whose reading is faulty.
fn unread_at(index: usize) -> Fault
    requires { index < MOST_NODES }
    ensures { result ≡ fault Refusal.Reading ANCESTORS index }
{
    Fault {
        refusal: Refusal::Reading,
        list: ANCESTORS,
        index: index as u32,
    }
}

// Returns the lowest and the highest percentage that the samples inside `zone` have, if one of them
// has any. The readings of all samples are decoded, and the first faulty one is a refusal.
fn pass_samples(zone: Node, samples: &[u32], readings: &[u32]) -> Result<Option<Range>, Fault>
    requires { (length readings.now ≡ READING_WORDS * count samples.now) × (count samples.now ≤ MOST_NODES) }
    ensures { range_in result ≡ passed zone (samples_in samples.now readings.now) }
{
    let mut range = None;
    // Rests on Passing: outside_turn, missing_turn, percent_turn, faulty_turn, pass_end.
    for index in 0..node_count(samples) {
        let Some(reading) = reading_at(readings, index) else {
            return Err(unread_at(index));
        };
        if is_inside(node_at(samples, index), zone) {
            if let Some(percent) = in_percent(reading) {
                range = Some(taken_in(range, percent));
            }
        }
    }
    Ok(range)
}

// Returns the lowest and the highest percentage that the lab found in the samples inside the zone
// at index `zone`, if it found any.
pub fn zone_range(
    zones: &[u32],
    samples: &[u32],
    readings: &[u32],
    zone: u32,
) -> Result<Option<Range>, Fault>
    ensures { range_in result ≡ zone_range zones.now samples.now readings.now zone }
{
    check_two(zones, samples)?;
    if readings.len() != READING_WORDS * node_count(samples) {
        return Err(Refusal::Ragged.into());
    }
    let found = pass_samples(node_at(zones, zone as usize), samples, readings)?;
    if node_count(zones) <= zone as usize {
        return Err(Refusal::Absent.into());
    }
    Ok(found)
}
