// The low and the high of a zone's lab readings.
ghost use Rattle.std.specs.Prelude.{◌≡◌};
ghost use Rattle.ranges.specs.Range.{range_in, zone_range};
ghost use Rattle.belfrychest.specs.Shown.{without_range, shown_range};

use answers::refusal::Fault;
use answers::verdict::Verdict;
use ranges::range::{Range, zone_range};

// What a range call answers: the verdict, whether a reading is present, and the low and the high in
// percent. `present` is 1 if the zone has a low and a high; otherwise it is 0 and so are they.
#[repr(C)]
#[derive(Clone, Copy)]
pub struct BelfryRange {
    pub verdict: Verdict,
    pub present: u32,
    pub low: f32,
    pub high: f32,
}

// Returns the answer with `verdict` that carries no low and no high.
fn without_range(verdict: Verdict) -> BelfryRange
    ensures { result ≡ without_range verdict }
{
    BelfryRange {
        verdict,
        present: 0,
        low: 0.0,
        high: 0.0,
    }
}

impl From<Result<Option<Range>, Fault>> for BelfryRange {
    ghost from_gives = { λ found shown. shown ≡ shown_range (range_in found) };

    fn from(found: Result<Option<Range>, Fault>) -> BelfryRange {
        match found {
            Ok(Some(range)) => BelfryRange {
                verdict: Ok(()).into(),
                present: 1,
                low: range.low,
                high: range.high,
            },
            Ok(None) => without_range(Ok(()).into()),
            Err(fault) => without_range(fault.into()),
        }
    }
}

// Returns the low and the high of the readings in the zone at index `zone`, as `zone_range` does.
pub fn belfry_zone_range(zones: &[u32], samples: &[u32], readings: &[u32], zone: u32) -> BelfryRange
    ensures { result ≡ shown_range (zone_range zones.now samples.now readings.now zone) }
{
    zone_range(zones, samples, readings, zone).into()
}
