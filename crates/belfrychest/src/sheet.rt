// The zone sheet.
ghost use Rattle.std.specs.Prelude.{◌≡◌};
ghost use Rattle.sheets.specs.Sheet.{sheet_of, sheet_output};

use answers::verdict::Counted;
use sheets::sheet::write_sheet;

// Writes the sheet of `zones`, `samples` and `hundredths` into `out`, as `write_sheet` does.
pub fn belfry_sheet(zones: &[u32], samples: &[u32], hundredths: &[u32], out: &mut [u32]) -> Counted
    ensures { record {
      answer : result ≡ sheet_of zones.now samples.now hundredths.now out.old;
      output : out.new ≡ sheet_output zones.now samples.now hundredths.now out.old;
    } }
{
    write_sheet(zones, samples, hundredths, out).into()
}
