// The picture of a day's report.
ghost use Rattle.std.specs.Prelude.{◌≡◌, string_bytes};
ghost use Rattle.closing.specs.Drawn.{Drawn};

use crate::requests::Requests;
use curve::REPORT_LEN;
use lru_cache::Stop;

// Adds the picture of the report on 1 to m places to the text, with a mark at k places. Where there is no report, it adds nothing.
pub fn draw(requests: Requests<'_>, m: usize, k: usize, text: &mut String) -> Result<(), Stop>
    ensures drawn { Drawn requests.entry.kept.now requests.entry.total m k result (string_bytes text.old) (string_bytes text.new) }
{
    curve::check(requests.kept, m, REPORT_LEN)?;
    requests.whole()?;
    // Fixed memory, no heap in the library: as long as the largest report.
    let mut row = [0u64; REPORT_LEN];
    belady::report(requests.kept, m, &mut row)?;
    // The row is a report, so only memory can be missing.
    picture::draw(&row, m, k, text).map_err(|_| Stop::Memory)
}
