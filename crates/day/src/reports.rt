// The report as text.
ghost use Rattle.std.specs.Prelude.{◌≡◌, ◌*◌, ◌≤◌, true, ◌++◌, length, take, is_ok, None, string_bytes};
ghost use Rattle.lru_cache.specs.Rows.{first_wide};
ghost use Rattle.day.specs.Reports.{row_lines, refused_line, report_of};

use curve::{MAX_REQUESTS, REPORT_LEN};
use lru_cache::Refusal;
use std::fmt;
use trace::Line;

// Adds the lines of a report's row for m capacities. No `Display`, as in replies.rt.
fn tell_row(row: &[u64], m: usize, text: &mut String) -> fmt::Result
    requires long { 2 * m ≤ length row.now }
    ensures lines { is_ok result ≡ true → string_bytes text.new ≡ string_bytes text.old ++ row_lines row.now m 0 m }
{
    let (house, known) = row.split_at(m);
    // No `(1..).zip(..)`: a proof then has to rule out as well that the numbers run out.
    for (i, (&house, &known)) in house.iter().zip(&known[..m]).enumerate() {
        let places = i as u64 + 1;
        writeln!(
            text,
            "{}",
            Line::Report {
                places,
                house,
                known
            }
        )?;
    }
    Ok(())
}

// Adds the line of a refusal: both places below say it so, and written out there it is two statements at each.
fn tell_refusal(refusal: Refusal, text: &mut String) -> fmt::Result
    ensures lines { is_ok result ≡ true → string_bytes text.new ≡ string_bytes text.old ++ refused_line refusal }
{
    writeln!(text, "{refusal}")?;
    Ok(())
}

// Adds the report on m capacities of a trace of `total` requests, which `first` begins with as far as it goes.
pub(crate) fn tell_report(
    first: &[u64; MAX_REQUESTS],
    total: u64,
    m: usize,
    text: &mut String,
) -> fmt::Result
    requires small { first_wide (take total first.now) ≡ None }
    ensures lines { is_ok result ≡ true → string_bytes text.new ≡ string_bytes text.old ++ report_of (take total first.now) total m }
{
    if total > MAX_REQUESTS as u64 {
        return tell_refusal(Refusal::LongTrace(total), text);
    }
    // Fixed memory, no heap in the library: as long as the largest report.
    let mut row = [0u64; REPORT_LEN];
    match belady::report(&first[..total as usize], m, &mut row) {
        Ok(()) => tell_row(&row, m, text),
        Err(refusal) => tell_refusal(refusal, text),
    }
}
