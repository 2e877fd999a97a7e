// The header that a day is played with.
ghost use Rattle.std.specs.Prelude.{◌≡◌};
ghost use Rattle.convert.specs.Headers.{header_with};

use trace::{Header, PLACES};

// The header of a day where places and report are given or not: what is not given is as in the day's own header, or, where it has none, 40
// places and a report up to as many.
pub fn header_with(places: Option<usize>, report: Option<usize>, own: Option<Header>) -> Header
    ensures value { result ≡ header_with places report own }
{
    match own {
        Some(header) => Header {
            capacity: places.unwrap_or(header.capacity),
            reported: report.unwrap_or(header.reported),
        },
        None => {
            let capacity = places.unwrap_or(PLACES.into());
            Header {
                capacity,
                reported: report.unwrap_or(capacity),
            }
        }
    }
}
