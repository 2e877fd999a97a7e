// What the output says of a request, and of a capacity in the report.
ghost use Rattle.std.specs.Prelude.{Some};
ghost use Rattle.trace.specs.Lines.{line_bytes};

use std::fmt;

// No `Outcome` with a page beside it: that is recency's, and this crate stands on no other.
#[derive(Clone, Copy, Debug, PartialEq, Eq)]
pub enum Line {
    // the page was in the cache
    Here(u64),
    // the page was not there, and a place was free
    Fetched(u64),
    // the page was not there, and another went
    FetchedFor { page: u64, gone: u64 },
    // with so many places LRU fetches so often, and nobody less often than `known` says
    Report { places: u64, house: u64, known: u64 },
}

impl fmt::Display for Line {
    ghost output = { λ l. Some (line_bytes l) };

    fn fmt<W: fmt::Write>(&self, f: &mut fmt::Formatter<W>) -> fmt::Result {
        match self {
            Line::Here(page) => write!(f, "{page}: here"),
            Line::Fetched(page) => write!(f, "{page}: fetched"),
            Line::FetchedFor { page, gone } => write!(f, "{page}: fetched for {gone}"),
            Line::Report {
                places,
                house,
                known,
            } => write!(f, "{places}: house {house} known {known}"),
        }
    }
}
