// A day of requests: the rows of its cache, and what its report is made of.
ghost use Rattle.std.specs.Prelude.{◌≡◌, true, ◌++◌, length, take, is_ok, None, string_bytes};
ghost use Rattle.trace.specs.Requests.{requests_in};
ghost use Rattle.lru_cache.specs.Rows.{capacity, cached, first_wide};
ghost use Rattle.day.specs.Said.{Ready, lines_for};
ghost use Rattle.day.specs.Reports.{report_of};

use crate::pieces::{CACHE_LEN, Piece, empty, keep, serve_bytes};
use crate::reports::tell_report;
use curve::MAX_REQUESTS;
use recency::LARGEST_ROW;
use std::fmt;
use trace::Header;

#[derive(Drop)]
pub struct Day {
    cache: [u64; CACHE_LEN],
    index: [u64; LARGEST_ROW],
    // the first requests, as many as a report is made of: an array, since a day takes no heap, and `decode` writes to its places
    pub first: [u64; MAX_REQUESTS],
    // how many requests there were, those that were not kept too: so it is no length of `first`
    pub total: u64,
    // how many capacities the report goes up to
    pub reported: usize,
    // the rows can serve
    pub ghost ready: { Ready cache (length index) },
    // what is kept are pages
    pub ghost small: { first_wide (take total first) ≡ None },
}

impl Day {
    ghost use Rattle.day.specs.Days.{kept, Begun, Went};

    // A day on which nothing was requested yet. Where the header's capacity is none, every request is turned away.
    pub fn new(header: Header) -> Day
        ensures begun { Begun header result }
    {
        let mut day = Day {
            cache: [0; CACHE_LEN],
            index: [0; LARGEST_ROW],
            first: [0; MAX_REQUESTS],
            total: 0,
            reported: header.reported,
        };
        empty(&mut day.cache, header.capacity);
        day
    }

    // Serves the requests that a piece holds whole, and adds their lines to the text.
    pub fn serve(&mut self, piece: Piece<'_>, text: &mut String) -> fmt::Result
        ensures went { Went self.old (requests_in piece.entry.bytes.now) self.new }
        ensures lines { is_ok result ≡ true → string_bytes text.new ≡ string_bytes text.old ++ lines_for (capacity self.old.cache) (cached self.old.cache) (requests_in piece.entry.bytes.now) }
    {
        self.total = keep(&mut self.first, self.total, piece.bytes);
        serve_bytes(&mut self.cache, &mut self.index, piece.bytes, text)
    }

    // The first requests, those that its report is made of: all of them, or as many as there is room for.
    pub fn kept(&self) -> &[u64]
        ensures value { result.now ≡ kept self.now }
    {
        let count = self.total.min(MAX_REQUESTS as u64) as usize;
        &self.first[..count]
    }

    // Adds the report's lines to the text, or the one that says why there is none.
    pub fn report(&self, text: &mut String) -> fmt::Result
        ensures lines { is_ok result ≡ true → string_bytes text.new ≡ string_bytes text.old ++ report_of (kept self.now) self.now.total self.now.reported }
    {
        tell_report(&self.first, self.total, self.reported, text)
    }
}
