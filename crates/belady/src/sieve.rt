// One row of pages for every capacity: what anybody would keep in c places who knows the trace are its first c pages. Beside each page
// stands its key, when it is requested next.
ghost use Rattle.std.specs.Prelude.{◌≡◌, ◌+◌, ◌<◌, ◌≤◌, length};
ghost use Rattle.paging.proofs.Rows.{Row};
ghost use Rattle.belady.specs.Ahead.{next_at};

use crate::sifts::{Sifted, sift};
use curve::MAX_CAPACITIES;

// There is no heap here, so both rows have places for as many pages as the largest capacity of a report has use for. One `len` for both: as
// two `ArrayVec`s `request` is not proved, since the lemmas speak of rows that have at least as many numbers as there are counters.
#[derive(Drop)]
pub(crate) struct Sieve {
    pages: [u64; MAX_CAPACITIES],
    // when the page at the same place is requested next
    keys: [u64; MAX_CAPACITIES],
    // how many there are
    len: usize,
}

impl Sieve {
    // No page.
    pub(crate) fn new() -> Sieve
        ensures len { result.len ≡ 0 }
    {
        Sieve {
            pages: [0; MAX_CAPACITIES],
            keys: [0; MAX_CAPACITIES],
            len: 0,
        }
    }

    // Serves the i-th request of a trace, whose page is requested again at `next`. The counter of the place where the page stood goes up.
    // The row has no more places than there are counters: what is carried beyond them goes. The counters are lent, so how many there are
    // stands here and in no type.
    // A trace and i stand apart, as `Foresight::request` takes them: a struct of the two, made anew for each call, would be no plainer.
    pub(crate) fn request(&mut self, trace: &[u64], i: usize, next: u64, hits: &mut [u64])
        requires within { i < length trace.now }
        requires short { length trace.now ≤ 4096 }
        requires next { next ≡ next_at trace.now i }
        requires some { 1 ≤ length hits.old }
        requires most { length hits.old ≤ 4096 }
        requires few { self.old.len ≤ length hits.old }
        requires row { Row trace.now i hits.old self.old.pages self.old.keys self.old.len }
        ensures few { self.new.len ≤ length hits.new }
        ensures row { Row trace.now (i + 1) hits.new self.new.pages self.new.keys self.new.len }
    {
        let Sifted { at, carry, key } = sift(trace, i, &mut self.pages, &mut self.keys, self.len);
        match at {
            Some(at) => {
                self.pages[at] = carry;
                self.keys[at] = key;
                hits[at] += 1;
            }
            None if self.len < hits.len() => {
                self.pages[self.len] = carry;
                self.keys[self.len] = key;
                self.len += 1;
            }
            None => {}
        }
        self.keys[0] = next;
    }
}
