// A cache that knows the trace, kept by Belady's rule: while there are places all pages stay, and then the one goes whose next use is
// furthest off. Of several that are as far off the one goes that came last.
ghost use Rattle.std.specs.Prelude.{◌≡◌, ℕ, ◌+◌, ◌<◌, ◌≤◌, not, List, [], length, drop, slice_index, slice_index_or};
ghost use Rattle.paging.specs.Belady.{belady, belady_schedule};
ghost use Rattle.paging.specs.Lists.{has};

use crate::places::latest;
use curve::MAX_CAPACITIES;
use lru_cache::Capacity;
use rows::{find, put_first};

// There is no heap here, so both rows have places for as many pages as the largest capacity of a report has use for. One `len` for both: as
// two `ArrayVec`s `request` is not proved, since the lemma of the keys beside a page that comes speaks of rows that go on behind the last.
#[derive(Drop)]
pub struct Foresight {
    capacity: Capacity,
    // the page that came last first: they are lent as one slice, so their keys stand beside them
    pages: [u64; MAX_CAPACITIES],
    // when the page at the same place is requested next
    keys: [u64; MAX_CAPACITIES],
    // how many there are
    len: usize,
    ghost few: { len ≤ capacity.places },
}

impl Foresight {
    ghost use Rattle.belady.specs.Ahead.{Nexts};
    ghost use Rattle.belady.specs.Kept.{held, Ready, Place};

    // An empty cache of so many places.
    pub fn new(capacity: Capacity) -> Foresight
        ensures places { result.capacity.places ≡ capacity.places }
        ensures none { held result ≡ [] }
        ensures ready { (trace : List ℕ) → Ready trace 0 result }
    {
        Foresight {
            capacity,
            pages: [0; MAX_CAPACITIES],
            keys: [0; MAX_CAPACITIES],
            len: 0,
        }
    }

    // Its pages, the one that came last first.
    pub fn cache(&self) -> &[u64]
        ensures value { result.now ≡ held self.now }
    {
        &self.pages[..self.len]
    }

    // The place that a page takes which comes into the cache.
    fn place_for(&self) -> usize
        ensures value { Place self.now.capacity.places self.now.keys self.now.len result }
    {
        if self.len < self.capacity.places {
            return self.len;
        }
        latest(&self.keys[..self.len])
    }

    // Serves the i-th request of a trace, with where each request's page is requested next. Answers whether the page was fetched.
    pub fn request(&mut self, trace: &[u64], next: &[u64], i: usize) -> bool
        requires within { i < length trace.now }
        requires long { length trace.now ≤ length next.now }
        requires next { Nexts trace.now next.now }
        requires ready { Ready trace.now i self.old }
        ensures value { result ≡ not (has (held self.old) (slice_index trace.now i)) }
        ensures after { held self.new ≡ belady self.old.capacity.places (held self.old) (slice_index trace.now i) (drop (i + 1) trace.now) }
        ensures shows { held self.new ≡ slice_index_or (belady_schedule self.old.capacity.places [] trace.now) i [] }
        ensures places { self.new.capacity.places ≡ self.old.capacity.places }
        ensures ready { Ready trace.now (i + 1) self.new }
    {
        let page = trace[i];
        if let Some(at) = find(self.cache(), page) {
            self.keys[at] = next[i];
            return false;
        }
        let end = self.place_for();
        put_first(&mut self.pages, end, page);
        put_first(&mut self.keys, end, next[i]);
        self.len = self.capacity.places.min(self.len + 1);
        true
    }
}
