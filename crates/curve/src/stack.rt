// The pages requested last, each once, the latest first. A page's place there is how many different pages were requested since.
ghost use Rattle.std.specs.Prelude.{◌≡◌, ◌≤◌, false, [], MatchOption};
ghost use Rattle.arrayvec.specs.ArrayVec.{array_vec_len};
ghost use Rattle.paging.specs.Lists.{has};
ghost use Rattle.paging.specs.Lru.{lru};

use crate::checks::MAX_CAPACITIES;
use arrayvec::ArrayVec;
use lru_cache::Capacity;
use rows::{find, put_first};

// There is no heap here: there are places for as many pages as the largest capacity of a report has use for.
#[derive(Drop)]
pub(crate) struct Stack {
    // how many pages are kept
    capacity: Capacity,
    pages: ArrayVec<u64, MAX_CAPACITIES>,
    ghost few: { array_vec_len pages ≤ capacity.places },
}

impl Stack {
    ghost use Rattle.curve.specs.Stacked.{stacked, Found};

    // No page, and room for so many.
    pub(crate) fn new(capacity: Capacity) -> Stack
        ensures none { stacked result ≡ [] }
        ensures places { result.capacity.places ≡ capacity.places }
    {
        Stack {
            capacity,
            pages: ArrayVec::new(),
        }
    }

    // Puts a page in front, and answers where it stood before.
    pub(crate) fn request(&mut self, page: u64) -> Option<usize>
        ensures finds { MatchOption result (has (stacked self.old) page ≡ false) (Found self.old.capacity.places page (stacked self.old)) }
        ensures after { stacked self.new ≡ lru self.old.capacity.places (stacked self.old) page }
        ensures places { self.new.capacity.places ≡ self.old.capacity.places }
    {
        if let Some(at) = find(&self.pages, page) {
            put_first(&mut self.pages, at, page);
            return Some(at);
        }
        if self.pages.len() == self.capacity.places {
            self.pages.pop();
        }
        self.pages.insert(0, page);
        None
    }
}
