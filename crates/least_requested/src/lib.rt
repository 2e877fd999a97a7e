// An online policy: the least requested goes.
#![tactic(auto)]

ghost use Rattle.std.specs.Prelude.{◌≡◌, ◌^◌, ◌<◌, ◌≤◌, ◌∷◌, true, length, take, IfOk, IfErr, OnOk, vec_len};
ghost use Rattle.std.specs.List.{remove};
ghost use Rattle.paging.specs.Failing.{pages_in, least_requested_goes};
ghost use Rattle.paging.specs.Lists.{distinct};
ghost use Rattle.least_requested.specs.Counting.{entry, served, last_least, DoesFor};
ghost use Rattle.policies.specs.Onward.{onward, is_capacity, unmade};

use itertools::Itertools;
use lru_cache::{Refusal, Stop};
use policies::{Policy, WithCapacity};
use recency::Capacity;
use rows::{find, put_first};
use std::alloc::Global;

// The last place of the least number, which is the greatest in the order turned round: of several `position_max_by` finds the last.
fn last_place(row: &[u64]) -> usize
    requires some { 0 < length row.now }
    ensures value { result ≡ last_least row.now }
    ensures bound { result < length row.now }
{
    row.iter().position_max_by(|a, b| b.cmp(a)).unwrap_or(0)
}

// Of a full cache the page goes that was requested least since it came, of several the one requested longest ago. A count of 2^64 - 1
// stays there.
#[derive(Drop)]
pub struct LeastRequested {
    // how many places the cache has
    capacity: Capacity,
    // A number for each place from the start: a Vec that is filled one by one may grow, and the archive for C asks its host for no realloc.
    // The pages are lent as one slice, so their counts stand beside them.
    pages: Vec<u64>,
    // how often the page at the same place was requested since it came
    counts: Vec<u64>,
    // how many places, in front, hold a page, the one requested last first
    count: usize,
    ghost long: { vec_len pages ≡ capacity.places },
    ghost level: { vec_len counts ≡ vec_len pages },
    ghost few: { count ≤ capacity.places },
    ghost once: { distinct (take count pages.items) ≡ true },
}

impl LeastRequested {
    ghost use Rattle.least_requested.specs.Held.{held};

    // An empty cache of k places, where k is a capacity.
    pub fn new(heap: Global, k: usize) -> Result<LeastRequested, Stop>
        ensures cases { IfOk result (λ s. DoesFor (2 ^ 64) k (least_requested_goes k) (λ history. pages_in (onward (served s.capacity.places) (held s) history))) }
        ensures fits { OnOk result (is_capacity k ≡ true) }
        ensures refused { IfErr result (λ e. e ≡ unmade k) }
    {
        let capacity = Capacity::new(k).ok_or(Refusal::NoCache)?;
        let pages = vec![in heap; 0u64; k]?;
        let counts = vec![in heap; 0u64; k]?;
        Ok(LeastRequested {
            capacity,
            pages,
            counts,
            count: 0,
        })
    }

    // The place that a requested page is taken from, and how often it was requested then: its own, or where it is not there the first place
    // that holds no page, or where each holds one that of the least requested page.
    fn place_for(&self, page: u64) -> (usize, u64)
        ensures few { result.0 ≤ self.now.count }
        ensures within { result.0 < self.now.capacity.places }
        ensures after { entry page result.1 ∷ remove (held self.now) result.0 ≡ served self.now.capacity.places (held self.now) page }
    {
        if let Some(at) = find(&self.pages[..self.count], page) {
            return (at, self.counts[at].saturating_add(1));
        }
        if self.count < self.capacity.places {
            return (self.count, 1);
        }
        (last_place(&self.counts[..self.count]), 1)
    }
}

impl Policy for LeastRequested {
    ghost use Rattle.least_requested.specs.Held.{held};

    ghost policy = { λ s history. pages_in (onward (served s.capacity.places) (held s) history) };

    fn shown(&self) -> &[u64] {
        &self.pages[..self.count]
    }

    fn serve(&mut self, page: u64) {
        let (at, count) = self.place_for(page);
        put_first(&mut self.pages, at, page);
        put_first(&mut self.counts, at, count);
        self.count = self.count.max(at + 1);
    }
}

impl WithCapacity for LeastRequested {
    fn with_capacity(heap: Global, k: usize) -> Result<LeastRequested, Stop> {
        LeastRequested::new(heap, k)
    }
}
