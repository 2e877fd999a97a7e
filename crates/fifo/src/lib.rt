// An online policy: first come, first gone.
#![tactic(auto)]

ghost use Rattle.std.specs.Prelude.{◌≡◌, ◌≤◌, true, take, IfOk, IfErr, OnOk, vec_len};
ghost use Rattle.paging.specs.Rules.{fifo_policy};
ghost use Rattle.policies.specs.Onward.{onward, is_capacity, unmade, Does};
ghost use Rattle.fifo.specs.Queue.{fifo};

use lru_cache::{Refusal, Stop};
use policies::{Policy, WithCapacity};
use recency::Capacity;
use rows::{holds, put_first};
use std::alloc::Global;

// Of a full cache the page goes that came first.
#[derive(Drop)]
pub struct Fifo {
    // how many places the cache has
    capacity: Capacity,
    // a number for each place from the start: a Vec that is filled one by one may grow, and the archive for C asks its host for no realloc
    pages: Vec<u64>,
    // how many of them, in front, are its pages, the one that came last first
    count: usize,
    ghost long: { vec_len pages ≡ capacity.places },
    ghost few: { count ≤ capacity.places },
}

impl Fifo {
    // An empty cache of k places, where k is a capacity.
    pub fn new(heap: Global, k: usize) -> Result<Fifo, Stop>
        ensures cases { IfOk result (λ s. Does k (fifo_policy k) (onward (fifo s.capacity.places) (take s.count s.pages.items))) }
        ensures fits { OnOk result (is_capacity k ≡ true) }
        ensures refused { IfErr result (λ e. e ≡ unmade k) }
    {
        let capacity = Capacity::new(k).ok_or(Refusal::NoCache)?;
        let pages = vec![in heap; 0u64; k]?;
        Ok(Fifo {
            capacity,
            pages,
            count: 0,
        })
    }
}

impl Policy for Fifo {
    ghost policy = { λ s. onward (fifo s.capacity.places) (take s.count s.pages.items) };

    #[tactic(auto, unfolding(policies::specs::Onward::onward))]
    fn shown(&self) -> &[u64] {
        &self.pages[..self.count]
    }

    #[tactic(auto, using(crate::proofs::Rules::stays))]
    fn serve(&mut self, page: u64) {
        if holds(&self.pages[..self.count], page) {
            return;
        }
        let last = self.count.min(self.capacity.places - 1);
        put_first(&mut self.pages, last, page);
        self.count = last + 1;
    }
}

impl WithCapacity for Fifo {
    fn with_capacity(heap: Global, k: usize) -> Result<Fifo, Stop> {
        Fifo::new(heap, k)
    }
}
