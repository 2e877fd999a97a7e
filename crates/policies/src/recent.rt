// LRU, on the cache of crate `lru_cache`: the two rows are the policy's own, and stay open from request to request.
ghost use Rattle.std.specs.Prelude.{◌≡◌, ◌+◌, ◌*◌, ◌≤◌, true, [], length, drop, IfOk, IfErr, OnOk, vec_len, slice_index};
ghost use Rattle.paging.specs.Lru.{lru};
ghost use Rattle.paging.specs.Rules.{lru_policy};
ghost use Rattle.recency.specs.Row as recent;
ghost use Rattle.recency.specs.Sound.{Sound};
ghost use Rattle.lru_cache.specs.Rows.{cached, row_of};
ghost use Rattle.policies.specs.Onward.{onward, is_capacity, unmade, Does};
ghost use Rattle.policies.specs.Whole.{whole};

use crate::policy::{Policy, WithCapacity};
use lru_cache::{Refusal, Stop};
use recency::Capacity;
use std::alloc::Global;

// Makes an empty cache of k places of two rows, whatever they held. This and `turn` are functions over two slices, since a ghost field that
// spans both rows holds again only when both are written.
fn start(cache: &mut [u64], index: &mut [u64], k: Capacity)
    requires long { 2 + k.places ≤ length cache.old }
    requires room { 9 * k.places + 5 ≤ length index.old }
    ensures sound { Sound k.places index.new }
    ensures none { recent.pages index.new ≡ [] }
    ensures after { cache.new ≡ row_of k.places (recent.pages index.new) (drop (2 + k.places) cache.old) }
{
    recency::clear(index, k.places);
    lru_cache::close(cache, index, k.places);
}

// One request on a cache row of capacity k and its open index.
fn turn(cache: &mut [u64], index: &mut [u64], k: usize, page: u64)
    requires sound { Sound k index.old }
    requires long { 2 + k ≤ length cache.old }
    ensures sound { Sound k index.new }
    ensures holds { recent.pages index.new ≡ lru k (recent.pages index.old) page }
    ensures after { cache.new ≡ row_of k (recent.pages index.new) (drop (2 + k) cache.old) }
{
    lru_cache::request(index, k, page);
    lru_cache::close(cache, index, k);
}

// The pages of a cache row of capacity k.
fn pages_of(cache: &[u64], k: usize) -> &[u64]
    requires long { 2 + k ≤ length cache.now }
    requires few { slice_index cache.now 1 ≤ k }
    ensures value { result.now ≡ cached cache.now }
{
    let n = cache[1] as usize;
    &cache[2..2 + n]
}

// Of a full cache the page goes that was requested longest ago.
#[derive(Drop)]
pub struct Lru {
    // how many places the cache has
    capacity: Capacity,
    // the cache row as C has it, since `lru_cache::close` writes it: k, how many pages it holds, and the pages, the one requested last first
    cache: Vec<u64>,
    // the index that finds them
    index: Vec<u64>,
    ghost formed: { whole capacity.places index.items ≡ true },
    ghost closed: { cache.items ≡ row_of capacity.places (recent.pages index.items) [] },
}

impl Lru {
    // An empty cache of k places, where k is a capacity.
    pub fn new(heap: Global, k: usize) -> Result<Lru, Stop>
        ensures cases { IfOk result (λ s. Does k (lru_policy k) (onward (lru s.capacity.places) (recent.pages s.index.items))) }
        ensures fits { OnOk result (is_capacity k ≡ true) }
        ensures refused { IfErr result (λ e. e ≡ unmade k) }
    {
        let capacity = Capacity::new(k).ok_or(Refusal::NoCache)?;
        let mut cache = vec![in heap; 0u64; 2 + capacity.places]?;
        let mut index = vec![in heap; 0u64; capacity.row_len()]?;
        start(&mut cache, &mut index, capacity);
        Ok(Lru {
            capacity,
            cache,
            index,
        })
    }
}

impl Policy for Lru {
    ghost policy = { λ s. onward (lru s.capacity.places) (recent.pages s.index.items) };

    fn shown(&self) -> &[u64] {
        pages_of(&self.cache, self.capacity.places)
    }

    fn serve(&mut self, page: u64) {
        let k = self.capacity.places;
        turn(&mut self.cache, &mut self.index, k, page);
    }
}

impl WithCapacity for Lru {
    fn with_capacity(heap: Global, k: usize) -> Result<Lru, Stop> {
        Lru::new(heap, k)
    }
}
