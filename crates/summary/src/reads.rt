// A summary read off the report for every number of places.
ghost use Rattle.std.specs.Prelude.{◌≡◌, ◌-◌, ◌<◌, ◌≤◌, [], length, slice_index, All};
ghost use Rattle.paging.specs.Belady.{belady_fetches};
ghost use Rattle.paging.specs.Lru.{lru_fetches};
ghost use Rattle.paging.specs.Stretches.{different};
ghost use Rattle.summary.specs.Counted.{rounded_up, Tightest, Needed, Says};
ghost use Rattle.summary.specs.Reports.{Reports};

use crate::summaries::Summary;
use curve::MAX_CAPACITIES;
use lru_cache::Capacity;

// The report of a trace for 1, 2 .. 4,096 places.
#[derive(Clone, Copy, Debug)]
pub(crate) struct Report<'a> {
    pub(crate) trace: &'a [u64],
    // what LRU fetches, and the fewest that anybody could
    pub(crate) house: &'a [u64],
    pub(crate) known: &'a [u64],
    ghost reports: { Reports trace.now house.now known.now },
}

// a / b rounded up, and 0 where b is 0.
fn rounded_up(a: u64, b: u64) -> u64
    ensures value { result ≡ rounded_up a b }
{
    if b == 0 { 0 } else { a.div_ceil(b) }
}

// The number of places, 1 to k, against which the promise of k places is tightest; of several the largest. The row has the fewest fetches
// with 1, 2 .. k places.
fn tightest(known: &[u64]) -> usize
    requires low { 1 ≤ length known.now }
    requires high { length known.now ≤ 4096 }
    requires small { All (λ n. n ≤ 4096) known.now }
    ensures value { Tightest (λ h. slice_index known.now (h - 1)) (length known.now) result }
{
    let k = known.len();
    // A loop: with `enumerate` and `max_by` it was not proved that the products of any two fit, nor which place is answered.
    let mut tight = 1;
    let mut against = known[0];
    for (i, &fewest) in known.iter().enumerate() {
        let h = i + 1;
        if fewest * (k + 1 - tight) as u64 <= against * (k + 1 - h) as u64 {
            tight = h;
            against = fewest;
        }
    }
    tight
}

impl Report<'_> {
    // What LRU fetches with c places.
    fn fetched(self, c: Capacity) -> u64
        ensures value { result ≡ lru_fetches c.places [] self.entry.trace.now }
        ensures small { result ≤ 4096 }
    {
        self.house[c.places - 1]
    }

    // The fewest that anybody could have fetched with c places.
    fn fewest(self, c: Capacity) -> u64
        ensures value { result ≡ belady_fetches c.places [] self.entry.trace.now }
        ensures small { result ≤ 4096 }
    {
        self.known[c.places - 1]
    }

    // The fewest places with which LRU fetches no more than n.
    fn needed(self, n: u64) -> usize
        requires enough { different self.trace.now ≤ n }
        ensures within { result ≤ 4096 }
        ensures value { Needed (λ c. lru_fetches c [] self.entry.trace.now) n result }
    {
        let found = self.house.iter().position(|&fetched| fetched <= n);
        found.unwrap() + 1
    }

    // The summary of the trace with k places.
    pub(crate) fn read(self, capacity: Capacity) -> Summary
        ensures says { Says self.entry.trace.now capacity.places result }
    {
        let k = capacity.places;
        let house = self.fetched(capacity);
        let known = self.fewest(capacity);
        let tight = tightest(&self.known[..k]);
        let against = self.fewest(Capacity { places: tight });
        Summary {
            requests: self.trace.len() as u64,
            different: self.fetched(Capacity {
                places: MAX_CAPACITIES,
            }),
            places: k as u64,
            house,
            known,
            hundredths: rounded_up(100 * house, known),
            tight: tight as u64,
            against,
            allowed: k as u64 * against / (k + 1 - tight) as u64,
            needed: self.needed(known) as u64,
        }
    }
}
