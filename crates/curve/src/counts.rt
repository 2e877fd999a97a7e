// How many requests of a trace LRU fetches with 1, 2 .. places, all in one pass.
ghost use Rattle.std.specs.Prelude.{◌≡◌, ◌≤◌, length, replicate, sum};
ghost use Rattle.curve.specs.Counts.{Tally, Left, Fetches};

use crate::stack::Stack;
use lru_cache::Capacity;

// Writes LRU's fetches from an empty cache with 1, 2 .. places, as many as the row has numbers. The row is lent, by C too, so what its
// length may be stands in the contracts here and in no type.
#[tactic(auto, using(crate::proofs::Passes::tally_enough))]
pub fn count(trace: &[u64], row: &mut [u64])
    requires low { 1 ≤ length row.old }
    requires high { length row.old ≤ 4096 }
    ensures fetches { Fetches trace.now row.new }
{
    row.fill(0);
    tally(trace, row);
    settle(row, trace.len() as u64);
}

// Counts at each place how many requests find their page there.
fn tally(trace: &[u64], hits: &mut [u64])
    requires low { 1 ≤ length hits.old }
    requires high { length hits.old ≤ 4096 }
    requires none { hits.old ≡ replicate (length hits.old) 0 }
    ensures after { Tally trace.now hits.new }
{
    let mut stack = Stack::new(Capacity { places: hits.len() });
    for &page in trace {
        if let Some(at) = stack.request(page) {
            hits[at] += 1;
        }
    }
}

// With c places the requests that find their page at a place below c are hits: what is left is fetched.
pub fn settle(hits: &mut [u64], requests: u64)
    requires enough { sum hits.old ≤ requests }
    ensures after { Left hits.old requests hits.new }
{
    let mut left = requests;
    for hit in hits.iter_mut() {
        left -= *hit;
        *hit = left;
    }
}
