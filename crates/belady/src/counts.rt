// The fewest fetches anybody could make with 1, 2 .. places, all in one pass.
ghost use Rattle.std.specs.Prelude.{◌≡◌, ◌≤◌, length, replicate};
ghost use Rattle.belady.specs.Ahead.{Nexts};
ghost use Rattle.belady.specs.Counts.{Tally, Fetches};

use crate::nexts::next_uses;
use crate::sieve::Sieve;
use curve::{MAX_REQUESTS, settle};

// Writes what Belady's rule fetches from an empty cache with 1, 2 .. places, as many as the row has numbers. The row is lent, by C too, so
// what its length may be stands in the contracts here and in no type.
#[tactic(auto, using(crate::proofs::Passes::tally_enough))]
pub fn count(trace: &[u64], row: &mut [u64])
    requires short { length trace.now ≤ 4096 }
    requires low { 1 ≤ length row.old }
    requires high { length row.old ≤ 4096 }
    ensures fetches { Fetches trace.now row.new }
{
    let mut next = [0; MAX_REQUESTS];
    next_uses(trace, &mut next);
    row.fill(0);
    tally(trace, &next, row);
    settle(row, trace.len() as u64);
}

// Counts at each place of the row for every capacity how many requests find their page there. The trace and its next uses come apart, as
// `Foresight::request` is lent them.
fn tally(trace: &[u64], next: &[u64], hits: &mut [u64])
    requires short { length trace.now ≤ 4096 }
    requires long { length trace.now ≤ length next.now }
    requires next { Nexts trace.now next.now }
    requires low { 1 ≤ length hits.old }
    requires high { length hits.old ≤ 4096 }
    requires none { hits.old ≡ replicate (length hits.old) 0 }
    ensures after { Tally trace.now hits.new }
{
    let mut sieve = Sieve::new();
    for (i, &again) in next[..trace.len()].iter().enumerate() {
        sieve.request(trace, i, again, hits);
    }
}
