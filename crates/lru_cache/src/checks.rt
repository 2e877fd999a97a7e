// Whether rows and requests that come from outside are what they should be: each check hands on its value or says why not.
ghost use Rattle.std.specs.Prelude.{◌≡◌, ◌+◌, ◌*◌, ◌^◌, ◌<◌, ◌≤◌, true, false, [], length, Some, MatchOption, MatchResult};
ghost use Rattle.std.specs.Result.{result_err};
ghost use Rattle.lru_cache.specs.Rows.{capacity, shaped, first_bad, fault, first_wide};
ghost use Rattle.lru_cache.specs.Promises.{Shaped, Checked};

use crate::refusals::Refusal;
use recency::{Capacity, LARGEST_ROW, SMALL_CAPACITY, SMALL_ROW};

// A page is a number below this.
pub const PAGE_LIMIT: u64 = 0x1_0000_0000;

// The capacity of a cache row with room for it, where an index row of `index_len` numbers is long enough.
fn shape(cache: &[u64], index_len: usize) -> Option<Capacity>
    ensures cases { MatchOption result (shaped cache.now index_len ≡ false) (λ k. Shaped cache.now index_len k.places) }
{
    let [capacity, _, ..] = cache else {
        return None;
    };
    let k = Capacity::new(*capacity as usize)?;
    if cache.len() < 2 + k.places || index_len < k.row_len() {
        return None;
    }
    Some(k)
}

// Between a small cache and any other a middling one is checked with an index of its own: a larger one costs more to clear than such a
// cache to serve. `fetches` plays with indexes of the same sizes.
pub(crate) const MIDDLE_CAPACITY: usize = 512;

pub(crate) const MIDDLE_ROW: usize = 9 * MIDDLE_CAPACITY + 5;

// The pages of a cache row, which are no more than it has places.
#[derive(Clone, Copy)]
struct Held<'a> {
    pages: &'a [u64],
    capacity: Capacity,
    ghost few: { length pages.now ≤ capacity.places },
}

impl Held<'_> {
    // Whether each page is below 2^32 and equals none before it, or the first that is not. `seen` becomes an index of the pages passed,
    // whatever it held.
    #[tactic(auto, using(crate::proofs::Scans::scan_wide, crate::proofs::Scans::scan_twice, crate::proofs::Scans::scan_all))]
    fn scan(&self, seen: &mut [u64]) -> Result<(), Refusal>
        requires room { 9 * self.now.capacity.places + 5 ≤ length seen.old }
        ensures value { result_err result ≡ first_bad 2 [] self.now.pages.now }
    {
        let k = self.capacity.places;
        recency::clear(seen, k);
        for (i, &page) in self.pages.iter().enumerate() {
            if page >= PAGE_LIMIT || recency::contains(seen, k, page) {
                return Err(Refusal::BadPage(2 + i as u64));
            }
            recency::fill(seen, k, page);
        }
        Ok(())
    }

    // The same with an index of N numbers of its own, so that nothing lent is touched.
    fn scan_apart<const N: usize>(&self) -> Result<(), Refusal>
        requires room { 9 * self.now.capacity.places + 5 ≤ N }
        requires size { N ≤ 65536 }
        ensures value { result_err result ≡ first_bad 2 [] self.now.pages.now }
    {
        let mut seen = [0u64; N];
        self.scan(&mut seen)
    }

    // The same with an index of a size that fits the capacity.
    fn first_fault(&self) -> Result<(), Refusal>
        ensures value { result_err result ≡ first_bad 2 [] self.now.pages.now }
    {
        match self.capacity.places {
            0..=SMALL_CAPACITY => self.scan_apart::<SMALL_ROW>(),
            0..=MIDDLE_CAPACITY => self.scan_apart::<MIDDLE_ROW>(),
            _ => self.scan_apart::<LARGEST_ROW>(),
        }
    }
}

// The capacity of a cache row and how many pages it holds, where it is one and an index row of `index_len` numbers is long enough. A pair,
// since the two part at once: `open` takes both, all else the capacity alone.
pub fn check(cache: &[u64], index_len: usize) -> Result<(usize, usize), Refusal>
    ensures cases { MatchResult result (λ p. Checked cache.now index_len p.0 p.1) (λ e. fault cache.now index_len ≡ Some e) }
{
    let k = shape(cache, index_len).ok_or(Refusal::NoCache)?;
    let n = cache[1] as usize;
    if n > k.places {
        return Err(Refusal::Overfull);
    }
    let held = Held {
        pages: &cache[2..2 + n],
        capacity: k,
    };
    held.first_fault()?;
    Ok((k.places, n))
}

// Whether every page of a trace is below 2^32, or the first that is not.
#[tactic(auto, using(crate::proofs::Scans::wide_found, crate::proofs::Scans::wide_more, crate::proofs::Scans::wide_all))]
pub fn first_wide(trace: &[u64]) -> Result<(), Refusal>
    ensures value { result_err result ≡ first_wide trace.now }
{
    // A loop: by `find` each request takes 2 instructions more, and has none to spare beside the ring in C (docs/PERFORMANCE.md).
    for &page in trace {
        if page >= PAGE_LIMIT {
            return Err(Refusal::BadRequest(page));
        }
    }
    Ok(())
}
