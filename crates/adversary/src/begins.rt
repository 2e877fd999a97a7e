// Where a challenge begins.
ghost use Rattle.std.specs.Prelude.{◌≡◌, ◌+◌, ◌*◌, ◌<◌, ◌≤◌, ◌⊎◌, length, IfOk, Some, MatchOption, MatchResult, nat_lt};
ghost use Rattle.adversary.specs.Begins.{Begun, unfit};

use crate::challenge::Challenge;
use lru_cache::Refusal;
use recency::Capacity;

// How many numbers the row of a challenge of a policy with k places has, where k is a capacity.
pub fn row_len(k: usize) -> Option<usize>
    ensures cases { MatchOption result ((k ≡ 0) ⊎ (4096 < k)) (λ n. (1 ≤ k) × (k ≤ 4096) × (n ≡ 3 * k + 1)) }
{
    Some(3 * Capacity::new(k)?.places + 1)
}

impl Challenge {
    // A challenge of a policy with k places beside a schedule with h, before the first request. The row may hold anything.
    pub fn begin(k: usize, h: usize, row: &[u64]) -> Result<Challenge, Refusal>
        ensures cases { MatchResult result (λ c. Begun k h row.now c) (λ e. unfit k h (length row.now) ≡ Some e) }
        ensures unasked { IfOk result (λ c. c.last ≡ 0) }
    {
        let len = row_len(k).ok_or(Refusal::NoCache)?;
        if row.len() < len {
            return Err(Refusal::NoCache);
        }
        if h == 0 || h > k {
            return Err(Refusal::BadPlaces(h as u64));
        }
        Ok(Challenge {
            k,
            h,
            next: 1,
            listed: 0,
            noted: 0,
            picks: 0,
            shown: 0,
            last: 0,
        })
    }

    // How many numbers its row has at the least.
    pub(crate) fn row_len(self) -> usize
        ensures value { result ≡ 3 * self.k + 1 }
    {
        3 * self.k + 1
    }

    // Whether a page was requested yet.
    pub(crate) fn is_begun(self) -> bool
        ensures value { result ≡ nat_lt 1 self.next }
    {
        self.next > 1
    }

    // The page requested last, 0 before the first request.
    pub fn page(self) -> u64
        ensures value { result ≡ self.last }
    {
        self.last
    }
}
