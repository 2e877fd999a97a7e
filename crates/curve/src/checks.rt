// Whether a report can be made of a trace.
ghost use Rattle.std.specs.Prelude.{◌≡◌, ◌*◌, ◌<◌, ◌≤◌, ◌⊎◌, MatchOption, OnOk};
ghost use Rattle.std.specs.Result.{result_err};
ghost use Rattle.curve.specs.Refused.{refusal, Checked};

use lru_cache::{Capacity, Refusal, first_wide};
use recency::MAX_CAPACITY;

// A report is made of at most so many requests. It is a limit of its own: no capacity has to do with it.
pub const MAX_REQUESTS: usize = 4096;
// A report is made for at most so many capacities: for each that there is.
pub const MAX_CAPACITIES: usize = MAX_CAPACITY;
// The most numbers that a report's row has: two for each capacity.
pub const REPORT_LEN: usize = 2 * MAX_CAPACITIES;

// How many numbers the row of a report for m capacities has, where m is 1 to 4,096: two for each.
pub fn report_len(m: usize) -> Option<usize>
    ensures cases { MatchOption result ((m ≡ 0) ⊎ (4096 < m)) (λ n. (1 ≤ m) × (m ≤ 4096) × (n ≡ 2 * m)) }
{
    Some(2 * Capacity::new(m)?.places)
}

// The first reason not to make a report of a trace for m capacities in a row of `len` numbers.
#[tactic(auto, unfolding(crate::specs::Refused::refusal))]
pub fn check(trace: &[u64], m: usize, len: usize) -> Result<(), Refusal>
    ensures refused { result_err result ≡ refusal trace.now m len }
    ensures checked { OnOk result (Checked trace.now m len) }
{
    first_wide(trace)?;
    if trace.len() > MAX_REQUESTS {
        return Err(Refusal::LongTrace(trace.len() as u64));
    }
    let numbers = report_len(m).ok_or(Refusal::BadCapacities(m as u64))?;
    if len < numbers {
        return Err(Refusal::ShortReport(len as u64));
    }
    Ok(())
}
