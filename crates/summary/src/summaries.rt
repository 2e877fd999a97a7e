// The summary of a trace, for all input.
ghost use Rattle.std.specs.Prelude.{◌≡◌, IfOk};
ghost use Rattle.std.specs.Result.{result_err};
ghost use Rattle.curve.specs.Refused.{refusal};
ghost use Rattle.summary.specs.Counted.{Says};

use crate::reads::Report;
use curve::{MAX_CAPACITIES, REPORT_LEN};
use lru_cache::{Capacity, Refusal};

#[derive(Clone, Copy, Debug, PartialEq, Eq)]
pub struct Summary {
    // how many requests there were
    pub requests: u64,
    // how many different pages were requested
    pub different: u64,
    // how many places the cache has
    pub places: u64,
    // what LRU fetches with so many places
    pub house: u64,
    // the fewest that anybody could have fetched with as many
    pub known: u64,
    // a hundred times house / known, rounded up
    pub hundredths: u64,
    // against how many places LRU's promise is tightest
    pub tight: u64,
    // the fewest that anybody could have fetched with as many as that
    pub against: u64,
    // how many fetches the tightest promise allows LRU
    pub allowed: u64,
    // the fewest places with which LRU fetches no more than known
    pub needed: u64,
}

// What a trace comes to with k places.
pub fn summarize(trace: &[u64], k: usize) -> Result<Summary, Refusal>
    ensures refused { result_err result ≡ refusal trace.now k 8192 }
    ensures says { IfOk result (λ s. Says trace.now k s) }
{
    curve::check(trace, k, REPORT_LEN)?;
    // a row of the largest size for every k, on the stack: the library takes fixed memory and no heap
    let mut row = [0; REPORT_LEN];
    belady::report(trace, MAX_CAPACITIES, &mut row)?;
    let (house, known) = row.split_at(MAX_CAPACITIES);
    let report = Report {
        trace,
        house,
        known,
    };
    Ok(report.read(Capacity { places: k }))
}
