// The whole report of a trace, for all input.
ghost use Rattle.std.specs.Prelude.{◌≡◌, length, MatchResult};
ghost use Rattle.std.specs.Result.{result_err};
ghost use Rattle.curve.specs.Refused.{refusal};
ghost use Rattle.belady.specs.Reported.{Reported};

use crate::counts::count;
use curve::check;
use lru_cache::Refusal;

// Writes two numbers for each of 1, 2 .. m places: in the first half of the row what LRU fetches from an empty cache, in the second half
// the fewest fetches anybody could make who knows the trace. Anything beyond is left as it is.
pub fn report(trace: &[u64], m: usize, row: &mut [u64]) -> Result<(), Refusal>
    ensures refused { result_err result ≡ refusal trace.now m (length row.old) }
    ensures says { MatchResult result (λ _. Reported trace.now m row.old row.new) (λ _. row.new ≡ row.old) }
{
    check(trace, m, row.len())?;
    curve::count(trace, &mut row[..m]);
    count(trace, &mut row[m..2 * m]);
    Ok(())
}
