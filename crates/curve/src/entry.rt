// The curve of a trace, for all input.
ghost use Rattle.std.specs.Prelude.{◌≡◌, length, MatchResult};
ghost use Rattle.std.specs.Result.{result_err};
ghost use Rattle.curve.specs.Counts.{Counted};
ghost use Rattle.curve.specs.Refused.{refusal};

use crate::checks::check;
use crate::counts::count;
use lru_cache::Refusal;

// Writes LRU's fetches from an empty cache with 1, 2 .. m places into the first half of a report's row.
pub fn curve(trace: &[u64], m: usize, row: &mut [u64]) -> Result<(), Refusal>
    ensures refused { result_err result ≡ refusal trace.now m (length row.old) }
    ensures says { MatchResult result (λ _. Counted trace.now m row.old row.new) (λ _. row.new ≡ row.old) }
{
    check(trace, m, row.len())?;
    count(trace, &mut row[..m]);
    Ok(())
}
