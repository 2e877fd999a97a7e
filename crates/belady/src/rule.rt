// What Belady's rule fetches with one number of places.
ghost use Rattle.std.specs.Prelude.{◌≡◌, [], IfOk};
ghost use Rattle.std.specs.Result.{result_err};
ghost use Rattle.paging.specs.Belady.{belady_fetches, Fewest};
ghost use Rattle.belady.specs.Counts.{uncounted};

use crate::foresight::Foresight;
use crate::nexts::next_uses;
use curve::MAX_REQUESTS;
use lru_cache::{Capacity, Refusal};

// How many requests of a trace Belady's rule fetches from an empty cache of h places, where the trace has at most 4,096 requests and h is
// 1 to 4,096. Nobody fetches fewer.
pub fn fetches(trace: &[u64], h: usize) -> Result<u64, Refusal>
    ensures counted { IfOk result (λ n. (n ≡ belady_fetches h [] trace.now) × Fewest h trace.now n) }
    ensures refused { result_err result ≡ uncounted h trace.now }
{
    if trace.len() > MAX_REQUESTS {
        return Err(Refusal::LongTrace(trace.len() as u64));
    }
    let capacity = Capacity::new(h).ok_or(Refusal::NoCache)?;
    let mut next = [0; MAX_REQUESTS];
    next_uses(trace, &mut next);
    let mut cache = Foresight::new(capacity);
    let mut fetched = 0;
    // By number, which `request` takes; a `filter` with `count` is no plainer, since its test would change the cache.
    for i in 0..trace.len() {
        if cache.request(trace, &next, i) {
            fetched += 1;
        }
    }
    Ok(fetched)
}
