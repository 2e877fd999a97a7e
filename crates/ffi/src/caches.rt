// A cache on two lent rows: made empty, asked for one page, asked for the pages of a whole trace.
ghost use Rattle.std.specs.Prelude.{◌≡◌, [], ◌∷◌, length, MatchBool, MatchOption};
ghost use Rattle.lru_cache.specs.Rows.{refusal};
ghost use Rattle.ffi.specs.Caches.{roomy, Opened, Answered, Counted, Untouched};
ghost use Rattle.lru_cache.specs.declared.refusals.Refusal.TheVariants.{NoCache};

use crate::packs::{count, refuse, tell};
use lru_cache::Refusal;

// Makes an empty cache of k places, whatever the rows held.
#[unsafe(no_mangle)]
pub extern "C" fn dq_open(k: usize, cache: &mut [u64], index: &mut [u64]) -> u64
    ensures cases { MatchBool (roomy k (length cache.old) (length index.old)) (Opened k cache.old index.old result cache.new index.new) (Untouched NoCache cache.old index.old result cache.new index.new) }
{
    let Some(len) = recency::row_len(k) else {
        return refuse(Refusal::NoCache);
    };
    if cache.len() < 2 + k || index.len() < len {
        return refuse(Refusal::NoCache);
    }
    recency::clear(index, k);
    lru_cache::close(cache, index, k);
    count(0)
}

// One request.
#[unsafe(no_mangle)]
pub extern "C" fn dq_serve(cache: &mut [u64], index: &mut [u64], page: u64) -> u64
    ensures cases { MatchOption (refusal cache.old (length index.old) (page ∷ [])) (Answered cache.old index.old page result cache.new index.new) (λ e. Untouched e cache.old index.old result cache.new index.new) }
{
    tell(lru_cache::serve(cache, index, page))
}

// The requests of a trace. Counts those that were fetched.
#[unsafe(no_mangle)]
pub extern "C" fn dq_play(cache: &mut [u64], index: &mut [u64], trace: &[u64]) -> u64
    ensures cases { MatchOption (refusal cache.old (length index.old) trace.now) (Counted cache.old index.old trace.now result cache.new index.new) (λ e. Untouched e cache.old index.old result cache.new index.new) }
{
    lru_cache::play(cache, index, trace, &mut []).map_or_else(refuse, count)
}
