// Requests that come in pieces of bytes, served on two lent rows and told in lines of text, and the first of them kept.
ghost use Rattle.std.specs.Prelude.{◌≡◌, ℕ, ◌+◌, ◌-◌, ◌*◌, ◌^◌, ◌≤◌, min, true, [], ◌++◌, length, take, is_ok, None, string_bytes};
ghost use Rattle.trace.specs.Requests.{requests_in};
ghost use Rattle.lru_cache.specs.Rows.{capacity, cached, first_wide};
ghost use Rattle.day.specs.Said.{Ready, lines_for, cache_at_end};

use crate::replies::{answer, tell, tell_refused};
use lru_cache::Outcome;
use recency::MAX_CAPACITY;
use std::fmt;

// How many bytes are served at once at most: what a pipe holds.
pub const PIECE: usize = 65536;

const REQUESTS: usize = PIECE / 4;

// As long as the cache row of the largest capacity.
pub(crate) const CACHE_LEN: usize = 2 + MAX_CAPACITY;

// Bytes that are served at once.
#[derive(Clone, Copy, Debug)]
pub struct Piece<'a> {
    pub bytes: &'a [u8],
    // as many as a pipe holds at most
    pub ghost short: { length bytes.now ≤ 65536 },
}

// Writes an empty cache row of capacity k. Where k is no capacity, it turns every request away.
pub(crate) fn empty(cache: &mut [u64; CACHE_LEN], k: usize)
    ensures ready { (m : ℕ) → 9 * 4096 + 5 ≤ m → Ready cache.new m }
    ensures capacity { capacity cache.new ≡ k }
    ensures none { cached cache.new ≡ [] }
{
    cache[0] = k as u64;
    cache[1] = 0;
}

// Serves the requests that the bytes of a piece hold whole, and adds their lines to the text. Not given as a `Piece`: that was tried, and of a
// slice in a struct a proof has no bound on its bytes, so not that the requests are pages.
pub(crate) fn serve_bytes(
    cache: &mut [u64],
    index: &mut [u64],
    bytes: &[u8],
    text: &mut String,
) -> fmt::Result
    requires ready { Ready cache.old (length index.old) }
    requires short { length bytes.now ≤ 65536 }
    ensures ready { Ready cache.new (length index.new) }
    ensures capacity { capacity cache.new ≡ capacity cache.old }
    ensures after { cached cache.new ≡ cache_at_end (capacity cache.old) (cached cache.old) (requests_in bytes.now) }
    ensures lines { is_ok result ≡ true → string_bytes text.new ≡ string_bytes text.old ++ lines_for (capacity cache.old) (cached cache.old) (requests_in bytes.now) }
{
    // Fixed memory, no heap in the library: both are as long as the largest piece.
    let mut pages = [0u64; REQUESTS];
    let mut found = [Outcome::Hit; REQUESTS];
    let count = trace::decode(bytes, &mut pages);
    let trace = &pages[..count];
    match answer(cache, index, trace, &mut found) {
        Ok(()) => tell(trace, &found[..count], text),
        Err(refusal) => tell_refused(trace, refusal, text),
    }
}

// Writes the pages that the bytes request behind those that a trace of `total` requests has in `first`, as far as there is room, and says how
// many requests there are then.
pub(crate) fn keep(first: &mut [u64], total: u64, bytes: &[u8]) -> u64
    ensures value { result ≡ min (total + length (requests_in bytes.now)) (2 ^ 64 - 1) }
    ensures after { take result first.new ≡ take (length first.old) (take total first.old ++ requests_in bytes.now) }
    ensures small { first_wide (requests_in bytes.now) ≡ None }
{
    let held = total.min(first.len() as u64) as usize;
    trace::decode(bytes, &mut first[held..]);
    total.saturating_add(bytes.len() as u64 / 4)
}
