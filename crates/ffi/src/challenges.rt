// The adversary's side of a challenge: whoever calls is the policy, and shows its cache before each request and after the last.
ghost use Rattle.std.specs.Prelude.{◌≡◌, length, MatchBool, MatchOption};
ghost use Rattle.lru_cache.specs.declared.refusals.Refusal.TheVariants.{NoCache};
ghost use Rattle.ffi.specs.Challenges.{no_start, Started, Unchanged, Asked, Accepted};
ghost use Rattle.ffi.specs.Numbers.{as_refusal};
ghost use Rattle.ffi.specs.States.{stands};

use crate::packs::{count, name, refuse};
use crate::states::{STATE_LEN, read, write};
use adversary::Challenge;
use lru_cache::Refusal;

// Writes where a challenge of a policy with k places beside a schedule with h stands before the first request.
#[unsafe(no_mangle)]
pub extern "C" fn dq_begin(k: usize, h: usize, state: &mut [u64], row: &[u64]) -> u64
    ensures cases { MatchOption (no_start k h (length state.old) (length row.now)) (Started k h state.old row.now result state.new) (λ e. (result ≡ as_refusal e) × (state.new ≡ state.old)) }
{
    if state.len() < STATE_LEN {
        return refuse(Refusal::NoCache);
    }
    // a match, here and in dq_step: of what a closure writes into a lent row nothing is known
    match Challenge::begin(k, h, row) {
        Ok(challenge) => {
            write(state, challenge);
            count(0)
        }
        Err(refusal) => refuse(refusal),
    }
}

// Takes what the policy shows after the request before, and names the next page.
#[unsafe(no_mangle)]
pub extern "C" fn dq_step(state: &mut [u64], row: &mut [u64], shown: &[u64]) -> u64
    ensures cases { MatchBool (stands state.old (length row.old)) (Asked state.old row.old shown.now result state.new row.new) (Unchanged NoCache state.old row.old result state.new row.new) }
{
    let Some(challenge) = read(state, row.len()) else {
        return refuse(Refusal::NoCache);
    };
    match challenge.step(row, shown) {
        Ok(next) => {
            write(state, next);
            name(next.page())
        }
        Err(refusal) => refuse(refusal),
    }
}

// Takes what the policy shows after the last request.
#[unsafe(no_mangle)]
pub extern "C" fn dq_accept(state: &[u64], row: &[u64], shown: &[u64]) -> u64
    ensures cases { MatchBool (stands state.now (length row.now)) (Accepted state.now row.now shown.now result) (result ≡ as_refusal NoCache) }
{
    let Some(challenge) = read(state, row.len()) else {
        return refuse(Refusal::NoCache);
    };
    // a match, since with `map_or_else(refuse, |()| count(0))` the proof did not close
    match challenge.accept(row, shown) {
        Ok(()) => count(0),
        Err(refusal) => refuse(refusal),
    }
}
