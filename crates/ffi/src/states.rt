// Where a challenge stands, as eight numbers in front of a lent row: C has no struct that keeps what holds of them.
ghost use Rattle.std.specs.Prelude.{◌≡◌, ◌≤◌, false, ◌++◌, length, drop, MatchOption};
ghost use Rattle.ffi.specs.States.{stands, numbers_of, Stands};

use adversary::Challenge;
use lru_cache::PAGE_LIMIT;
use recency::MAX_CAPACITY;

// How many numbers say where a challenge stands.
pub(crate) const STATE_LEN: usize = 8;

// The challenge whose numbers these are, where an adversary's row of `len` numbers is long enough for it. They may come from anywhere, so all
// that holds of a challenge's numbers is tested.
pub(crate) fn read(state: &[u64], len: usize) -> Option<Challenge>
    ensures cases { MatchOption result (stands state.now len ≡ false) (λ c. Stands state.now len c) }
{
    let &[k, h, next, listed, noted, picks, shown, last, ..] = state else {
        return None;
    };
    if h == 0 || h > k || k > MAX_CAPACITY as u64 {
        return None;
    }
    if listed > k + 1 || listed >= next || next > PAGE_LIMIT {
        return None;
    }
    if noted > picks || picks >= h {
        return None;
    }
    if shown > k || (next == 1 && shown > 0) {
        return None;
    }
    if (len as u64) < 3 * k + 1 {
        return None;
    }
    Some(Challenge {
        k: k as usize,
        h: h as usize,
        next,
        listed: listed as usize,
        noted: noted as usize,
        picks: picks as usize,
        shown: shown as usize,
        last,
    })
}

// Writes the numbers of a challenge.
pub(crate) fn write(state: &mut [u64], challenge: Challenge)
    requires long { 8 ≤ length state.old }
    ensures after { state.new ≡ numbers_of challenge ++ drop 8 state.old }
{
    state[..STATE_LEN].copy_from_slice(&[
        challenge.k as u64,
        challenge.h as u64,
        challenge.next,
        challenge.listed as u64,
        challenge.noted as u64,
        challenge.picks as u64,
        challenge.shown as u64,
        challenge.last,
    ]);
}
