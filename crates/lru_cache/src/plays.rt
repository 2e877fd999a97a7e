// Requests to a cache on two lent rows: a whole trace, and one. Both are right for all input, and change nothing where they refuse.
ghost use Rattle.std.specs.Prelude.{◌≡◌, ◌+◌, ◌*◌, ◌≤◌, [], ◌∷◌, ◌++◌, length, take, drop, IfOk, OnErr, slice_set};
ghost use Rattle.std.specs.Result.{result_err};
ghost use Rattle.paging.specs.Lru.{lru, lru_fetches, lru_after};
ghost use Rattle.recency.specs.Outcome.{outcome};
ghost use Rattle.recency.specs.Row as recent;
ghost use Rattle.recency.specs.Sound.{Sound};
ghost use Rattle.lru_cache.specs.Outcomes.{fetches_of, outcomes};
ghost use Rattle.lru_cache.specs.Rows.{refusal, unplayed};
ghost use Rattle.lru_cache.specs.Promises.{Bounded, Indexed, Played, Served};

use crate::checks::{MIDDLE_CAPACITY, MIDDLE_ROW, check, first_wide};
use crate::indexes::{close, open};
use crate::refusals::Refusal;
use recency::{Capacity, LARGEST_ROW, Outcome, SMALL_CAPACITY, SMALL_ROW};
use rows::write_at;

// How many fetches an outcome stands for.
fn cost(outcome: Outcome) -> u64
    ensures value { result ≡ fetches_of outcome }
{
    match outcome {
        Outcome::Hit => 0,
        Outcome::Filled | Outcome::Evicted(_) => 1,
    }
}

// The requests of a trace on an open index: how many were fetched, and the outcomes as far as there are places for them.
fn run(index: &mut [u64], k: usize, trace: &[u64], found: &mut [Outcome]) -> u64
    requires sound { Sound k index.old }
    ensures value { result ≡ lru_fetches k (recent.pages index.old) trace.now }
    ensures after { Indexed k (lru_after k (recent.pages index.old) trace.now) index.old index.new }
    ensures told { found.new ≡ take (length found.old) (outcomes k (recent.pages index.old) trace.now) ++ drop (length trace.now) found.old }
{
    let mut fetches = 0;
    for (i, &page) in trace.iter().enumerate() {
        let outcome = recency::request(index, k, page);
        write_at(found, i, outcome);
        fetches += cost(outcome);
    }
    fetches
}

// Plays a whole trace: opened once, closed once. Answers how many of its requests were fetched, and writes the outcomes as far as there are
// places for them. Never much more is fetched than by any schedule, however much that one knows of the trace.
pub fn play(
    cache: &mut [u64],
    index: &mut [u64],
    trace: &[u64],
    found: &mut [Outcome],
) -> Result<u64, Refusal>
    ensures played { IfOk result (λ n. Played cache.old index.old trace.now found.old n cache.new index.new found.new) }
    ensures refused { result_err result ≡ refusal cache.old (length index.old) trace.now }
    ensures same { OnErr result ((cache.new ≡ cache.old) × (index.new ≡ index.old) × (found.new ≡ found.old)) }
{
    let (k, n) = check(cache, index.len())?;
    first_wide(trace)?;
    open(cache, index, k, n);
    let fetches = run(index, k, trace, found);
    close(cache, index, k);
    Ok(fetches)
}

// How many requests of a trace are fetched from an empty cache, on an index of N numbers of its own.
fn fetches_apart<const N: usize>(trace: &[u64], capacity: Capacity) -> u64
    requires room { 9 * capacity.places + 5 ≤ N }
    requires size { N ≤ 65536 }
    ensures value { result ≡ lru_fetches capacity.places [] trace.now }
{
    let k = capacity.places;
    let mut index = [0; N];
    recency::clear(&mut index, k);
    run(&mut index, k, trace, &mut [])
}

// The same with an index of a size that fits the capacity, as `check` has one: the largest costs more to clear than a short trace to play.
fn fetches_within(trace: &[u64], capacity: Capacity) -> u64
    ensures value { result ≡ lru_fetches capacity.places [] trace.now }
{
    match capacity.places {
        0..=SMALL_CAPACITY => fetches_apart::<SMALL_ROW>(trace, capacity),
        0..=MIDDLE_CAPACITY => fetches_apart::<MIDDLE_ROW>(trace, capacity),
        _ => fetches_apart::<LARGEST_ROW>(trace, capacity),
    }
}

// How many requests of a trace LRU fetches from an empty cache of k places, on an index of its own.
pub fn fetches(trace: &[u64], k: usize) -> Result<u64, Refusal>
    ensures counted { IfOk result (λ n. (n ≡ lru_fetches k [] trace.now) × Bounded k trace.now n) }
    ensures refused { result_err result ≡ unplayed k trace.now }
{
    let capacity = Capacity::new(k).ok_or(Refusal::NoCache)?;
    first_wide(trace)?;
    Ok(fetches_within(trace, capacity))
}

// One request on an open index of capacity k: recency's, public here too, with what it leaves said as `open` says it.
pub fn request(index: &mut [u64], k: usize, page: u64) -> Outcome
    requires sound { Sound k index.old }
    ensures value { result ≡ outcome k (recent.pages index.old) page }
    ensures after { Indexed k (lru k (recent.pages index.old) page) index.old index.new }
{
    recency::request(index, k, page)
}

// One request on two lent rows.
pub fn serve(cache: &mut [u64], index: &mut [u64], page: u64) -> Result<Outcome, Refusal>
    ensures served { IfOk result (λ o. Served cache.old index.old page o cache.new index.new) }
    ensures refused { result_err result ≡ refusal cache.old (length index.old) (page ∷ []) }
    ensures same { OnErr result ((cache.new ≡ cache.old) × (index.new ≡ index.old)) }
{
    let mut found = [Outcome::Hit];
    play(cache, index, &[page], &mut found)?;
    Ok(found[0])
}
