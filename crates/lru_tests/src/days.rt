// Days that are served to their end.
use crate::lent::{Row, UNTOUCHED, lay, play, serve};
use lru_cache::Outcome::{Evicted, Filled, Hit};
use lru_cache::{Outcome, PAGE_LIMIT, Refusal};
use std::alloc::{AllocError, Global};
use std::test::Fail;
use traces::{TEN, TEN_FIND, TOP, begins, draw};

// The cache row after each of them.
const ROWS: [[u64; 5]; 10] = [
    [3, 1, 1, 0, 0],
    [3, 2, 2, 1, 0],
    [3, 3, 3, 2, 1],
    [3, 3, 1, 3, 2],
    [3, 3, 4, 1, 3],
    [3, 3, 1, 4, 3],
    [3, 3, 2, 1, 4],
    [3, 3, 5, 2, 1],
    [3, 3, 3, 5, 2],
    [3, 3, 1, 3, 5],
];

// Whether the ten requests, one by one on rows of 5 and 32 numbers with more behind them, go as they must.
fn one_by_one(cache: &mut Row, index: &mut Row) -> bool {
    TEN.iter().zip(&TEN_FIND).zip(&ROWS).all(|((&page, &outcome), row)| {
        serve(cache, index, page) == Ok(outcome) && cache.holds(row) && index.is_noise_from(32)
    })
}

// The free places hold noise at the beginning.
#[test]
fn ten_requests_one_by_one(rt: HostRuntime) -> Result<(), Fail> {
    let heap = rt.alloc();
    let mut cache = Row::new(heap, &[3, 0], 5)?;
    let mut index = Row::new(heap, &[], 32)?;
    assert!(rt; one_by_one(&mut cache, &mut index));
    Ok(())
}

// A request by the four calls that `serve` is made of.
fn by_hand(cache: &mut [u64], index: &mut [u64], page: u64) -> Result<Outcome, Refusal> {
    let (k, n) = lru_cache::check(cache, index.len())?;
    lru_cache::open(cache, index, k, n);
    let outcome = lru_cache::request(index, k, page);
    lru_cache::close(cache, index, k);
    Ok(outcome)
}

// Whether a row of capacity 3 answers so by the four calls, and is left so. No struct: a case is one line, as for `serves`.
fn goes_by_hand(
    heap: Global,
    front: &[u64],
    page: u64,
    expected: Outcome,
    after: &[u64],
) -> Result<bool, AllocError> {
    let mut cache = Row::new(heap, front, 9)?;
    let mut index = Row::new(heap, &[], 40)?;
    let outcome = by_hand(cache.lend(), index.lend(), page);
    Ok(outcome == Ok(expected) && cache.holds(after) && index.is_noise_from(32))
}

#[test]
fn requests_by_hand(rt: HostRuntime) -> Result<(), Fail> {
    let heap = rt.alloc();
    assert!(rt; goes_by_hand(heap, &[3, 0], 9, Filled, &[3, 1, 9, 0, 0])?);
    assert!(rt; goes_by_hand(heap, &[3, 2, 8, 9], 9, Hit, &[3, 2, 9, 8, 0])?);
    assert!(rt; goes_by_hand(heap, &[3, 3, 8, 9, 7], 6, Evicted(7), &[3, 3, 6, 8, 9])?);
    Ok(())
}

#[test]
fn ten_requests_at_once(rt: HostRuntime) -> Result<(), Fail> {
    let heap = rt.alloc();
    let mut cache = Row::new(heap, &[3, 0], 5)?;
    let mut index = Row::new(heap, &[], 32)?;
    let mut found = [UNTOUCHED; 12];
    assert!(rt; play(&mut cache, &mut index, &TEN, &mut found) == Ok(8));
    assert!(rt; begins(&found, &TEN_FIND, &UNTOUCHED));
    assert!(rt; cache.holds(&[3, 3, 1, 3, 5]) && index.is_noise_from(32));
    Ok(())
}

#[test]
fn no_requests(rt: HostRuntime) -> Result<(), Fail> {
    let heap = rt.alloc();
    let mut cache = Row::new(heap, &[3, 2, 8, 6], 5)?;
    let mut index = Row::new(heap, &[], 32)?;
    let mut found = [UNTOUCHED; 1];
    assert!(rt; play(&mut cache, &mut index, &[], &mut found) == Ok(0));
    assert!(rt; begins(&found, &[], &UNTOUCHED));
    assert!(rt; cache.holds(&[3, 2, 8, 6, 0]) && index.is_noise_from(32));
    Ok(())
}

// Fewer places for outcomes than requests, down to none.
#[test]
fn few_places_for_replies(rt: HostRuntime) -> Result<(), Fail> {
    let heap = rt.alloc();
    let mut cache = Row::new(heap, &[3, 0], 5)?;
    let mut index = Row::new(heap, &[], 32)?;
    let mut found = [UNTOUCHED; 4];
    assert!(rt; play(&mut cache, &mut index, &TEN, &mut found) == Ok(8));
    assert!(rt; begins(&found, &[Filled, Filled, Filled, Hit], &UNTOUCHED));
    assert!(rt; cache.holds(&[3, 3, 1, 3, 5]));
    let mut cache = Row::new(heap, &[3, 0], 5)?;
    assert!(rt; play(&mut cache, &mut index, &TEN, &mut []) == Ok(8));
    assert!(rt; cache.holds(&[3, 3, 1, 3, 5]));
    Ok(())
}

// A page that is too large turns a trace away whole, wherever it stands, and the first of several is told.
#[test]
fn one_request_too_large(rt: HostRuntime) -> Result<(), Fail> {
    let heap = rt.alloc();
    let mut cache = Row::new(heap, &[3, 1, 8], 5)?;
    let mut index = Row::new(heap, &[], 32)?;
    let mut found = [UNTOUCHED; 4];
    let trace = [1, 2, PAGE_LIMIT + 1, PAGE_LIMIT];
    let refused = Err(Refusal::BadRequest(PAGE_LIMIT + 1));
    assert!(rt; play(&mut cache, &mut index, &trace, &mut found) == refused);
    assert!(rt; begins(&found, &[], &UNTOUCHED) && cache.holds(&[3, 1, 8]) && index.holds(&[]));
    Ok(())
}

// Whether the requests, one by one, find this. The index is made worthless between them.
fn agree(cache: &mut [u64], index: &mut [u64], trace: &[u64], found: &[Outcome]) -> bool {
    trace.iter().zip(found).all(|(&page, &outcome)| {
        lay(index, &[]);
        lru_cache::serve(cache, index, page) == Ok(outcome)
    })
}

// Whether a day goes the same way whole, in two parts and request by request.
fn goes_one_way(k: u64, seed: u64, bound: u64) -> Result<bool, Refusal> {
    let mut trace = [0u64; 600];
    draw(&mut trace, seed, bound);
    let mut cache = [0u64; 600];
    let mut index = [0u64; 5000];
    let mut found = [UNTOUCHED; 600];
    lay(&mut cache, &[k, 0]);
    lay(&mut index, &[]);
    let fetches = lru_cache::play(&mut cache, &mut index, &trace, &mut found)?;
    let mut parts = [0u64; 600];
    let mut first = [UNTOUCHED; 217];
    let mut second = [UNTOUCHED; 383];
    lay(&mut parts, &[k, 0]);
    let (one, other) = trace.split_at(217);
    let some = lru_cache::play(&mut parts, &mut index, one, &mut first)?;
    lay(&mut index, &[]);
    let rest = lru_cache::play(&mut parts, &mut index, other, &mut second)?;
    let mut each = [0u64; 600];
    lay(&mut each, &[k, 0]);
    Ok(
        some <= 600
            && rest <= 600
            && some + rest == fetches
            && found.starts_with(&first)
            && found.ends_with(&second)
            && cache == parts
            && agree(&mut each, &mut index, &trace, &found)
            && cache == each,
    )
}

#[test]
fn in_two_parts_and_one_by_one(rt: HostRuntime) {
    for (k, seed, bound) in [
        (1, 1, 4),
        (5, 2, 12),
        (64, 3, 128),
        (65, 4, 128),
        (500, 5, TOP),
    ] {
        assert_eq!(rt; goes_one_way(k, seed, bound), Ok(true), "{k} places");
    }
}
