// Rows and requests that are turned away, and those at the edge that are not.
use crate::lent::{Row, UNTOUCHED, play, serve};
use lru_cache::{Outcome, PAGE_LIMIT, Refusal};
use std::alloc::{AllocError, Global};
use traces::begins;

// Two rows before a request: how the cache row begins, and how many numbers each of them has.
#[derive(Clone, Copy)]
pub struct Rows<'a> {
    heap: Global,
    front: &'a [u64],
    cache_len: usize,
    index_len: usize,
}

pub fn before(heap: Global, front: &[u64], cache_len: usize, index_len: usize) -> Rows<'_> {
    Rows {
        heap,
        front,
        cache_len,
        index_len,
    }
}

impl Rows<'_> {
    // What `check` says of them: a `Result` within one, since no memory ends the test and a refusal is what it compares.
    fn checked(self) -> Result<Result<(usize, usize), Refusal>, AllocError> {
        let mut cache = Row::new(self.heap, self.front, self.cache_len)?;
        Ok(lru_cache::check(cache.lend(), self.index_len))
    }

    // Whether a request is turned away so by both calls, and every number stays as it was.
    fn turns_away(self, page: u64, refusal: Refusal) -> Result<bool, AllocError> {
        let mut cache = Row::new(self.heap, self.front, self.cache_len)?;
        let mut index = Row::new(self.heap, &[], self.index_len)?;
        let mut found = [UNTOUCHED; 2];
        let served = serve(&mut cache, &mut index, page) == Err(refusal)
            && cache.holds(self.front)
            && index.holds(&[]);
        let played = play(&mut cache, &mut index, &[page], &mut found) == Err(refusal)
            && begins(&found, &[], &UNTOUCHED)
            && cache.holds(self.front)
            && index.holds(&[]);
        Ok(served && played)
    }

    // Whether they are no cache, and say so whatever is requested: a page, or a number that is none.
    pub fn refuses(self, refusal: Refusal) -> Result<bool, AllocError> {
        Ok(
            self.checked()? == Err(refusal)
                && self.turns_away(5, refusal)?
                && self.turns_away(PAGE_LIMIT, refusal)?,
        )
    }

    // Whether they are a cache that turns a page away.
    pub fn refuses_page(self, page: u64) -> Result<bool, AllocError> {
        Ok(self.checked()?.is_ok() && self.turns_away(page, Refusal::BadRequest(page))?)
    }
}

// Whether a request is served with this outcome and leaves the cache row so, and everything behind both rows as it was. They have the
// lengths that the capacity asks, and not a number more. No struct: a case is one line (row, page, outcome, row); fields make it six.
pub fn serves(
    heap: Global,
    k: usize,
    front: &[u64],
    page: u64,
    outcome: Outcome,
    after: &[u64],
) -> Result<bool, AllocError> {
    let Some(index_len) = recency::row_len(k) else {
        return Ok(false);
    };
    let mut cache = Row::new(heap, front, 2 + k)?;
    let mut index = Row::new(heap, &[], index_len)?;
    Ok(
        before(heap, front, 2 + k, index_len).checked()?.is_ok()
            && serve(&mut cache, &mut index, page) == Ok(outcome)
            && cache.holds(after)
            && index.is_noise_from(index_len),
    )
}
