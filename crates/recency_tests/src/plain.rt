// The plain way to keep pages in the order of use: a list, where every page before the one requested moves by a place.
use recency::Outcome;
use std::alloc::{AllocError, Global};

// Requests the trace from an empty list of k places on: what each request found, and the pages at the end.
pub fn plain_day(
    heap: Global,
    k: usize,
    trace: &[u64],
) -> Result<(Vec<Outcome>, Vec<u64>), AllocError> {
    let mut found = Vec::new(heap);
    let mut pages = Vec::new(heap);
    for &page in trace {
        let outcome = if let Some(at) = pages.iter().position(|&p| p == page) {
            pages.remove(at);
            Outcome::Hit
        } else if pages.len() < k {
            Outcome::Filled
        } else {
            pages.pop().map_or(Outcome::Filled, Outcome::Evicted)
        };
        pages.insert(0, page)?;
        found.push(outcome)?;
    }
    Ok((found, pages))
}
