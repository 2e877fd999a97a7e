// What LRU fetches, counted from the trace alone, with no cache: a page is there where fewer pages than the cache has places were
// requested since it was requested last.

// Whether it is, after these requests. The pages since are a set, bit p for page p.
fn is_near(past: &[u64], page: u64, k: usize) -> bool {
    let since = past
        .iter()
        .rev()
        .take_while(|&other| *other != page)
        .fold(0u64, |set, other| set | 1 << (*other % 8));
    past.contains(&page) && (since.count_ones() as usize) < k
}

// How many requests LRU with k places fetches, for a trace over pages below 8.
pub fn count(trace: &[u64], k: usize) -> u64 {
    trace
        .iter()
        .enumerate()
        .filter(|&(i, page)| !is_near(&trace[..i], *page, k))
        .count() as u64
}
