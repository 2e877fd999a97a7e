// The caches that Belady's rule keeps, one line for each request.
use belady::{Foresight, next_uses};
use lru_cache::Capacity;
use std::io;
use traces::Pages;

// The caches of so many places.
pub fn show_caches(rt: &HostRuntime, trace: &[u64], capacity: Capacity) -> io::Result<()> {
    let mut next = vec![in rt.alloc(); 0; trace.len()]?;
    next_uses(trace, &mut next);
    println!(rt; "with {} places:", capacity.places)?;
    let mut cache = Foresight::new(capacity);
    for (i, page) in trace.iter().enumerate() {
        let found = if cache.request(trace, &next, i) {
            "fetched"
        } else {
            "here"
        };
        println!(rt; "{page}: {found}, then{}", Pages(cache.cache()))?;
    }
    Ok(())
}
