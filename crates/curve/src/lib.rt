// What LRU fetches with every number of places, in one pass over a trace.
//
// A request finds its page in the cache of c places where fewer than c different pages were requested since the last request for
// it. `Stack` keeps the pages requested last in order and tells how many came since; `count` notes at each place how many requests
// found their page there, and what is left of the requests is fetched. `curve` is right for all input; `check` and `count` are its
// parts, for who writes the other half of a report's row.
#![tactic(auto)]

mod checks;
mod counts;
mod entry;
mod stack;

pub use checks::{MAX_CAPACITIES, MAX_REQUESTS, REPORT_LEN, check, report_len};
pub use counts::{count, settle};
pub use entry::curve;
