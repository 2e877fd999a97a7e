// An LRU cache on two lent rows of numbers: the cache row, which a caller reads, and the index row that finds its pages.
//
// The two are parameters beside each other, and in no struct: both are lent anew at each call, by C too, and of what is written through a
// struct over a lent row nothing is known once the struct is let go.
#![tactic(auto)]

mod checks;
mod indexes;
mod plays;
mod refusals;
mod stops;

pub use checks::{PAGE_LIMIT, check, first_wide};
pub use indexes::{close, open};
pub use plays::{fetches, play, request, serve};
pub use recency::{Capacity, Outcome};
pub use refusals::Refusal;
pub use stops::Stop;
