// The fewest fetches anybody could make who knows the trace: for one number of places by Belady's rule itself, request by request, and for
// every number of places in one pass. The report has both halves: what LRU fetches, and the fewest.
#![tactic(auto)]

mod counts;
mod foresight;
mod nexts;
mod places;
mod reports;
mod rule;
mod sieve;
mod sifts;

pub use counts::count;
pub use foresight::Foresight;
pub use nexts::next_uses;
pub use reports::report;
pub use rule::fetches;
