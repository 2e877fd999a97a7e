// A policy challenged, and what it did told in lines.
#![tactic(auto)]

mod asked;
mod contests;
mod faults;
mod turns;

pub use asked::settings_with;
pub use contests::{contest, contest_told};
pub use faults::Fault;
pub use lru_cache::Stop;
pub use turns::play;
