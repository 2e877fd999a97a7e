// What is said when a day is over, beside its report: the summary, and the picture of the report. Where not all
// requests of the day were kept, there is neither.
#![tactic(auto)]

mod draws;
mod requests;
mod sums;

pub use draws::draw;
pub use lru_cache::Stop;
pub use requests::Requests;
pub use sums::tell_summary;
