// A whole run of the adversary against a policy, and the schedule beside it.
#![tactic(auto)]

mod schedule;
mod stopped;
mod whole;

pub use schedule::reads_schedule_stands;
pub use stopped::Stopped;
pub use whole::run;
