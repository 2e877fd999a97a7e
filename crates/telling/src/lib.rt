// What is told of a policy that is challenged: the line of a request, and the counts at the end.
#![tactic(auto)]

mod lines;
mod totals;

pub use lines::tell;
pub use totals::count;
