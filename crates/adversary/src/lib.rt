// The adversary: requests that beat any online policy, one at a time on a lent row, beside a schedule that knows them.
#![tactic(auto)]

mod asks;
mod begins;
mod challenge;
mod ends;
mod lists;
mod marks;
mod moves;
mod reading;
mod rules;
mod schedule;
mod steps;
mod tells;

pub use asks::ask;
pub use begins::row_len;
pub use challenge::Challenge;
