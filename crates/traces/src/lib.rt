// Traces that programs and tests serve: two worked out by hand, and others made by a fixed generator; cases at the edges;
// how what was written is looked at, and how pages are printed.
#![tactic(auto)]

mod beside;
mod cases;
mod day;
mod kind;
mod marks;
mod pages;
mod random;
mod worked;

pub use beside::agreed;
pub use cases::{
    BAD_CAPACITIES, BAD_TRACES, BAD_TWICE, Case, LARGEST, LARGEST_PAGE, Requests, WORKED, is_kept,
    rest,
};
pub use day::{Day, short_days};
pub use kind::Kind;
pub use marks::begins;
pub use pages::Pages;
pub use random::{Random, draw};
pub use worked::{ROUNDS, TEN, TEN_FIND, TOP};
