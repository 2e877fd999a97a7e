// What a trace comes to with one number of places: a few numbers (`summarize`), and a paragraph of text (`tell`). What the numbers are is in
// specs/Counted.antt, and the bytes of the text in specs/Said.antt.
#![tactic(auto)]

mod amounts;
mod reads;
mod sentences;
mod summaries;

pub use sentences::tell;
pub use summaries::{Summary, summarize};
