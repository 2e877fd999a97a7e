// A trace served piece by piece as it comes in, and what is said of it as text: a line for each request, and the report.
#![tactic(auto)]

mod days;
mod pieces;
mod replies;
mod reports;

pub use days::Day;
pub use pieces::{PIECE, Piece};
