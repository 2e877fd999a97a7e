// The arguments of a program: which options they are, with their values, and which file; or what is wrong with them.
//
// `Given::read` goes through the arguments. specs/Arguments.antt says what each means.
#![tactic(auto)]

mod given;
mod names;
mod places;
mod reading;
mod values;

pub use given::Given;
pub use names::{Opt, Program};
pub use places::word_at;
pub use values::{MOST_PLACES, MOST_ROUNDS, Wrong};
