// What the programs need of the system: their arguments, their input piece by piece, a file that is written whole or not at all, and how they
// end.
#![tactic(auto)]

mod ends;
mod files;
mod inputs;
mod words;

pub use ends::status;
pub use files::write_whole;
pub use inputs::{fill, read_some};
pub use words::{Asked, ask};
