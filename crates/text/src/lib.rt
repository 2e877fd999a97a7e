// A trace as text: page numbers between blanks and line breaks, and comments from `#` to the end of a line.
//
// A `Reader` is given a text piece by piece, and writes the pages that it names. specs/Texts.antt says which these are.
#![tactic(auto)]

mod messages;
mod readers;
mod words;

pub use messages::BadWord;
pub use readers::Reader;
pub use words::number;
