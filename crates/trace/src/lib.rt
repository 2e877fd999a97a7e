// A trace as bytes, and what a cache says of it as lines of text.
//
// A trace begins with a header of four bytes (`read_header`), and each request after it has four bytes more (`decode`). What
// the bytes mean is in specs/Requests.antt and specs/Headers.antt. `Line` is a line of the output, and specs/Lines.antt has its
// bytes. `Detail` is how much of it is asked for.
//
// A challenge is set by seven bytes (`read_settings`), is against a `PolicyKind`, and ends in a line with its counts (`Totals`).
#![tactic(auto)]

mod details;
mod headers;
mod kinds;
mod lines;
mod requests;
mod settings;
mod totals;

pub use details::Detail;
pub use headers::{Header, PLACES, read_header};
pub use kinds::{PolicyKind, UnknownName, UnknownPolicy};
pub use lines::Line;
pub use requests::decode;
pub use settings::{Settings, read_settings};
pub use totals::Totals;
