// The curve of a report as a picture: an SVG file, as text. Where things stand on it is in specs/Scaled.antt, what they look like in
// specs/Drawn.antt, and the whole in specs/Pictured.antt.
#![tactic(auto)]

mod axes;
mod lines;
mod marks;
mod pictures;
mod scales;
mod shapes;
mod undrawable;

pub use pictures::draw;
pub use undrawable::Undrawable;
