// Why there is no picture.
ghost use Rattle.std.specs.Prelude.{◌≡◌, Some};
ghost use Rattle.picture.specs.Undrawn.{undrawable_bytes};
ghost use Rattle.picture.specs.declared.undrawable.Undrawable.TheVariants as undrawable;

use std::error::Error;
use std::fmt;

#[derive(Clone, Copy, Debug, PartialEq, Eq)]
pub enum Undrawable {
    // the row is no report on so many capacities, or there is none on as many
    NoRow,
    // there is no memory for the text
    Memory,
}

impl From<fmt::Error> for Undrawable {
    ghost from_gives = { λ _ e. e ≡ undrawable.Memory };

    fn from(_error: fmt::Error) -> Undrawable {
        Undrawable::Memory
    }
}

impl fmt::Display for Undrawable {
    ghost output = { λ e. Some (undrawable_bytes e) };

    fn fmt<W: fmt::Write>(&self, f: &mut fmt::Formatter<W>) -> fmt::Result {
        match self {
            Undrawable::NoRow => f.write_str("there is no report to draw"),
            Undrawable::Memory => f.write_str("out of memory"),
        }
    }
}

impl Error for Undrawable {}
