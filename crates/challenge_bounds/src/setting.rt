// What is challenged.
ghost use Rattle.std.specs.Prelude.{◌≤◌};

use std::fmt;

// The most places there are.
pub const PLACES: usize = 6;

// A policy with k places, beside a schedule with h. A type of its own, since k is at most PLACES here, which the arrays are for.
#[derive(Clone, Copy)]
pub struct Setting {
    pub k: usize,
    pub h: usize,
    ghost low: { 1 ≤ h },
    ghost within: { h ≤ k },
    ghost high: { k ≤ 6 },
}

impl fmt::Display for Setting {
    fn fmt<W: fmt::Write>(&self, f: &mut fmt::Formatter<W>) -> fmt::Result {
        write!(f, "{} beside {}", self.k, self.h)
    }
}
