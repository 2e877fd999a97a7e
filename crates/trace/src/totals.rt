// What a challenge comes to at its end.
ghost use Rattle.std.specs.Prelude.{Some};
ghost use Rattle.trace.specs.Totals.{totals_bytes};

use std::fmt;

#[derive(Clone, Copy, Debug, PartialEq, Eq)]
pub struct Totals {
    // how many requests there were
    pub asked: u64,
    // how many of them the policy fetched
    pub keeper: u64,
    // how many of them the schedule beside it fetched
    pub rival: u64,
}

impl fmt::Display for Totals {
    ghost output = { λ t. Some (totals_bytes t) };

    fn fmt<W: fmt::Write>(&self, f: &mut fmt::Formatter<W>) -> fmt::Result {
        let Totals {
            asked,
            keeper,
            rival,
        } = self;
        write!(f, "asked {asked} keeper {keeper} rival {rival}")
    }
}
